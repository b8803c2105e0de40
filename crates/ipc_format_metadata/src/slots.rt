//! The slots of tables, each by its number in the table's vtable.

/// `Message`.
pub const MESSAGE_VERSION: u8 = 0;

pub const MESSAGE_HEADER_TYPE: u8 = 1;

pub const MESSAGE_HEADER: u8 = 2;

pub const MESSAGE_BODY_LENGTH: u8 = 3;

/// `Schema`.
pub const SCHEMA_ENDIANNESS: u8 = 0;

pub const SCHEMA_FIELDS: u8 = 1;

pub const SCHEMA_CUSTOM_METADATA: u8 = 2;

/// `Field`.
pub const FIELD_NAME: u8 = 0;

pub const FIELD_NULLABLE: u8 = 1;

pub const FIELD_TYPE_TYPE: u8 = 2;

pub const FIELD_TYPE: u8 = 3;

pub const FIELD_DICTIONARY: u8 = 4;

pub const FIELD_CHILDREN: u8 = 5;

pub const FIELD_CUSTOM_METADATA: u8 = 6;

/// `KeyValue`.
pub const KEY_VALUE_KEY: u8 = 0;

pub const KEY_VALUE_VALUE: u8 = 1;

/// `DictionaryEncoding`.
pub const DICTIONARY_ENCODING_ID: u8 = 0;

pub const DICTIONARY_ENCODING_INDEX_TYPE: u8 = 1;

pub const DICTIONARY_ENCODING_IS_ORDERED: u8 = 2;

pub const DICTIONARY_ENCODING_DICTIONARY_KIND: u8 = 3;

/// `RecordBatch`.
pub const RECORD_BATCH_LENGTH: u8 = 0;

pub const RECORD_BATCH_NODES: u8 = 1;

pub const RECORD_BATCH_BUFFERS: u8 = 2;

pub const RECORD_BATCH_COMPRESSION: u8 = 3;

/// `DictionaryBatch`.
pub const DICTIONARY_BATCH_ID: u8 = 0;

pub const DICTIONARY_BATCH_DATA: u8 = 1;

pub const DICTIONARY_BATCH_IS_DELTA: u8 = 2;

/// `Footer`.
pub const FOOTER_VERSION: u8 = 0;

pub const FOOTER_SCHEMA: u8 = 1;

pub const FOOTER_DICTIONARIES: u8 = 2;

pub const FOOTER_RECORD_BATCHES: u8 = 3;

/// `Int`.
pub const INT_BIT_WIDTH: u8 = 0;

pub const INT_IS_SIGNED: u8 = 1;

/// `Decimal`.
pub const DECIMAL_PRECISION: u8 = 0;

pub const DECIMAL_SCALE: u8 = 1;

pub const DECIMAL_BIT_WIDTH: u8 = 2;

/// The unit of `Date`, `Time`, `Timestamp`, `Interval` and `Duration`.
pub const UNIT: u8 = 0;

/// `Time`.
pub const TIME_BIT_WIDTH: u8 = 1;

/// `Timestamp`.
pub const TIMESTAMP_TIMEZONE: u8 = 1;

/// How many bytes or items a value of `FixedSizeBinary` or `FixedSizeList` has.
pub const FIXED_SIZE: u8 = 0;

/// `Map`.
pub const MAP_KEYS_SORTED: u8 = 0;

/// `Union`.
pub const UNION_MODE: u8 = 0;

pub const UNION_TYPE_IDS: u8 = 1;
