//! The members of unions, each by its tag.

/// The kinds of types (Schema.fbs, union `Type`).
pub const TYPE_NULL: u8 = 1;

pub const TYPE_INT: u8 = 2;

pub const TYPE_FLOATING_POINT: u8 = 3;

pub const TYPE_BINARY: u8 = 4;

pub const TYPE_UTF8: u8 = 5;

pub const TYPE_BOOL: u8 = 6;

pub const TYPE_DECIMAL: u8 = 7;

pub const TYPE_DATE: u8 = 8;

pub const TYPE_TIME: u8 = 9;

pub const TYPE_TIMESTAMP: u8 = 10;

pub const TYPE_INTERVAL: u8 = 11;

pub const TYPE_LIST: u8 = 12;

pub const TYPE_STRUCT: u8 = 13;

pub const TYPE_UNION: u8 = 14;

pub const TYPE_FIXED_SIZE_BINARY: u8 = 15;

pub const TYPE_FIXED_SIZE_LIST: u8 = 16;

pub const TYPE_MAP: u8 = 17;

pub const TYPE_DURATION: u8 = 18;

pub const TYPE_LARGE_BINARY: u8 = 19;

pub const TYPE_LARGE_UTF8: u8 = 20;

pub const TYPE_LARGE_LIST: u8 = 21;

/// The kinds of a message's header (Message.fbs, union `MessageHeader`).
pub const SCHEMA_HEADER: u8 = 1;

pub const DICTIONARY_BATCH_HEADER: u8 = 2;

pub const RECORD_BATCH_HEADER: u8 = 3;
