//! The schema that the jobs read and write.
use columnar_memory_types::{DataType, Field, Items, Metadata, Result, Schema, Text};
use ipc_format::{IpcField, default_ipc_fields, schema_to_bytes};
use std::alloc::Global;

/// How deep the fields stand.
const LEVELS: usize = 3;

/// A schema, the ids of its dictionaries, and its metadata.
#[derive(Drop)]
pub(crate) struct Data {
    pub schema: Schema,
    pub ids: Vec<IpcField>,
    pub bytes: Vec<u8>,
}

impl Data {
    /// A schema of so many fields, rounded up to a multiple of three.
    pub(crate) fn of(alloc: Global, fields: usize) -> Result<Data> {
        let mut columns = Items::new(alloc);
        for _ in 0..fields.div_ceil(LEVELS) {
            columns.push(column(alloc)?)?;
        }
        let schema = Schema::from_fields(columns);
        let ids = default_ipc_fields(alloc, schema.fields.as_slice())?;
        let bytes = schema_to_bytes(alloc, &schema, &ids)?;
        Ok(Data { schema, ids, bytes })
    }
}

/// A field with a pair of metadata.
fn field(alloc: Global, name: &str, data_type: DataType) -> Result<Field> {
    let mut pairs = Metadata::new(alloc);
    pairs.insert(
        Text::from_str(alloc, "unit")?,
        Text::from_str(alloc, "metre")?,
    )?;
    let field = Field::new(alloc, Text::from_str(alloc, name)?, data_type, true);
    Ok(field.with_metadata(pairs))
}

/// A struct of one field.
fn struct_of(alloc: Global, field: Field) -> Result<DataType> {
    let mut fields = Items::new(alloc);
    fields.push(field)?;
    Ok(DataType::Struct(fields))
}

/// Three fields, one in another.
fn column(alloc: Global) -> Result<Field> {
    let inner = field(alloc, "length", DataType::Int32)?;
    let middle = field(alloc, "part", struct_of(alloc, inner)?)?;
    field(alloc, "piece", struct_of(alloc, middle)?)
}
