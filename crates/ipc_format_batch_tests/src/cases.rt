//! Columns, batches and schemas that the tests write.
use ipc_format::columnar_memory::{
    Bitmap, Boxed, DataType, Error, Field, IntegerType, Items, Schema, Text,
};
use ipc_format::nested_arrays_core::flat_arrays::{PrimitiveArray, Utf8Array};
use ipc_format::nested_arrays_core::{AnyArray, AnyPrimitive, DictionaryArray, FlatArray, ToBoxed};
use ipc_format::{Chunk, IpcField};
use std::alloc::Global;

/// The number 7 and a null.
pub(crate) fn numbers(alloc: Global) -> Result<AnyArray, Error> {
    let mut array: PrimitiveArray<i32> = PrimitiveArray::from_slice(alloc, &[7, 0])?;
    array.set_validity(Some(Bitmap::from_u8_slice(alloc, &[0b01], 2)?));
    Ok(AnyArray::from(FlatArray::from(AnyPrimitive::from_array(array))))
}

/// The numbers 1, 2 and 3.
pub(crate) fn other_numbers(alloc: Global) -> Result<AnyArray, Error> {
    let array: PrimitiveArray<i32> = PrimitiveArray::from_slice(alloc, &[1, 2, 3])?;
    Ok(AnyArray::from(FlatArray::from(AnyPrimitive::from_array(array))))
}

/// Keys of eight bits into texts.
fn keyed_texts(alloc: Global) -> Result<DataType, Error> {
    Ok(DataType::Dictionary(IntegerType::Int8, Boxed::new(alloc, DataType::Utf8)?, false))
}

/// Keys into some texts.
pub(crate) fn texts_by_key(
    alloc: Global,
    texts: &[&'static str],
    keys: &[i8],
) -> Result<AnyArray, Error> {
    let values: Utf8Array<i32> = Utf8Array::from_slice(alloc, texts)?;
    let values = Box::new(alloc, AnyArray::from(FlatArray::from(values)))?;
    let keys = PrimitiveArray::from_slice(alloc, keys)?;
    Ok(DictionaryArray::try_new(keyed_texts(alloc)?, keys, values)?.into_any())
}

/// The keys 0, 1 and 0 into two texts.
pub(crate) fn letters(alloc: Global, texts: &[&'static str]) -> Result<AnyArray, Error> {
    texts_by_key(alloc, texts, &[0, 1, 0])
}

/// The ids at a column whose dictionary has this one, if it has a dictionary.
pub(crate) fn id(alloc: Global, dictionary_id: Option<i64>) -> IpcField {
    IpcField {
        fields: Items::new(alloc),
        dictionary_id,
    }
}

/// A batch of one column.
pub(crate) fn of_one(alloc: Global, array: AnyArray) -> Result<Chunk<AnyArray>, Error> {
    let mut arrays = Vec::new(alloc);
    arrays.push(array)?;
    Chunk::try_new(arrays)
}

/// A batch of two columns.
pub(crate) fn of_two(
    alloc: Global,
    first: AnyArray,
    second: AnyArray,
) -> Result<Chunk<AnyArray>, Error> {
    let mut arrays = Vec::new(alloc);
    arrays.push(first)?;
    arrays.push(second)?;
    Chunk::try_new(arrays)
}

/// A field of a type, and nulls.
fn field(alloc: Global, name: &str, data_type: DataType) -> Result<Field, Error> {
    Ok(Field::new(alloc, Text::from_str(alloc, name)?, data_type, true))
}

/// The schema of x, 32-bit numbers and nulls.
pub(crate) fn numbers_schema(alloc: Global) -> Result<Schema, Error> {
    let mut fields = Items::new(alloc);
    fields.push(field(alloc, "x", DataType::Int32)?)?;
    Ok(Schema::from_fields(fields))
}

/// The schema of x, texts by key.
pub(crate) fn letters_schema(alloc: Global) -> Result<Schema, Error> {
    let mut fields = Items::new(alloc);
    fields.push(field(alloc, "x", keyed_texts(alloc)?)?)?;
    Ok(Schema::from_fields(fields))
}

/// The schema of x, 32-bit numbers, and y, texts by key, and nulls of both.
pub(crate) fn mixed_schema(alloc: Global) -> Result<Schema, Error> {
    let mut fields = Items::new(alloc);
    fields.push(field(alloc, "x", DataType::Int32)?)?;
    fields.push(field(alloc, "y", keyed_texts(alloc)?)?)?;
    Ok(Schema::from_fields(fields))
}

/// The schema of x and y, texts by key.
pub(crate) fn pairs_schema(alloc: Global) -> Result<Schema, Error> {
    let mut fields = Items::new(alloc);
    fields.push(field(alloc, "x", keyed_texts(alloc)?)?)?;
    fields.push(field(alloc, "y", keyed_texts(alloc)?)?)?;
    Ok(Schema::from_fields(fields))
}
