use nested_arrays_nulls::arrays::{AnyArray, UnionArray};
use nested_arrays_nulls::columnar_memory::{
    Bitmap, Boxed, Buffer, DataType, Error, Field, Items, OffsetsBuffer, Text, UnionMode,
};
use nested_arrays_nulls::flat::AnyPrimitive;
use nested_arrays_nulls::flat_arrays::{PrimitiveArray, Utf8Array};
use nested_arrays_nulls::generic::{DictionaryArray, ListArray};
use nested_arrays_nulls::parts::FlatArray;
use std::alloc::Global;

pub(crate) fn numbers(alloc: Global, values: &[i32]) -> Result<AnyArray, Error> {
    let array = AnyPrimitive::from_array(PrimitiveArray::from_slice(alloc, values)?);
    Ok(AnyArray::from(FlatArray::from(array)))
}

fn union_of_numbers(alloc: Global, mode: UnionMode) -> Result<DataType, Error> {
    let mut fields = Items::new(alloc);
    let name = Text::from_str(alloc, "number")?;
    fields.push(Field::new(alloc, name, DataType::Int32, true))?;
    Ok(DataType::Union(fields, None, mode))
}

fn children(alloc: Global, values: &[i32]) -> Result<Vec<AnyArray>, Error> {
    let mut children = Vec::new(alloc);
    children.push(numbers(alloc, values)?)?;
    Ok(children)
}

pub(crate) fn dense(alloc: Global, places: &[i32], values: &[i32]) -> Result<UnionArray, Error> {
    let data_type = union_of_numbers(alloc, UnionMode::Dense)?;
    let types = Buffer::from_vec(Vec::from_slice(alloc, &[0i8, 0])?)?;
    let offsets = Buffer::from_vec(Vec::from_slice(alloc, places)?)?;
    UnionArray::try_new(data_type, types, children(alloc, values)?, Some(offsets))
}

pub(crate) fn sparse(alloc: Global, values: &[i32]) -> Result<UnionArray, Error> {
    let data_type = union_of_numbers(alloc, UnionMode::Sparse)?;
    let types = Buffer::from_vec(Vec::from_slice(alloc, &[0i8, 0])?)?;
    UnionArray::try_new(data_type, types, children(alloc, values)?, None)
}

/// Lists of numbers.
pub(crate) fn list_type(alloc: Global) -> Result<DataType, Error> {
    let item = Field::new(alloc, Text::from_str(alloc, "item")?, DataType::Int32, true);
    Ok(DataType::List(Boxed::new(alloc, item)?))
}

/// Lists of the numbers 1, 2 and 3 between offsets.
pub(crate) fn lists(alloc: Global, offsets: &[i32]) -> Result<ListArray<i32>, Error> {
    let offsets = OffsetsBuffer::try_from(Vec::from_slice(alloc, offsets)?)?;
    let items = Box::new(alloc, numbers(alloc, &[1, 2, 3])?)?;
    ListArray::try_new(list_type(alloc)?, offsets, items, None)
}

/// Keys over two texts.
pub(crate) fn letters(
    alloc: Global,
    keys: &[i8],
    validity: Option<Bitmap>,
) -> Result<DictionaryArray<i8>, Error> {
    let texts: Utf8Array<i32> = Utf8Array::from_slice(alloc, &["a", "b"])?;
    let values = Box::new(alloc, AnyArray::from(FlatArray::from(texts)))?;
    let keys = Buffer::from_vec(Vec::from_slice(alloc, keys)?)?;
    let keys = PrimitiveArray::try_new(DataType::Int8, keys, validity)?;
    DictionaryArray::try_from_keys(alloc, keys, values)
}
