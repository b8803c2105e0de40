use nested_arrays_nulls::access::Array;
use nested_arrays_nulls::arrays::{FixedSizeListArray, MapArray, StructArray, UnionArray};
use nested_arrays_nulls::columnar_memory::{
    Boxed, DataType, Error, Field, IntegerType, Items, Text, UnionMode,
};
use nested_arrays_nulls::generic::{DictionaryArray, ListArray};
use nested_arrays_nulls::{NullArrays, new_empty_array, new_null_array};
use std::alloc::Global;
use std::test::Fail;

/// Fields of numbers of these names.
fn numbers(alloc: Global, names: &[&str]) -> Result<Items<Field>, Error> {
    let mut fields = Items::new(alloc);
    for name in names {
        let name = Text::from_str(alloc, *name)?;
        fields.push(Field::new(alloc, name, DataType::Int32, true))?;
    }
    Ok(fields)
}

/// A struct of lists of numbers.
fn records(alloc: Global) -> Result<DataType, Error> {
    let name = Text::from_str(alloc, "numbers")?;
    let lists = ListArray::<i32>::default_datatype(alloc, DataType::Int32)?;
    let mut fields = Items::new(alloc);
    fields.push(Field::new(alloc, name, lists, true))?;
    Ok(DataType::Struct(fields))
}

#[test]
fn each_slot_of_a_struct_is_null(rt: HostRuntime) -> Result<(), Fail> {
    let data_type = records(rt.alloc())?;
    let array = new_null_array(rt.alloc(), data_type, 3)?;
    assert_eq!(rt; array.len(), 3);
    assert_eq!(rt; array.null_count(), 3);
    drop(array);
    Ok(())
}

#[test]
fn keys_of_nulls_are_null(rt: HostRuntime) -> Result<(), Fail> {
    let texts = Boxed::new(rt.alloc(), DataType::Utf8)?;
    let data_type = DataType::Dictionary(IntegerType::Int8, texts, false);
    let array = new_null_array(rt.alloc(), data_type, 2)?;
    assert_eq!(rt; array.null_count(), 2);
    drop(array);
    Ok(())
}

#[test]
fn an_empty_array_has_no_slot(rt: HostRuntime) -> Result<(), Fail> {
    let data_type = records(rt.alloc())?;
    let array = new_empty_array(rt.alloc(), data_type)?;
    assert_eq!(rt; array.len(), 0);
    drop(array);
    Ok(())
}

#[test]
fn floats_have_no_nulls(rt: HostRuntime) -> Result<(), Fail> {
    let outcome = new_null_array(rt.alloc(), DataType::Float32, 1);
    assert!(rt; matches!(outcome, Err(Error::OutOfSpec(_))));
    drop(outcome);
    Ok(())
}

#[test]
fn structs_of_nulls_are_structs(rt: HostRuntime) -> Result<(), Fail> {
    let data_type = records(rt.alloc())?;
    let array = StructArray::new_null(rt.alloc(), data_type, 2)?;
    assert_eq!(rt; array.len(), 2);
    drop(array);
    Ok(())
}

#[test]
fn lists_without_slots_are_lists(rt: HostRuntime) -> Result<(), Fail> {
    let data_type = ListArray::<i64>::default_datatype(rt.alloc(), DataType::Int32)?;
    let array = ListArray::<i64>::new_empty(rt.alloc(), data_type)?;
    assert_eq!(rt; array.len(), 0);
    drop(array);
    Ok(())
}

#[test]
fn lists_of_nulls_have_one_width(rt: HostRuntime) -> Result<(), Fail> {
    let data_type = ListArray::<i64>::default_datatype(rt.alloc(), DataType::Int32)?;
    let outcome = ListArray::<i32>::new_null(rt.alloc(), data_type, 2);
    assert!(rt; matches!(outcome, Err(Error::OutOfSpec(_))));
    drop(outcome);
    Ok(())
}

#[test]
fn lists_of_one_size_are_of_nulls(rt: HostRuntime) -> Result<(), Fail> {
    let data_type = FixedSizeListArray::default_datatype(rt.alloc(), DataType::Int32, 3)?;
    let array = FixedSizeListArray::new_null(rt.alloc(), data_type, 2)?;
    assert_eq!(rt; array.len(), 2);
    drop(array);
    Ok(())
}

#[test]
fn keys_of_one_type_are_of_nulls(rt: HostRuntime) -> Result<(), Fail> {
    let texts = Boxed::new(rt.alloc(), DataType::Utf8)?;
    let data_type = DataType::Dictionary(IntegerType::Int8, texts, false);
    let array = DictionaryArray::<i8>::new_null(rt.alloc(), data_type, 2)?;
    assert_eq!(rt; array.null_count(), 2);
    drop(array);
    Ok(())
}

#[test]
fn unions_of_nulls_are_unions(rt: HostRuntime) -> Result<(), Fail> {
    let fields = numbers(rt.alloc(), &["a"])?;
    let data_type = DataType::Union(fields, None, UnionMode::Dense);
    let array = UnionArray::new_null(rt.alloc(), data_type, 2)?;
    assert_eq!(rt; array.len(), 2);
    drop(array);
    Ok(())
}

#[test]
fn maps_of_nulls_are_maps(rt: HostRuntime) -> Result<(), Fail> {
    let name = Text::from_str(rt.alloc(), "entries")?;
    let pairs = DataType::Struct(numbers(rt.alloc(), &["key", "value"])?);
    let entry = Field::new(rt.alloc(), name, pairs, false);
    let data_type = DataType::Map(Boxed::new(rt.alloc(), entry)?, false);
    let array = MapArray::new_null(rt.alloc(), data_type, 2)?;
    assert_eq!(rt; array.null_count(), 2);
    drop(array);
    Ok(())
}

#[test]
fn nulls_of_a_union_are_of_its_first_child(rt: HostRuntime) -> Result<(), Fail> {
    let fields = numbers(rt.alloc(), &["a", "b"])?;
    let mut ids = Items::new(rt.alloc());
    ids.push(5)?;
    ids.push(3)?;
    let data_type = DataType::Union(fields, Some(ids), UnionMode::Sparse);
    let array = UnionArray::new_null(rt.alloc(), data_type, 2)?;
    assert_eq!(rt; array.len(), 2);
    drop(array);
    Ok(())
}

#[test]
fn an_id_that_is_too_great_has_no_nulls(rt: HostRuntime) -> Result<(), Fail> {
    let fields = numbers(rt.alloc(), &["a"])?;
    let mut ids = Items::new(rt.alloc());
    ids.push(300)?;
    let data_type = DataType::Union(fields, Some(ids), UnionMode::Sparse);
    let outcome = UnionArray::new_null(rt.alloc(), data_type, 2);
    assert!(rt; matches!(outcome, Err(Error::OutOfSpec(_))));
    drop(outcome);
    Ok(())
}
