use nested_arrays_nulls::arrays::AnyArray;
use nested_arrays_nulls::columnar_memory::{Bitmap, Boxed, Buffer, DataType, Error, IntegerType};
use nested_arrays_nulls::flat_arrays::{PrimitiveArray, Utf8Array};
use nested_arrays_nulls::generic::DictionaryArray;
use nested_arrays_nulls::parts::FlatArray;
use std::alloc::Global;
use std::test::Fail;

/// Two texts, a and b.
fn letters(alloc: Global) -> Result<Box<AnyArray>, Error> {
    let texts: Utf8Array<i32> = Utf8Array::from_slice(alloc, &["a", "b"])?;
    Ok(Box::new(alloc, AnyArray::from(FlatArray::from(texts)))?)
}

fn keys(alloc: Global, keys: &[i8], validity: Option<Bitmap>) -> Result<PrimitiveArray<i8>, Error> {
    let keys = Buffer::from_vec(Vec::from_slice(alloc, keys)?)?;
    PrimitiveArray::try_new(DataType::Int8, keys, validity)
}

fn data_type(alloc: Global) -> Result<DataType, Error> {
    Ok(DataType::Dictionary(IntegerType::Int8, Boxed::new(alloc, DataType::Utf8)?, false))
}

fn dictionary(alloc: Global, keys: PrimitiveArray<i8>) -> Result<DictionaryArray<i8>, Error> {
    DictionaryArray::try_new(data_type(alloc)?, keys, letters(alloc)?)
}

#[test]
fn a_key_under_a_null_names_nothing(rt: HostRuntime) -> Result<(), Fail> {
    let mask = Bitmap::from_u8_slice(rt.alloc(), &[1], 2)?;
    let keys = keys(rt.alloc(), &[0, 9], Some(mask))?;
    let array = dictionary(rt.alloc(), keys)?;
    assert_eq!(rt; (array.len(), array.null_count()), (2, 1));
    assert_eq!(rt; array.key(0), Some(0));
    assert_eq!(rt; array.key(1), None);
    drop(array);
    Ok(())
}

#[test]
fn a_key_past_the_values_is_refused(rt: HostRuntime) -> Result<(), Fail> {
    let keys = keys(rt.alloc(), &[2], None)?;
    let array = dictionary(rt.alloc(), keys);
    assert!(rt; matches!(array, Err(Error::OutOfSpec(_))));
    drop(array);
    Ok(())
}

fn dictionary_of(alloc: Global, keys: PrimitiveArray<i8>) -> Result<DictionaryArray<i8>, Error> {
    DictionaryArray::try_from_keys(alloc, keys, letters(alloc)?)
}

#[test]
fn keys_and_values_make_a_dictionary(rt: HostRuntime) -> Result<(), Fail> {
    let keys = keys(rt.alloc(), &[1, 0], None)?;
    let array = dictionary_of(rt.alloc(), keys)?;
    assert_eq!(rt; array.len(), 2);
    let cut = array.sliced(1, 1);
    assert_eq!(rt; cut.len(), 1);
    assert_eq!(rt; cut.key(0), Some(0));
    drop(cut);
    Ok(())
}
