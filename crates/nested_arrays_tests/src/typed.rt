ghost use Rattle.std.specs.Prelude.{◌≡◌, MatchResult};
ghost use Rattle.flat_arrays_bytes.specs.ByteStrings.{len_of};
ghost use Rattle.nested_arrays_nulls.specs.columns.StoredColumns.{column_len};
ghost use Rattle.nested_arrays_nulls.specs.generic.Dictionaries.{values_of};
ghost use Rattle.nested_arrays_nulls.specs.iterators.NamedValues.{AreNamed};

use crate::cases::numbers;
use nested_arrays_nulls::arrays::AnyArray;
use nested_arrays_nulls::columnar_memory::{Bitmap, Buffer, DataType, Error};
use nested_arrays_nulls::flat_arrays::{ArrayAccessor, PrimitiveArray, Utf8Array};
use nested_arrays_nulls::generic::DictionaryArray;
use nested_arrays_nulls::iterators::{DictValue, TypedDictionaryValues, keys_name_values};
use nested_arrays_nulls::parts::FlatArray;
use std::alloc::Global;
use std::test::Fail;

/// Keys over some values, the last of which is null.
fn keyed(alloc: Global, keys: &[i8], values: AnyArray) -> Result<DictionaryArray<i8>, Error> {
    let keys = Buffer::from_vec(Vec::from_slice(alloc, keys)?)?;
    let mask = Bitmap::from_u8_slice(alloc, &[0b0111], 4)?;
    let keys = PrimitiveArray::try_new(DataType::Int8, keys, Some(mask))?;
    DictionaryArray::try_from_keys(alloc, keys, Box::new(alloc, values)?)
}

/// Texts by keys, the last of which is null.
fn letters(alloc: Global) -> Result<DictionaryArray<i8>, Error> {
    let texts: Utf8Array<i32> = Utf8Array::from_slice(alloc, &["a", "bc"])?;
    keyed(alloc, &[1, 0, 1, 0], AnyArray::from(FlatArray::from(texts)))
}

/// The values of a dictionary as texts.
fn texts_of(array: &DictionaryArray<i8>) -> Result<&Utf8Array<i32>, Error>
    ensures { MatchResult result (λ texts. len_of texts.now ≡ column_len (values_of array.now)) (λ _. Unit {0}) }
{
    <&Utf8Array<i32>>::downcast_values(array.values())
}

/// The first and the last value that keys name.
fn ends_of_values<V: ArrayAccessor + Drop>(
    array: &DictionaryArray<i8>,
    values: V,
) -> (Option<V::Item>, Option<V::Item>)
    requires named { AreNamed array.now }
    requires counted { V.count values ≡ column_len (values_of array.now) }
{
    let mut walk = array.values_iter_typed(values);
    (walk.next(), walk.next_back())
}

/// The first and the last slot.
fn ends_of_slots<V: ArrayAccessor + Drop>(
    array: &DictionaryArray<i8>,
    values: V,
) -> (Option<Option<V::Item>>, Option<Option<V::Item>>)
    requires { V.count values ≡ column_len (values_of array.now) }
{
    let mut walk = array.iter_typed(values);
    (walk.next(), walk.next_back())
}

/// The first and the last text that keys name.
fn value_ends<'a>(
    array: &'a DictionaryArray<i8>,
    texts: &'a Utf8Array<i32>,
) -> (Option<&'a str>, Option<&'a str>)
    requires named { AreNamed array.now }
    requires counted { len_of texts.now ≡ column_len (values_of array.now) }
{
    ends_of_values(array, texts)
}

/// The first and the last slot as texts.
fn slot_ends<'a>(
    array: &'a DictionaryArray<i8>,
    texts: &'a Utf8Array<i32>,
) -> (Option<Option<&'a str>>, Option<Option<&'a str>>)
    requires { len_of texts.now ≡ column_len (values_of array.now) }
{
    ends_of_slots(array, texts)
}

#[test]
fn values_are_texts_under_nulls_too(rt: HostRuntime) -> Result<(), Fail> {
    let array = letters(rt.alloc())?;
    assert!(rt; keys_name_values(&array));
    match texts_of(&array) {
        Ok(texts) => assert_eq!(rt; value_ends(&array, texts), (Some("bc"), Some("a"))),
        Err(_) => assert!(rt; false),
    }
    drop(array);
    Ok(())
}

#[test]
fn slots_are_texts_or_none(rt: HostRuntime) -> Result<(), Fail> {
    let array = letters(rt.alloc())?;
    match texts_of(&array) {
        Ok(texts) => assert_eq!(rt; slot_ends(&array, texts), (Some(Some("bc")), Some(None))),
        Err(_) => assert!(rt; false),
    }
    drop(array);
    Ok(())
}

#[test]
fn numbers_are_no_texts(rt: HostRuntime) -> Result<(), Fail> {
    let array = keyed(rt.alloc(), &[1, 0, 0, 1], numbers(rt.alloc(), &[5, 7])?)?;
    assert!(rt; matches!(texts_of(&array), Err(Error::InvalidArgumentError(_))));
    drop(array);
    Ok(())
}

#[test]
fn texts_with_a_null_are_refused(rt: HostRuntime) -> Result<(), Fail> {
    let texts: Utf8Array<i32> = Utf8Array::from(rt.alloc(), &[Some("a"), None])?;
    let values = AnyArray::from(FlatArray::from(texts));
    let array = keyed(rt.alloc(), &[1, 0, 0, 1], values)?;
    assert!(rt; matches!(texts_of(&array), Err(Error::InvalidArgumentError(_))));
    drop(array);
    Ok(())
}
