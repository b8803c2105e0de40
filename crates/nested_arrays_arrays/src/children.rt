//! What the children of structs and unions have to be.
ghost use Rattle.std.specs.Prelude.{◌≡◌, true};
ghost use Rattle.nested_arrays_parts.specs.columns.SoundColumns.{are_sound, has_field_types, have_len, have_types};
ghost use Rattle.nested_arrays_parts.specs.columns.StoredColumns.{in_columns, type_layer};

use crate::any::AnyArray;
use nested_arrays_parts::columnar_memory::{DataType, Field};

/// Whether arrays have the types of fields, one each.
pub(crate) fn have_types(fields: &[Field], arrays: &[AnyArray]) -> bool
    ensures { result ≡ have_types fields.now (in_columns arrays.now) }
{
    match (fields.split_first(), arrays.split_first()) {
        (None, None) => true,
        (Some((field, fields)), Some((array, arrays))) => field.data_type == *array.data_type()
            && have_types(fields, arrays),
        _ => false,
    }
}

/// Whether arrays are the children of a struct of a data type.
pub(crate) fn are_fields_of(data_type: &DataType, arrays: &[AnyArray]) -> bool
    ensures { result ≡ has_field_types (type_layer data_type.now) (in_columns arrays.now) }
{
    match data_type.to_logical_type() {
        DataType::Struct(fields) => !fields.is_empty() && have_types(fields.as_slice(), arrays),
        _ => false,
    }
}

/// Whether each array has so many slots.
pub(crate) fn have_len(arrays: &[AnyArray], length: usize) -> bool
    ensures { result ≡ have_len (in_columns arrays.now) length }
{
    match arrays.split_first() {
        None => true,
        Some((array, arrays)) => array.len() == length && have_len(arrays, length),
    }
}

/// Hands to a proof that each array is sound at every depth.
pub(crate) fn are_whole(arrays: &[AnyArray])
    ensures { are_sound (in_columns arrays.now) ≡ true }
{
    match arrays.split_first() {
        None => {}
        Some((array, arrays)) => {
            array.whole();
            are_whole(arrays);
        }
    }
}
