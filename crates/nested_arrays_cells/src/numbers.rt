//! Numbers of arrays as cells.
ghost use Rattle.std.specs.Prelude.{◌≡◌, ◌<◌, true};
ghost use Rattle.nested_arrays_builder_arrays.specs.arrays.columnar_memory.Numbers.{first_number};
ghost use Rattle.nested_arrays_builder_arrays.specs.arrays.columns.StoredColumns.{column_len, place_of, slot_at};
ghost use Rattle.nested_arrays_builder_arrays.specs.arrays.flat.FlatColumns.{primitive_column};
ghost use Rattle.nested_arrays_builder_arrays.specs.arrays.parts.Forms.{bare};
ghost use Rattle.nested_arrays_builder_arrays.specs.arrays.parts.Ranges.{number_slot};
ghost use Rattle.nested_arrays_builder_arrays.specs.parts.AnyNumbers.{kind_of_number, numbers_of_number, slot_of_number};
ghost use Rattle.nested_arrays_builder_arrays.specs.parts.Scalars.{scalar_slot};
ghost use Rattle.nested_arrays_cells.specs.Keys.{is_key_kind};

use nested_arrays_builder_arrays::arrays::columnar_memory::{Index, NativeType};
use nested_arrays_builder_arrays::arrays::flat::{AnyPrimitive, PrimitiveNode};
use nested_arrays_builder_arrays::arrays::flat_arrays::PrimitiveArray;
use nested_arrays_builder_arrays::parts::AnyNumber;
use nested_arrays_scalars::AnyScalar;

/// The number that is stored at a place, also where the slot is null.
fn value_at<T: NativeType>(array: &PrimitiveArray<T>, i: usize) -> T
    requires { i < column_len (primitive_column T.PRIMITIVE T.numbers array.now) }
    ensures { slot_at (bare (primitive_column T.PRIMITIVE T.numbers array.now)) i ≡ number_slot T.PRIMITIVE (T.numbers result) }
{
    array.value(i)
}

/// The same of an array of numbers of any kind.
// match table: an arm for each kind.
pub(crate) fn number_at(array: &AnyPrimitive, i: usize) -> AnyNumber
    requires { i < column_len array.now }
    ensures { slot_of_number result ≡ slot_at (bare array.now) i }
{
    match &array.node {
        PrimitiveNode::Int8(array) => AnyNumber::Int8(value_at(array, i)),
        PrimitiveNode::Int16(array) => AnyNumber::Int16(value_at(array, i)),
        PrimitiveNode::Int32(array) => AnyNumber::Int32(value_at(array, i)),
        PrimitiveNode::Int64(array) => AnyNumber::Int64(value_at(array, i)),
        PrimitiveNode::Int128(array) => AnyNumber::Int128(value_at(array, i)),
        PrimitiveNode::Int256(array) => AnyNumber::Int256(value_at(array, i)),
        PrimitiveNode::UInt8(array) => AnyNumber::UInt8(value_at(array, i)),
        PrimitiveNode::UInt16(array) => AnyNumber::UInt16(value_at(array, i)),
        PrimitiveNode::UInt32(array) => AnyNumber::UInt32(value_at(array, i)),
        PrimitiveNode::UInt64(array) => AnyNumber::UInt64(value_at(array, i)),
        PrimitiveNode::DaysMs(array) => AnyNumber::DaysMs(value_at(array, i)),
        PrimitiveNode::MonthsDaysNs(array) => AnyNumber::MonthsDaysNs(value_at(array, i)),
    }
}

/// The cell of a number.
// match table: an arm for each kind.
pub(crate) fn number_cell(number: AnyNumber) -> AnyScalar
    ensures { scalar_slot result ≡ slot_of_number number }
{
    match number {
        AnyNumber::Int8(value) => AnyScalar::Int8(value),
        AnyNumber::Int16(value) => AnyScalar::Int16(value),
        AnyNumber::Int32(value) => AnyScalar::Int32(value),
        AnyNumber::Int64(value) => AnyScalar::Int64(value),
        AnyNumber::Int128(value) => AnyScalar::Int128(value),
        AnyNumber::Int256(value) => AnyScalar::Int256(value),
        AnyNumber::UInt8(value) => AnyScalar::UInt8(value),
        AnyNumber::UInt16(value) => AnyScalar::UInt16(value),
        AnyNumber::UInt32(value) => AnyScalar::UInt32(value),
        AnyNumber::UInt64(value) => AnyScalar::UInt64(value),
        AnyNumber::DaysMs(value) => AnyScalar::DaysMs(value),
        AnyNumber::MonthsDaysNs(value) => AnyScalar::MonthsDaysNs(value),
    }
}

/// The place that a key names, and the first one where it is negative.
fn place<K: Index>(key: K) -> usize
    ensures { result ≡ place_of (K.value key) }
{
    match key.try_to_usize() {
        Some(place) => place,
        None => 0,
    }
}

/// The place that a number names which is a key.
// match table: an arm for each kind.
pub(crate) fn place_named(number: AnyNumber) -> usize
    requires { is_key_kind (kind_of_number number) ≡ true }
    ensures { result ≡ place_of (first_number (numbers_of_number number)) }
{
    match number {
        AnyNumber::Int8(key) => place(key),
        AnyNumber::Int16(key) => place(key),
        AnyNumber::Int32(key) => place(key),
        AnyNumber::Int64(key) => place(key),
        AnyNumber::Int128(_) => 0,
        AnyNumber::Int256(_) => 0,
        AnyNumber::UInt8(key) => place(key),
        AnyNumber::UInt16(key) => place(key),
        AnyNumber::UInt32(key) => place(key),
        AnyNumber::UInt64(key) => place(key),
        AnyNumber::DaysMs(_) => 0,
        AnyNumber::MonthsDaysNs(_) => 0,
    }
}
