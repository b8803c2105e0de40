//! Values of a type without children that grow, one for each slot: zeros or no bytes under a null.
ghost use Rattle.std.specs.Prelude.{◌≡◌, ◌⊎◌, ◌*◌, ◌≤◌, [], ◌∷◌, ◌++◌, length, replicate, map, take, MatchResult, IfErr, true, false};
ghost use Rattle.nested_arrays_core.specs.arrays.columnar_memory.Error.{IsInvalidArgument, IsNotYetImplemented, IsOutOfMemory};
ghost use Rattle.nested_arrays_core.specs.arrays.columnar_memory.Layouts.{physical_type};
ghost use Rattle.nested_arrays_core.specs.arrays.columns.Slots as slot;
ghost use Rattle.nested_arrays_builder_parts.specs.Growing.{first_values, is_nothing, nothing, sized, strings, truths, whole, HoldsFirst, TakesValue, values_of};
ghost use Rattle.nested_arrays_builder_parts.specs.KeptValues.{IsTyped};
ghost use Rattle.nested_arrays_builder_parts.specs.Scalars.{scalar_slot};

use crate::cells::{bytes_in, is_null, number_in, text_in, truth_in};
use crate::marks::truncate_bits;
use crate::numbers::NumberKind;
use crate::parts::{CellPart, part_of};
use crate::strings::Strings;
use nested_arrays_core::arrays::columnar_memory::{
    DataType, Error, MutableBitmap, Offset, PhysicalType, PrimitiveType, Result, days_ms, i256,
    months_days_ns,
};
use nested_arrays_core::arrays::flat::read_bytes;
use nested_arrays_scalars::AnyScalar;
use std::alloc::Global;
use std::marker::Model;

/// Values that grow, by how arrays of them lie in memory. Of nulls alone nothing is stored.
#[derive(Drop)]
pub enum ValuesNode {
    Nulls,
    Truths(MutableBitmap),
    Int8(Vec<i8>),
    Int16(Vec<i16>),
    Int32(Vec<i32>),
    Int64(Vec<i64>),
    Int128(Vec<i128>),
    Int256(Vec<i256>),
    UInt8(Vec<u8>),
    UInt16(Vec<u16>),
    UInt32(Vec<u32>),
    UInt64(Vec<u64>),
    DaysMs(Vec<days_ms>),
    MonthsDaysNs(Vec<months_days_ns>),
    Binary(Strings<i32>),
    LargeBinary(Strings<i64>),
    FixedSizeBinary(usize, Vec<u8>),
    Utf8(Strings<i32>),
    LargeUtf8(Strings<i64>),
}

/// The values of slots that are pushed, which a contract sees by their kind (`Growing`).
///
/// A call that is refused changes nothing.
#[derive(Drop)]
pub struct Values {
    pub node: ValuesNode,
}

impl Model for Values {
    ghost use Rattle.nested_arrays_builder_parts.specs.Growing.{Growing};
    ghost use Rattle.nested_arrays_builder_parts.specs.GrowingNodes.{growing_of};

    ghost Value = { Growing };

    ghost view = { λ it. growing_of it.node };
}

impl Values {
    /// Whether nothing is stored, as of nulls alone.
    #[tactic(auto, using(crate::proofs::GrownMasks::something))]
    pub fn are_nulls(&self) -> bool
        ensures { result ≡ is_nothing self.now }
    {
        matches!(self.node, ValuesNode::Nulls)
    }

    /// Adds the value of a cell behind the others.
    ///
    /// # Errors
    /// `InvalidArgumentError`: the cell is of another type or size.
    /// `Overflow`: its bytes would end past the greatest offset.
    /// `OutOfMemory`: it found no memory.
    // match table: an arm for each kind of values.
    pub fn push(&mut self, cell: &AnyScalar) -> Result<()>
        ensures { TakesValue self.old (scalar_slot cell.now) self.new result }
    {
        match &mut self.node {
            ValuesNode::Nulls => push_nothing(cell),
            ValuesNode::Truths(bits) => push_truth(bits, cell),
            ValuesNode::Int8(values) => push_number(values, cell),
            ValuesNode::Int16(values) => push_number(values, cell),
            ValuesNode::Int32(values) => push_number(values, cell),
            ValuesNode::Int64(values) => push_number(values, cell),
            ValuesNode::Int128(values) => push_number(values, cell),
            ValuesNode::Int256(values) => push_number(values, cell),
            ValuesNode::UInt8(values) => push_number(values, cell),
            ValuesNode::UInt16(values) => push_number(values, cell),
            ValuesNode::UInt32(values) => push_number(values, cell),
            ValuesNode::UInt64(values) => push_number(values, cell),
            ValuesNode::DaysMs(values) => push_number(values, cell),
            ValuesNode::MonthsDaysNs(values) => push_number(values, cell),
            ValuesNode::Binary(strings) => push_bytes(strings, cell),
            ValuesNode::LargeBinary(strings) => push_bytes(strings, cell),
            ValuesNode::FixedSizeBinary(size, bytes) => push_sized(*size, bytes, cell),
            ValuesNode::Utf8(strings) => push_text(strings, cell),
            ValuesNode::LargeUtf8(strings) => push_text(strings, cell),
        }
    }

    /// Keeps the values of the first `len` slots alone.
    // match table: an arm for each kind of values.
    pub fn truncate(&mut self, len: usize)
        requires { HoldsFirst self.old len }
        ensures { self.new ≡ first_values self.old len }
    {
        match &mut self.node {
            ValuesNode::Nulls => {}
            ValuesNode::Truths(bits) => truncate_bits(bits, len),
            ValuesNode::Int8(values) => truncate_numbers(values, len),
            ValuesNode::Int16(values) => truncate_numbers(values, len),
            ValuesNode::Int32(values) => truncate_numbers(values, len),
            ValuesNode::Int64(values) => truncate_numbers(values, len),
            ValuesNode::Int128(values) => truncate_numbers(values, len),
            ValuesNode::Int256(values) => truncate_numbers(values, len),
            ValuesNode::UInt8(values) => truncate_numbers(values, len),
            ValuesNode::UInt16(values) => truncate_numbers(values, len),
            ValuesNode::UInt32(values) => truncate_numbers(values, len),
            ValuesNode::UInt64(values) => truncate_numbers(values, len),
            ValuesNode::DaysMs(values) => truncate_numbers(values, len),
            ValuesNode::MonthsDaysNs(values) => truncate_numbers(values, len),
            ValuesNode::Binary(strings) => strings.truncate(len),
            ValuesNode::LargeBinary(strings) => strings.truncate(len),
            ValuesNode::FixedSizeBinary(size, bytes) => truncate_sized(*size, bytes, len),
            ValuesNode::Utf8(strings) => strings.truncate(len),
            ValuesNode::LargeUtf8(strings) => strings.truncate(len),
        }
    }

    /// Makes room for some more values.
    ///
    /// # Errors
    /// `OutOfMemory`: the room found no memory.
    // match table: an arm for each kind of values.
    pub fn reserve(&mut self, additional: usize) -> Result<()>
        ensures same { self.new ≡ self.old }
        ensures error { IfErr result IsOutOfMemory }
    {
        match &mut self.node {
            ValuesNode::Nulls => Ok(()),
            ValuesNode::Truths(bits) => bits.reserve(additional),
            ValuesNode::Int8(values) => reserve_values(values, additional),
            ValuesNode::Int16(values) => reserve_values(values, additional),
            ValuesNode::Int32(values) => reserve_values(values, additional),
            ValuesNode::Int64(values) => reserve_values(values, additional),
            ValuesNode::Int128(values) => reserve_values(values, additional),
            ValuesNode::Int256(values) => reserve_values(values, additional),
            ValuesNode::UInt8(values) => reserve_values(values, additional),
            ValuesNode::UInt16(values) => reserve_values(values, additional),
            ValuesNode::UInt32(values) => reserve_values(values, additional),
            ValuesNode::UInt64(values) => reserve_values(values, additional),
            ValuesNode::DaysMs(values) => reserve_values(values, additional),
            ValuesNode::MonthsDaysNs(values) => reserve_values(values, additional),
            ValuesNode::Binary(strings) => strings.reserve(additional, 0),
            ValuesNode::LargeBinary(strings) => strings.reserve(additional, 0),
            ValuesNode::FixedSizeBinary(size, bytes) => match size.checked_mul(additional) {
                Some(count) => reserve_values(bytes, count),
                None => Err(Error::OutOfMemory),
            },
            ValuesNode::Utf8(strings) => strings.reserve(additional, 0),
            ValuesNode::LargeUtf8(strings) => strings.reserve(additional, 0),
        }
    }

    /// Gives back memory that no value needs, as far as the allocator takes it.
    // match table: an arm for each kind of values.
    pub fn shrink_to_fit(&mut self)
        ensures { self.new ≡ self.old }
    {
        match &mut self.node {
            ValuesNode::Nulls => {}
            ValuesNode::Truths(bits) => bits.shrink_to_fit(),
            ValuesNode::Int8(values) => values.shrink_to_fit(),
            ValuesNode::Int16(values) => values.shrink_to_fit(),
            ValuesNode::Int32(values) => values.shrink_to_fit(),
            ValuesNode::Int64(values) => values.shrink_to_fit(),
            ValuesNode::Int128(values) => values.shrink_to_fit(),
            ValuesNode::Int256(values) => values.shrink_to_fit(),
            ValuesNode::UInt8(values) => values.shrink_to_fit(),
            ValuesNode::UInt16(values) => values.shrink_to_fit(),
            ValuesNode::UInt32(values) => values.shrink_to_fit(),
            ValuesNode::UInt64(values) => values.shrink_to_fit(),
            ValuesNode::DaysMs(values) => values.shrink_to_fit(),
            ValuesNode::MonthsDaysNs(values) => values.shrink_to_fit(),
            ValuesNode::Binary(strings) => strings.shrink_to_fit(),
            ValuesNode::LargeBinary(strings) => strings.shrink_to_fit(),
            ValuesNode::FixedSizeBinary(_, bytes) => bytes.shrink_to_fit(),
            ValuesNode::Utf8(strings) => strings.shrink_to_fit(),
            ValuesNode::LargeUtf8(strings) => strings.shrink_to_fit(),
        }
    }
}

/// The refusal of a cell of another type.
fn other_cell() -> Error
    ensures { IsInvalidArgument result }
{
    Error::InvalidArgumentError("a cell of another type or size than the column's")
}

/// Takes a null, of which nothing is stored.
fn push_nothing(cell: &AnyScalar) -> Result<()>
    ensures { TakesValue nothing (scalar_slot cell.now) nothing result }
{
    if is_null(cell) {
        Ok(())
    } else {
        Err(other_cell())
    }
}

/// Adds a truth value.
fn push_truth(bits: &mut MutableBitmap, cell: &AnyScalar) -> Result<()>
    ensures { TakesValue (truths bits.old) (scalar_slot cell.now) (truths bits.new) result }
{
    match truth_in(cell) {
        Some(truth) => bits.push(truth),
        None => Err(other_cell()),
    }
}

/// Adds a number of a kind.
fn push_number<T: NumberKind>(values: &mut Vec<T>, cell: &AnyScalar) -> Result<()>
    ensures { TakesValue (whole T.PRIMITIVE (map T.numbers values.old.items)) (scalar_slot cell.now)
        (whole T.PRIMITIVE (map T.numbers values.new.items)) result }
{
    match number_in::<T>(cell) {
        Some(value) => push_value(values, value),
        None => Err(other_cell()),
    }
}

/// Adds a value.
fn push_value<T: Drop>(values: &mut Vec<T>, value: T) -> Result<()>
    ensures { MatchResult result (λ _. values.new.items ≡ values.old.items ++ value ∷ [])
        (λ e. IsOutOfMemory e × (values.new.items ≡ values.old.items)) }
{
    match values.push(value) {
        Ok(()) => Ok(()),
        Err(_) => Err(Error::OutOfMemory),
    }
}

/// Adds a byte string.
#[tactic(auto, using(crate::proofs::StringSlots::greatest))]
fn push_bytes<O: Offset>(values: &mut Strings<O>, cell: &AnyScalar) -> Result<()>
    ensures { TakesValue (strings false O.IS_LARGE values.old) (scalar_slot cell.now) (strings false O.IS_LARGE values.new) result }
{
    match bytes_in(cell) {
        Some(bytes) => values.push(bytes),
        None => Err(other_cell()),
    }
}

/// Adds a text.
#[tactic(auto, using(crate::proofs::StringSlots::greatest))]
fn push_text<O: Offset>(values: &mut Strings<O>, cell: &AnyScalar) -> Result<()>
    ensures { TakesValue (strings true O.IS_LARGE values.old) (scalar_slot cell.now) (strings true O.IS_LARGE values.new) result }
{
    match text_in(cell) {
        Some(text) => values.push(text),
        None => Err(other_cell()),
    }
}

/// Adds a byte string of one size, zeros for a null.
fn push_sized(size: usize, bytes: &mut Vec<u8>, cell: &AnyScalar) -> Result<()>
    ensures { TakesValue (sized size bytes.old.items) (scalar_slot cell.now) (sized size bytes.new.items) result }
{
    match part_of(cell) {
        CellPart::Null => push_zeros(size, bytes),
        CellPart::Bytes(value) => push_string(size, bytes, value),
        _ => Err(other_cell()),
    }
}

/// Adds zeros.
fn push_zeros(count: usize, bytes: &mut Vec<u8>) -> Result<()>
    ensures { MatchResult result (λ _. bytes.new.items ≡ bytes.old.items ++ replicate count 0)
        (λ e. IsOutOfMemory e × (bytes.new.items ≡ bytes.old.items)) }
{
    let Some(len) = bytes.len().checked_add(count) else {
        return Err(Error::OutOfMemory);
    };
    match bytes.resize(len, 0) {
        Ok(()) => Ok(()),
        Err(_) => Err(Error::OutOfMemory),
    }
}

/// Adds a byte string, if it has a size.
fn push_string(size: usize, bytes: &mut Vec<u8>, value: &[u8]) -> Result<()>
    ensures { TakesValue (sized size bytes.old.items) (slot.bytes value.now) (sized size bytes.new.items) result }
{
    read_bytes(value);
    if value.len() != size {
        return Err(other_cell());
    }
    match bytes.extend_from_slice(value) {
        Ok(()) => Ok(()),
        Err(_) => Err(Error::OutOfMemory),
    }
}

/// Keeps the first numbers alone.
#[tactic(auto, using(crate::proofs::StringSlots::cuts))]
fn truncate_numbers<T: NumberKind>(values: &mut Vec<T>, len: usize)
    ensures { map T.numbers values.new.items ≡ take len (map T.numbers values.old.items) }
{
    values.truncate(len);
}

/// Keeps the first byte strings of one size alone.
fn truncate_sized(size: usize, bytes: &mut Vec<u8>, len: usize)
    requires { size * len ≤ length bytes.old.items }
    ensures { bytes.new.items ≡ take (size * len) bytes.old.items }
{
    let _held = bytes.len();
    bytes.truncate(size * len);
}

/// Makes room for some more values.
fn reserve_values<T: Drop>(values: &mut Vec<T>, additional: usize) -> Result<()>
    ensures same { values.new.items ≡ values.old.items }
    ensures error { IfErr result IsOutOfMemory }
{
    match values.reserve(additional) {
        Ok(()) => Ok(()),
        Err(_) => Err(Error::OutOfMemory),
    }
}
