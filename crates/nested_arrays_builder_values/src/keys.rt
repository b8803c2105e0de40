//! What a dictionary that grows holds beside its values.
ghost use Rattle.std.specs.Prelude.{◌≡◌, true};
ghost use Rattle.nested_arrays_builder_parts.specs.arrays.columns.Kinds.{most_values};
ghost use Rattle.nested_arrays_builder_parts.specs.arrays.columns.SameSlots.{are_distinct};
ghost use Rattle.nested_arrays_builder_parts.specs.Scalars.{scalar_slot};
ghost use Rattle.nested_arrays_builder_values.specs.Keyed.{AddsUse, IsLearnt, IsNeeded};

use crate::uses::SlotUses;
use crate::values::CellMap;
use nested_arrays_builder_parts::columnar_memory::{Error, IntegerType, Result};
use nested_arrays_builder_parts::{Marks, is_null};
use nested_arrays_scalars::AnyScalar;

/// What a dictionary that grows holds beside its values.
#[derive(Drop)]
pub struct MutableKeys {
    /// The type of its keys.
    pub key: IntegerType,
    /// How many of the values each slot needs: one more than its key, and none under a null.
    pub uses: SlotUses,
    /// The values as cells, by which they are found.
    pub known: CellMap,
}

/// How many values keys of a type tell apart.
pub fn most_values_of(key: IntegerType) -> usize
    ensures { result ≡ most_values key }
{
    match key {
        IntegerType::Int8 => 128,
        IntegerType::Int16 => 32_768,
        IntegerType::Int32 => 2_147_483_648,
        IntegerType::Int64 => 9_223_372_036_854_775_807,
        IntegerType::UInt8 => 256,
        IntegerType::UInt16 => 65_536,
        IntegerType::UInt32 => 4_294_967_296,
        IntegerType::UInt64 => 9_223_372_036_854_775_807,
    }
}

/// How many of the values a cell needs, if it is a null or one of them.
#[tactic(auto, using(crate::proofs::Needs::null_needs, crate::proofs::Needs::value_needs))]
pub fn needed(known: &CellMap, cell: &AnyScalar) -> Option<usize>
    requires { are_distinct known.now ≡ true }
    ensures { IsNeeded known.now (scalar_slot cell.now) result }
{
    if is_null(cell) {
        return Some(0);
    }
    let _count = known.len();
    match known.find(cell) {
        Some(place) => Some(place + 1),
        None => None,
    }
}

/// Adds a value by which it is found, where the keys tell one more apart.
pub fn learn(most: usize, known: &mut CellMap, cell: &AnyScalar) -> Result<()>
    ensures { IsLearnt most known.old (scalar_slot cell.now) known.new result }
{
    if known.len() >= most {
        return Err(Error::Overflow);
    }
    Ok(known.push(cell)?)
}

/// Adds the mark of a slot and what it needs.
#[inline(always)]
pub fn add_use(marks: &mut Marks, uses: &mut SlotUses, mark: bool, need: usize) -> Result<()>
    ensures { AddsUse marks.old uses.old mark need marks.new uses.new result }
{
    let held = uses.len();
    uses.push(need)?;
    match marks.push(mark) {
        Ok(()) => Ok(()),
        Err(error) => {
            uses.truncate(held);
            Err(error)
        }
    }
}
