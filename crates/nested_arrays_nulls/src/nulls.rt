//! Arrays of nulls of any type.
ghost use Rattle.std.specs.Prelude.{◌≡◌, IfOk};
ghost use Rattle.nested_arrays_iterators.specs.columnar_memory.Layouts.{logical_type, physical_type};
ghost use Rattle.nested_arrays_nulls.specs.NullAnswers.{AreMade, IsMade, IsNullArray};
ghost use Rattle.nested_arrays_nulls.specs.NullLaws.{AreNullSlots};
ghost use Rattle.nested_arrays_nulls.specs.NullColumns.{null_columns, nulls_as};

use crate::{flats, wholes};
use nested_arrays_iterators::arrays::AnyArray;
use nested_arrays_iterators::columnar_memory::{DataType, Error, Field, Result, Text};
use std::alloc::Global;

/// An array of so many nulls of a type, of any depth: each slot is null. Only a union has no nulls of its own: its slots pick the nulls of
/// its first child. What is stored for a null is zeros.
///
/// # Errors
/// `OutOfSpec`: the type has no arrays, at whatever depth: floats, byte strings or lists of size 0, structs without a field, maps whose entries
/// are no structs of two, unions without a child or whose first id is none, or dense ones of more than 2^31 slots.
/// `Overflow`: a child would have 2^64 slots or more, or as many bytes.
/// `OutOfMemory`: the array or a data type found no memory.
#[tactic(auto, using(crate::proofs::NullSlots::made_slots))]
pub fn new_null_array(alloc: Global, data_type: DataType, length: usize) -> Result<AnyArray>
    ensures made { IsNullArray data_type length result }
    ensures slots { IfOk result (AreNullSlots data_type length) }
{
    nulls_as(alloc, &data_type, &data_type, length)
}

/// An array of a type without slots.
///
/// # Errors
/// As of `new_null_array`, except that no length is too great.
pub fn new_empty_array(alloc: Global, data_type: DataType) -> Result<AnyArray>
    ensures made { IsNullArray data_type 0 result }
    ensures slots { IfOk result (AreNullSlots data_type 0) }
{
    new_null_array(alloc, data_type, 0)
}

/// Hands to a proof that what is stored as an extension is stored as the type that the extension is over.
fn is_over(
    _whole: &DataType,
    _extension: &DataType,
    _name: &Text,
    _inner: &DataType,
    _more: &Option<Text>,
)
    requires same { logical_type _whole.now ≡ logical_type _extension.now }
    requires over { _extension.now ≡ DataType.Extension _name.now _inner.now _more.now }
    ensures { logical_type _whole.now ≡ logical_type _inner.now }
{
    // Only the clause is wanted.
}

/// So many nulls of a type under the name of one that is stored as it is: an extension of it, or itself.
// match table: an arm for each type with children.
#[cycle(nulls)]
fn nulls_as(
    alloc: Global,
    data_type: &DataType,
    whole: &DataType,
    length: usize,
) -> Result<AnyArray>
    requires { logical_type whole.now ≡ logical_type data_type.now }
    ensures { IsMade (nulls_as data_type.now whole.now length) result }
{
    match data_type {
        DataType::List(item) => wholes::lists(
            alloc,
            whole,
            field_nulls(alloc, item.get(), 0)?,
            length,
        ),
        DataType::LargeList(item) => {
            wholes::large_lists(alloc, whole, field_nulls(alloc, item.get(), 0)?, length)
        }
        DataType::Map(entry, _) => wholes::maps(
            alloc,
            whole,
            field_nulls(alloc, entry.get(), 0)?,
            length,
        ),
        DataType::FixedSizeList(item, size) => match size.checked_mul(length) {
            None => Err(Error::Overflow),
            Some(count) => {
                wholes::fixed_lists(alloc, whole, field_nulls(alloc, item.get(), count)?, length)
            }
        },
        DataType::Struct(fields) => {
            wholes::structs(
                alloc,
                whole,
                nulls_of(alloc, fields.as_slice(), length)?,
                length,
            )
        }
        DataType::Union(fields, ids, mode) => {
            wholes::unions(
                alloc,
                whole,
                ids,
                *mode,
                nulls_of(alloc, fields.as_slice(), length)?,
                length,
            )
        }
        DataType::Dictionary(key, value, _) => {
            let values = nulls_as(alloc, value.get(), value.get(), length.min(1))?;
            wholes::dictionaries(alloc, whole, *key, values, length)
        }
        DataType::Extension(name, inner, more) => {
            is_over(whole, data_type, name, inner.get(), more);
            nulls_as(alloc, inner.get(), whole, length)
        }
        _ => wholes::flats(alloc, whole, length),
    }
}

/// So many nulls of a field's type.
#[cycle(nulls)]
fn field_nulls(alloc: Global, field: &Field, length: usize) -> Result<AnyArray>
    ensures { IsNullArray field.now.data_type length result }
{
    nulls_as(alloc, &field.data_type, &field.data_type, length)
}

/// So many nulls of the type of each field.
#[cycle(nulls)]
fn nulls_of(alloc: Global, fields: &[Field], length: usize) -> Result<Vec<AnyArray>>
    ensures { AreMade result (λ arrays. arrays.items) (null_columns fields.now length) }
{
    let mut arrays = Vec::new(alloc);
    for field in fields {
        arrays.push(field_nulls(alloc, field, length)?)?;
    }
    Ok(arrays)
}
