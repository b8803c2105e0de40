//! The builders below one with children: cut back and grown together.
ghost use Rattle.std.specs.Prelude.{◌≡◌, ◌≤◌, length, map, take, true, All};
ghost use Rattle.nested_arrays_builder_values.specs.parts.Open.{first_slots};
ghost use Rattle.nested_arrays_builder_values.specs.parts.Scalars.{scalar_slot};
ghost use Rattle.nested_arrays_builders.specs.Nodes.{parts_of};
ghost use Rattle.nested_arrays_builders.specs.Parts.{first_parts, takes_slot, AddsSlot, HoldsCount};

use crate::any::{AnyMutableArray, MutableChildren};
use crate::keyed::{push_keyed, truncate_keyed};
use crate::lists::{push_list, push_sized, truncate_list, truncate_sized};
use crate::records::push_record;
use nested_arrays_builder_values::parts::Marks;
use nested_arrays_builder_values::parts::columnar_memory::Result;
use nested_arrays_scalars::AnyScalar;

/// Keeps the first `len` marks alone, and below what belongs to these slots.
#[cycle(truncating)]
pub(crate) fn truncate_nested(marks: &mut Marks, children: &mut MutableChildren, len: usize)
    requires held { HoldsCount (parts_of children.old) (length marks.old) }
    requires within { len ≤ length marks.old }
    ensures marks { marks.new ≡ take len marks.old }
    ensures parts { parts_of children.new ≡ first_parts (parts_of children.old) len }
{
    match children {
        MutableChildren::List(offsets, values) => truncate_list(offsets, values, len),
        MutableChildren::FixedSizeList(size, values) => truncate_sized(*size, values, len),
        MutableChildren::Struct(fields) => truncate_each(fields, len),
        MutableChildren::Dictionary(keys, values) => truncate_keyed(keys, values, len),
    }
    marks.truncate(len);
}

/// Keeps the first `len` slots of each alone.
#[cycle(truncating)]
pub(crate) fn truncate_each(children: &mut Vec<AnyMutableArray>, len: usize)
    requires { All (λ o. len ≤ length o.slots) children.old.items }
    ensures { children.new.items ≡ map (λ o. first_slots o len) children.old.items }
{
    for child in children.iter_mut() {
        child.truncate(len);
    }
}

/// Adds the mark of a cell, and below what the cell brings.
#[cycle(pushing)]
pub(crate) fn push_nested(
    marks: &mut Marks,
    children: &mut MutableChildren,
    cell: &AnyScalar,
) -> Result<()>
    requires held { HoldsCount (parts_of children.old) (length marks.old) }
    requires takes { takes_slot (parts_of children.old) (scalar_slot cell.now) ≡ true }
    ensures { AddsSlot marks.old (parts_of children.old) (scalar_slot cell.now) marks.new (parts_of children.new) result }
{
    match children {
        MutableChildren::List(offsets, values) => push_list(marks, offsets, values, cell),
        MutableChildren::FixedSizeList(size, values) => push_sized(marks, *size, values, cell),
        MutableChildren::Struct(fields) => push_record(marks, fields, cell),
        MutableChildren::Dictionary(keys, values) => push_keyed(marks, keys, values, cell),
    }
}
