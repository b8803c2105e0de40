//! Room for what builders with children are to hold.
ghost use Rattle.std.specs.Prelude.{◌≡◌, IfErr};
ghost use Rattle.nested_arrays_builder_values.specs.parts.arrays.columnar_memory.Error.{IsOutOfMemory};
ghost use Rattle.nested_arrays_builders.specs.Nodes.{parts_of};

use crate::any::{AnyMutableArray, MutableChildren};
use nested_arrays_builder_values::parts::Marks;
use nested_arrays_builder_values::parts::columnar_memory::{Error, Result};

/// Makes room for some more marks, and below for what so many slots bring, but for items of lists of any length and values of dictionaries.
#[cycle(reserving)]
pub(crate) fn reserve_nested(
    marks: &mut Marks,
    children: &mut MutableChildren,
    additional: usize,
) -> Result<()>
    ensures marks { marks.new ≡ marks.old }
    ensures parts { parts_of children.new ≡ parts_of children.old }
    ensures error { IfErr result IsOutOfMemory }
{
    marks.reserve(additional)?;
    reserve_below(children, additional)
}

/// Makes room below for what some more slots bring, but for items of lists of any length and values of dictionaries.
#[cycle(reserving)]
fn reserve_below(children: &mut MutableChildren, additional: usize) -> Result<()>
    ensures parts { parts_of children.new ≡ parts_of children.old }
    ensures error { IfErr result IsOutOfMemory }
{
    match children {
        MutableChildren::List(offsets, _) => offsets.reserve(additional),
        MutableChildren::FixedSizeList(size, values) => match size.checked_mul(additional) {
            Some(count) => values.reserve(count),
            None => Err(Error::OutOfMemory),
        },
        MutableChildren::Struct(fields) => reserve_each(fields, additional),
        MutableChildren::Dictionary(keys, _) => match keys.uses.reserve(additional) {
            Ok(()) => Ok(()),
            Err(_) => Err(Error::OutOfMemory),
        },
    }
}

/// Makes room for some more slots of each.
#[cycle(reserving)]
fn reserve_each(children: &mut Vec<AnyMutableArray>, additional: usize) -> Result<()>
    ensures same { children.new.items ≡ children.old.items }
    ensures error { IfErr result IsOutOfMemory }
{
    for child in children.iter_mut() {
        child.reserve(additional)?;
    }
    Ok(())
}

/// Gives back memory that no mark needs and nothing below.
#[cycle(shrinking)]
pub(crate) fn shrink_nested(marks: &mut Marks, children: &mut MutableChildren)
    ensures marks { marks.new ≡ marks.old }
    ensures parts { parts_of children.new ≡ parts_of children.old }
{
    match children {
        MutableChildren::List(offsets, values) => {
            offsets.shrink_to_fit();
            values.shrink_to_fit();
        }
        MutableChildren::FixedSizeList(_, values) => values.shrink_to_fit(),
        MutableChildren::Struct(fields) => shrink_each(fields),
        MutableChildren::Dictionary(keys, values) => {
            keys.uses.shrink_to_fit();
            values.shrink_to_fit();
        }
    }
    marks.shrink_to_fit();
}

/// Gives back memory that no slot of any needs.
#[cycle(shrinking)]
fn shrink_each(children: &mut Vec<AnyMutableArray>)
    ensures { children.new.items ≡ children.old.items }
{
    for child in children.iter_mut() {
        child.shrink_to_fit();
    }
}
