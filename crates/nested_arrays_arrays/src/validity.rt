//! Masks of arrays of any type, read and replaced.
ghost use Rattle.std.specs.Prelude.{◌≡◌, true, option_copied};
ghost use Rattle.nested_arrays_parts.specs.columns.SoundColumns.{is_sound};
ghost use Rattle.nested_arrays_parts.specs.flat.ColumnMasks.{column_mask, ReplacesMask};
ghost use Rattle.nested_arrays_arrays.specs.AnyColumns.{column_of, FitsWidth};

use crate::any::{AnyArray, ListNode, Node};
use crate::key_masks::mask_keys;
use nested_arrays_parts::columnar_memory::{Bitmap, Error, Result};
use nested_arrays_parts::fits;

impl AnyArray {
    /// The mask, where there is one: a bit is set where its slot is not null.
    pub fn validity(&self) -> Option<&Bitmap>
        ensures { option_copied result ≡ column_mask self.now }
    {
        match &self.node {
            Node::Flat(array) => array.validity(),
            Node::List(node) => node.validity.as_ref(),
            Node::FixedSizeList(array) => array.validity(),
            Node::Struct(array) => array.validity(),
            Node::Map(array) => array.validity(),
            Node::Union(array) => array.validity(),
            Node::Dictionary(node) => node.keys.validity(),
        }
    }

    /// Replaces the mask.
    ///
    /// # Errors
    /// `InvalidArgumentError`: the mask has another length than the array; or the array may have none, as nulls alone and unions; or a key of a
    /// dictionary that the mask says is valid names no value. The array is as it was.
    pub fn set_validity(&mut self, validity: Option<Bitmap>) -> Result<()>
        ensures { ReplacesMask self.old validity self.new result }
    {
        match &mut self.node {
            Node::Flat(array) => array.set_validity(validity),
            Node::List(node) => mask_lists(node, validity),
            Node::FixedSizeList(array) => array.set_validity(validity),
            Node::Struct(array) => array.set_validity(validity),
            Node::Map(array) => array.set_validity(validity),
            Node::Union(array) => array.set_validity(validity),
            Node::Dictionary(node) => mask_keys(node, validity),
        }
    }
}

/// Replaces the mask of lists.
#[tactic(auto, using(nested_arrays_parts::proofs::OffsetLists::spans_count))]
fn mask_lists(node: &mut ListNode, validity: Option<Bitmap>) -> Result<()>
    requires sound { is_sound (column_of (Node.List node.old)) ≡ true }
    requires fits { FitsWidth (Node.List node.old) }
    ensures mask { ReplacesMask (column_of (Node.List node.old)) validity (column_of (Node.List node.new)) result }
    ensures kept { FitsWidth (Node.List node.new) }
{
    if !fits(&validity, node.offsets.lists()) {
        return Err(Error::InvalidArgumentError("a mask of another length than the array"));
    }
    node.validity = validity;
    Ok(())
}
