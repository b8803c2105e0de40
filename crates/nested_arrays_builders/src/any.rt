//! Builders of any type.
ghost use Rattle.std.specs.Prelude.{◌≡◌, ◌<◌, ◌≤◌, ◌↔◌, length, not, slice_index_or, true, option_copied, IfErr, IsTrue};
ghost use Rattle.nested_arrays_builder_values.specs.parts.arrays.columnar_memory.Error.{IsOutOfMemory};
ghost use Rattle.nested_arrays_builder_values.specs.parts.arrays.columns.Cells.{fits_cell, is_null};
ghost use Rattle.nested_arrays_builder_values.specs.parts.arrays.columns.FreshLaws.{is_buildable};
ghost use Rattle.nested_arrays_builder_values.specs.parts.arrays.columns.Slots.{null};
ghost use Rattle.nested_arrays_builder_values.specs.parts.arrays.flat.ColumnMasks.{column_mask};
ghost use Rattle.nested_arrays_builder_values.specs.parts.Open.{column_of, first_slots, IsPushed, IsWithin};
ghost use Rattle.nested_arrays_builder_values.specs.parts.Scalars.{scalar_slot};
ghost use Rattle.nested_arrays_builders.specs.Nodes.{held_of};
ghost use Rattle.nested_arrays_builders.specs.Parts.{seen, IsHeld};

use crate::children::{push_nested, truncate_nested};
use crate::fitting::is_cell_of;
use crate::offsets::MutableListOffsets;
use crate::room::{reserve_nested, shrink_nested};
use nested_arrays_builder_values::MutableKeys;
use nested_arrays_builder_values::parts::columnar_memory::{
    DataType, Error, MutableBitmap, Result,
};
use nested_arrays_builder_values::parts::{FlatBuilder, Marks};
use nested_arrays_scalars::AnyScalar;
use std::marker::Model;

/// The data type of a builder with children, and a mark for each slot.
#[derive(Drop)]
pub struct Head {
    pub data_type: DataType,
    pub marks: Marks,
}

/// The builders below one with children, by how its arrays lie in memory.
#[cycle(builders)]
#[derive(Drop)]
pub enum MutableChildren {
    List(MutableListOffsets, Box<AnyMutableArray>),
    FixedSizeList(usize, Box<AnyMutableArray>),
    Struct(Vec<AnyMutableArray>),
    Dictionary(MutableKeys, Box<AnyMutableArray>),
}

/// A builder without children, or what one with children holds.
#[cycle(builders)]
#[derive(Drop)]
pub enum MutableNode {
    Flat(FlatBuilder),
    Nested(Head, MutableChildren),
}

/// Slots of any type, one behind another. A contract sees the open column: the data type, and the slots that were pushed, which all fit.
///
/// A call that is refused changes nothing.
#[cycle(builders)]
#[derive(Drop)]
pub struct AnyMutableArray {
    node: MutableNode,
}

impl Model for AnyMutableArray {
    ghost use Rattle.std.specs.Prelude.{◌*◌};
    ghost use Rattle.nested_arrays_builder_values.specs.parts.Open.{Open, open_code};

    ghost Value = { Open };

    ghost coded = { open_code };

    ghost use Rattle.nested_arrays_builders.specs.Nodes.{held_of};
    ghost use Rattle.nested_arrays_builders.specs.Parts.{seen, type_size, IsHeld};

    ghost view = { λ it. seen (held_of it.node) };

    ghost invariant = { λ it. IsHeld (held_of it.node) };

    ghost size = { λ o. 4 * type_size o.data_type };

    ghost use Rattle.nested_arrays_builders.specs.Sizes.{node_is_deep};

    ghost size_decreases = { λ a h. node_is_deep a.node h };
}

impl AnyMutableArray {
    /// A builder of a node.
    pub(crate) fn of(node: MutableNode) -> Self
        requires { IsHeld (held_of node) }
        ensures { result ≡ seen (held_of node) }
    {
        AnyMutableArray { node }
    }

    /// The node of a builder.
    pub fn into_node(self) -> MutableNode
        ensures seen { seen (held_of result) ≡ self }
        ensures held { IsHeld (held_of result) }
    {
        let AnyMutableArray { node } = self;
        node
    }

    /// How many slots there are.
    #[tactic(auto, using(crate::proofs::KeptNodes::kept_length))]
    pub fn len(&self) -> usize
        ensures { result ≡ length self.now.slots }
    {
        match &self.node {
            MutableNode::Flat(builder) => builder.len(),
            MutableNode::Nested(head, _) => head.marks.len(),
        }
    }

    pub fn is_empty(&self) -> bool
        ensures { IsTrue result ↔ (length self.now.slots ≡ 0) }
    {
        self.len() == 0
    }

    pub fn data_type(&self) -> &DataType
        ensures { result.now ≡ self.now.data_type }
    {
        match &self.node {
            MutableNode::Flat(builder) => builder.data_type(),
            MutableNode::Nested(head, _) => &head.data_type,
        }
    }

    /// Hands to a proof that the slots fit the type, and that slots of the type are stored as they come.
    pub fn whole(&self)
        ensures within { IsWithin self.now }
        ensures stored { is_buildable self.now.data_type ≡ true }
    {
        match &self.node {
            MutableNode::Flat(builder) => builder.whole(),
            MutableNode::Nested(_, _) => {}
        }
    }

    /// Whether the slot at a place has a value.
    pub fn is_valid(&self, i: usize) -> bool
        requires { i < length self.now.slots }
        ensures { result ≡ not (is_null (slice_index_or self.now.slots i null)) }
    {
        match &self.node {
            MutableNode::Flat(builder) => builder.is_valid(i),
            MutableNode::Nested(head, _) => head.marks.is_valid(i),
        }
    }

    /// The mask, which is there exactly where a slot is null; of nulls alone there is none.
    pub fn validity(&self) -> Option<&MutableBitmap>
        ensures { option_copied result ≡ column_mask (column_of self.now) }
    {
        match &self.node {
            MutableNode::Flat(builder) => builder.validity(),
            MutableNode::Nested(head, _) => head.marks.validity(),
        }
    }

    /// Makes room for some more slots: marks, offsets and values, but for items of lists of any length.
    ///
    /// # Errors
    /// `OutOfMemory`: the room found no memory.
    #[cycle(reserving)]
    pub fn reserve(&mut self, additional: usize) -> Result<()>
        ensures same { self.new ≡ self.old }
        ensures error { IfErr result IsOutOfMemory }
    {
        match &mut self.node {
            MutableNode::Flat(builder) => builder.reserve(additional),
            MutableNode::Nested(head, children) => {
                reserve_nested(&mut head.marks, children, additional)
            }
        }
    }

    /// Gives back memory that no slot needs, as far as the allocator takes it.
    #[cycle(shrinking)]
    pub fn shrink_to_fit(&mut self)
        ensures { self.new ≡ self.old }
    {
        match &mut self.node {
            MutableNode::Flat(builder) => builder.shrink_to_fit(),
            MutableNode::Nested(head, children) => shrink_nested(&mut head.marks, children),
        }
    }

    /// Keeps the first `len` slots alone.
    #[cycle(truncating)]
    pub fn truncate(&mut self, len: usize)
        requires { len ≤ length self.old.slots }
        ensures { self.new ≡ first_slots self.old len }
    {
        match &mut self.node {
            MutableNode::Flat(builder) => builder.truncate(len),
            MutableNode::Nested(head, children) => truncate_nested(&mut head.marks, children, len),
        }
    }

    /// Pushes a cell that fits the type.
    #[cycle(pushing)]
    pub(crate) fn push(&mut self, cell: &AnyScalar) -> Result<()>
        requires { fits_cell self.old.data_type (scalar_slot cell.now) ≡ true }
        ensures { IsPushed self.old (scalar_slot cell.now) self.new result }
    {
        match &mut self.node {
            MutableNode::Flat(builder) => builder.try_push(cell),
            MutableNode::Nested(head, children) => push_nested(&mut head.marks, children, cell),
        }
    }

    /// Pushes a cell.
    ///
    /// # Errors
    /// `InvalidArgumentError`: the cell does not fit the type.
    /// `Overflow`: the slots with this one are more than a column may have, at some depth, or their items or bytes than offsets may number, or
    /// the values of a dictionary than its keys tell apart.
    /// `OutOfMemory`: the slot found no memory.
    pub fn try_push_scalar(&mut self, cell: &AnyScalar) -> Result<()>
        ensures { IsPushed self.old (scalar_slot cell.now) self.new result }
    {
        if !is_cell_of(self.data_type(), cell) {
            return Err(Error::InvalidArgumentError(
                "a cell of another type or size than the column's",
            ));
        }
        self.push(cell)
    }

    /// Pushes a null.
    ///
    /// # Errors
    /// `Overflow`: the slots with this one are more than a column may have, at some depth.
    /// `OutOfMemory`: the slot found no memory.
    pub fn push_null(&mut self) -> Result<()>
        ensures { IsPushed self.old null self.new result }
    {
        self.try_push_scalar(&AnyScalar::Null)
    }
}
