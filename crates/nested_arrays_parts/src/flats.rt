//! Arrays without children.
ghost use Rattle.std.specs.Prelude.{◌≡◌, ◌+◌, ◌≤◌, true};
ghost use Rattle.nested_arrays_flat.specs.columnar_memory.Layouts.{physical_type};
ghost use Rattle.nested_arrays_flat.specs.columns.SoundColumns.{is_sound};
ghost use Rattle.nested_arrays_flat.specs.columns.StoredColumns.{column_len, column_type, cut};
ghost use Rattle.nested_arrays_flat.specs.FlatColumns.{binary_column, boolean_column, text_column};
ghost use Rattle.nested_arrays_parts.specs.Childless.{is_childless};
ghost use Rattle.nested_arrays_parts.specs.FlatNodes.{flat_column};

use nested_arrays_flat::columnar_memory::{DataType, Offset};
use nested_arrays_flat::flat_arrays::{BinaryArray, BooleanArray, Utf8Array};
use nested_arrays_flat::{AnyPrimitive, FixedSizeBinaryArray, NullArray};
use std::marker::Model;

/// An array without children, by how it lies in memory.
#[derive(Debug, Drop)]
pub enum FlatNode {
    Null(NullArray),
    Boolean(BooleanArray),
    Primitive(AnyPrimitive),
    Binary(BinaryArray<i32>),
    LargeBinary(BinaryArray<i64>),
    FixedSizeBinary(FixedSizeBinaryArray),
    Utf8(Utf8Array<i32>),
    LargeUtf8(Utf8Array<i64>),
}

/// An array of any type without children, which a contract sees as the column that it stores.
#[derive(Debug)]
pub struct FlatArray {
    pub node: FlatNode,
}

impl Drop for FlatArray {
    fn drop(self) {
        let FlatArray { node: _ } = self;
    }
}

impl Model for FlatArray {
    ghost use Rattle.std.specs.Prelude.{◌≡◌, true};
    ghost use Rattle.nested_arrays_flat.specs.columns.ColumnCodes.{column_code};
    ghost use Rattle.nested_arrays_flat.specs.columns.SoundColumns.{is_sound};
    ghost use Rattle.nested_arrays_flat.specs.columns.StoredColumns.{Column};

    ghost Value = { Column };

    ghost coded = { column_code };

    ghost use Rattle.nested_arrays_parts.specs.FlatNodes.{flat_column};

    ghost view = { λ it. flat_column it.node };

    ghost invariant = { λ it. is_sound (flat_column it.node) ≡ true };
}

impl FlatArray {
    /// The array by its layout.
    pub(crate) fn into_node(self) -> FlatNode
        ensures value { flat_column result ≡ self }
        ensures whole { is_sound (flat_column result) ≡ true }
    {
        let FlatArray { node } = self;
        node
    }

    /// How many slots there are.
    #[tactic(auto, using(crate::proofs::FlatCuts::strings_len, crate::proofs::FlatCuts::texts_len))]
    pub fn len(&self) -> usize
        ensures { result ≡ column_len self.now }
    {
        match &self.node {
            FlatNode::Null(array) => array.len(),
            FlatNode::Boolean(array) => array.len(),
            FlatNode::Primitive(array) => array.len(),
            FlatNode::Binary(array) => array.len(),
            FlatNode::LargeBinary(array) => array.len(),
            FlatNode::FixedSizeBinary(array) => array.len(),
            FlatNode::Utf8(array) => array.len(),
            FlatNode::LargeUtf8(array) => array.len(),
        }
    }

    pub fn data_type(&self) -> &DataType
        ensures { result.now ≡ column_type self.now }
    {
        match &self.node {
            FlatNode::Null(array) => array.data_type(),
            FlatNode::Boolean(array) => array.data_type(),
            FlatNode::Primitive(array) => array.data_type(),
            FlatNode::Binary(array) => array.data_type(),
            FlatNode::LargeBinary(array) => array.data_type(),
            FlatNode::FixedSizeBinary(array) => array.data_type(),
            FlatNode::Utf8(array) => array.data_type(),
            FlatNode::LargeUtf8(array) => array.data_type(),
        }
    }

    /// Hands to a proof what holds of every such array.
    pub fn whole(&self)
        ensures { is_sound self.now ≡ true }
    {
        let _node = &self.node;
    }

    /// Hands to a proof how every such array lies in memory.
    pub fn lies(&self)
        ensures { is_childless (physical_type (column_type self.now)) ≡ true }
    {
        let _data_type = match &self.node {
            FlatNode::Null(array) => array.data_type(),
            FlatNode::Boolean(array) => array.data_type(),
            FlatNode::Primitive(array) => array.data_type(),
            FlatNode::Binary(array) => array.data_type(),
            FlatNode::LargeBinary(array) => array.data_type(),
            FlatNode::FixedSizeBinary(array) => array.data_type(),
            FlatNode::Utf8(array) => array.data_type(),
            FlatNode::LargeUtf8(array) => array.data_type(),
        };
    }

    /// Narrows this to the `count` slots from `offset` on, with no copy.
    pub fn slice(&mut self, offset: usize, count: usize)
        requires { offset + count ≤ column_len self.old }
        ensures { self.new ≡ cut self.old offset count }
    {
        match &mut self.node {
            FlatNode::Null(array) => array.slice(offset, count),
            FlatNode::Boolean(array) => slice_booleans(array, offset, count),
            FlatNode::Primitive(array) => array.slice(offset, count),
            FlatNode::Binary(array) => slice_strings(array, offset, count),
            FlatNode::LargeBinary(array) => slice_strings(array, offset, count),
            FlatNode::FixedSizeBinary(array) => array.slice(offset, count),
            FlatNode::Utf8(array) => slice_texts(array, offset, count),
            FlatNode::LargeUtf8(array) => slice_texts(array, offset, count),
        }
    }
}

/// Narrows an array of booleans to the `count` slots from `offset` on.
#[tactic(auto, using(crate::proofs::FlatCuts::boolean_cut))]
fn slice_booleans(array: &mut BooleanArray, offset: usize, count: usize)
    requires { offset + count ≤ column_len (boolean_column array.old) }
    ensures { boolean_column array.new ≡ cut (boolean_column array.old) offset count }
{
    array.slice(offset, count);
}

/// The same of byte strings.
#[tactic(auto, using(crate::proofs::FlatCuts::strings_len, crate::proofs::FlatCuts::binary_cut))]
fn slice_strings<O: Offset>(array: &mut BinaryArray<O>, offset: usize, count: usize)
    requires { offset + count ≤ column_len (binary_column array.old) }
    ensures { binary_column array.new ≡ cut (binary_column array.old) offset count }
{
    array.slice(offset, count);
}

/// The same of texts.
#[tactic(auto, using(crate::proofs::FlatCuts::texts_len, crate::proofs::FlatCuts::text_cut))]
fn slice_texts<O: Offset>(array: &mut Utf8Array<O>, offset: usize, count: usize)
    requires { offset + count ≤ column_len (text_column array.old) }
    ensures { text_column array.new ≡ cut (text_column array.old) offset count }
{
    array.slice(offset, count);
}
