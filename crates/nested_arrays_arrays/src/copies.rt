//! Copies of arrays of any type: they share what is stored, and copy data types and the places of children.
ghost use Rattle.std.specs.Prelude.{◌≡◌, IfOk};
ghost use Rattle.nested_arrays_parts.specs.columns.StoredColumns.{column_len, column_type, fixed_lists, in_columns, lists, records, unions};
ghost use Rattle.nested_arrays_arrays.specs.AnyColumns.{column_of, IsWhole};
ghost use Rattle.nested_arrays_arrays.specs.Lengths.{size_of};
ghost use Rattle.nested_arrays_arrays.specs.Parts.{column_ids, column_offsets, column_places};
ghost use Rattle.nested_arrays_parts.specs.flat.ColumnMasks.{column_mask};

use crate::any::{AnyArray, DictionaryNode, ListNode, Node};
use crate::fixed_lists::FixedSizeListArray;
use crate::maps::MapArray;
use crate::records::StructArray;
use crate::unions::UnionArray;
use nested_arrays_parts::FlatArray;
use std::alloc::{AllocError, Global};

impl Clone for AnyArray {
    ghost is_clone = { λ array copy. copy ≡ array };

    /// Shares what is stored at every depth, and copies data types and the places of children.
    fn clone(&self) -> Result<Self, AllocError> {
        copy_of_array(self)
    }
}

impl Clone for FixedSizeListArray {
    ghost is_clone = { λ array copy. copy ≡ array };

    /// As of an array of any type.
    fn clone(&self) -> Result<Self, AllocError> {
        with_items(self, copy_of_array(self.values())?)
    }
}

impl Clone for StructArray {
    ghost is_clone = { λ array copy. copy ≡ array };

    /// As of an array of any type.
    fn clone(&self) -> Result<Self, AllocError> {
        with_values(self, copies_of(self.allocator(), self.values())?)
    }
}

impl Clone for MapArray {
    ghost is_clone = { λ array copy. copy ≡ array };

    /// As of an array of any type.
    fn clone(&self) -> Result<Self, AllocError> {
        with_entries(self, copy_of_array(self.field())?)
    }
}

impl Clone for UnionArray {
    ghost is_clone = { λ array copy. copy ≡ array };

    /// As of an array of any type.
    fn clone(&self) -> Result<Self, AllocError> {
        with_fields(self, copies_of(self.allocator(), self.fields())?)
    }
}

impl StructArray {
    /// Where the children's places were allocated.
    fn allocator(&self) -> Global {
        *self.values.allocator()
    }
}

impl UnionArray {
    /// Where the children's places were allocated.
    fn allocator(&self) -> Global {
        *self.fields.allocator()
    }
}

/// A copy of lists of one size, of which the items are copied.
fn with_items(
    array: &FixedSizeListArray,
    values: AnyArray,
) -> Result<FixedSizeListArray, AllocError>
    requires { array.now ≡ fixed_lists (column_type array.now) (column_mask array.now) (size_of (column_type array.now)) values }
    ensures { IfOk result (λ copy. copy ≡ array.now) }
{
    Ok(FixedSizeListArray {
        data_type: array.data_type.clone()?,
        size: array.size,
        values: Box::new(*Box::allocator(&array.values), values)?,
        validity: array.validity.clone()?,
    })
}

/// A copy of structs, of which the children are copied.
fn with_values(array: &StructArray, values: Vec<AnyArray>) -> Result<StructArray, AllocError>
    requires { array.now ≡ records (column_type array.now) (column_mask array.now) (column_len array.now) (in_columns values.items) }
    ensures { IfOk result (λ copy. copy ≡ array.now) }
{
    Ok(StructArray {
        data_type: array.data_type.clone()?,
        values,
        validity: array.validity.clone()?,
        length: array.length,
    })
}

/// A copy of maps, of which the entries are copied.
fn with_entries(array: &MapArray, field: AnyArray) -> Result<MapArray, AllocError>
    requires { array.now ≡ lists (column_type array.now) (column_mask array.now) (column_offsets array.now) field }
    ensures { IfOk result (λ copy. copy ≡ array.now) }
{
    Ok(MapArray {
        data_type: array.data_type.clone()?,
        offsets: array.offsets.clone()?,
        field: Box::new(*Box::allocator(&array.field), field)?,
        validity: array.validity.clone()?,
    })
}

/// A copy of a union, of which the children are copied.
fn with_fields(array: &UnionArray, fields: Vec<AnyArray>) -> Result<UnionArray, AllocError>
    requires { array.now ≡ unions (column_type array.now) (column_ids array.now) (column_places array.now) (in_columns fields.items) }
    ensures { IfOk result (λ copy. copy ≡ array.now) }
{
    Ok(UnionArray {
        data_type: array.data_type.clone()?,
        types: array.types.clone()?,
        offsets: array.offsets.clone()?,
        fields,
    })
}

/// A copy of an array without children, as one of any type.
fn copy_of_flat(array: &FlatArray) -> Result<AnyArray, AllocError>
    ensures { IfOk result (λ copy. copy ≡ array.now) }
{
    Ok(AnyArray::from(array.clone()?))
}

/// The same of lists, of which the items are copied.
fn copy_of_lists(node: &ListNode, values: AnyArray) -> Result<AnyArray, AllocError>
    requires whole { IsWhole (Node.List node.now) }
    requires copied { values ≡ node.now.values.value }
    ensures { IfOk result (λ copy. copy ≡ column_of (Node.List node.now)) }
{
    Ok(AnyArray {
        node: Node::List(ListNode {
            data_type: node.data_type.clone()?,
            offsets: node.offsets.clone()?,
            values: Box::new(*Box::allocator(&node.values), values)?,
            validity: node.validity.clone()?,
        }),
    })
}

/// The same of a dictionary, of which the values are copied.
fn copy_of_dictionary(node: &DictionaryNode, values: AnyArray) -> Result<AnyArray, AllocError>
    requires whole { IsWhole (Node.Dictionary node.now) }
    requires copied { values ≡ node.now.values.value }
    ensures { IfOk result (λ copy. copy ≡ column_of (Node.Dictionary node.now)) }
{
    Ok(AnyArray {
        node: Node::Dictionary(DictionaryNode {
            data_type: node.data_type.clone()?,
            keys: node.keys.clone()?,
            values: Box::new(*Box::allocator(&node.values), values)?,
        }),
    })
}

/// The same of lists of one size.
fn copy_of_fixed_lists(array: &FixedSizeListArray, values: AnyArray) -> Result<AnyArray, AllocError>
    requires { array.now ≡ fixed_lists (column_type array.now) (column_mask array.now) (size_of (column_type array.now)) values }
    ensures { IfOk result (λ copy. copy ≡ array.now) }
{
    Ok(AnyArray::from(with_items(array, values)?))
}

/// The same of structs.
fn copy_of_structs(array: &StructArray, values: Vec<AnyArray>) -> Result<AnyArray, AllocError>
    requires { array.now ≡ records (column_type array.now) (column_mask array.now) (column_len array.now) (in_columns values.items) }
    ensures { IfOk result (λ copy. copy ≡ array.now) }
{
    Ok(AnyArray::from(with_values(array, values)?))
}

/// The same of maps.
fn copy_of_maps(array: &MapArray, field: AnyArray) -> Result<AnyArray, AllocError>
    requires { array.now ≡ lists (column_type array.now) (column_mask array.now) (column_offsets array.now) field }
    ensures { IfOk result (λ copy. copy ≡ array.now) }
{
    Ok(AnyArray::from(with_entries(array, field)?))
}

/// The same of a union.
fn copy_of_union(array: &UnionArray, fields: Vec<AnyArray>) -> Result<AnyArray, AllocError>
    requires { array.now ≡ unions (column_type array.now) (column_ids array.now) (column_places array.now) (in_columns fields.items) }
    ensures { IfOk result (λ copy. copy ≡ array.now) }
{
    Ok(AnyArray::from(with_fields(array, fields)?))
}

/// A copy of an array of any type.
#[cycle(copying)]
fn copy_of_array(array: &AnyArray) -> Result<AnyArray, AllocError>
    ensures { IfOk result (λ copy. copy ≡ array.now) }
{
    match &array.node {
        Node::Flat(array) => copy_of_flat(array),
        Node::List(node) => copy_of_lists(node, copy_of_array(&node.values)?),
        Node::FixedSizeList(array) => copy_of_fixed_lists(array, copy_of_array(array.values())?),
        Node::Struct(array) => {
            copy_of_structs(array, copies_of(array.allocator(), array.values())?)
        }
        Node::Map(array) => copy_of_maps(array, copy_of_array(array.field())?),
        Node::Union(array) => {
            copy_of_union(array, copies_of(array.allocator(), array.fields())?)
        }
        Node::Dictionary(node) => copy_of_dictionary(node, copy_of_array(&node.values)?),
    }
}

/// Copies of several arrays.
#[cycle(copying)]
fn copies_of(alloc: Global, arrays: &[AnyArray]) -> Result<Vec<AnyArray>, AllocError>
    ensures { IfOk result (λ copies. copies.items ≡ arrays.now) }
{
    let mut copies = Vec::new(alloc);
    for array in arrays {
        copies.push(copy_of_array(array)?)?;
    }
    Ok(copies)
}
