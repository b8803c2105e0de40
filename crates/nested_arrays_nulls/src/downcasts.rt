//! Looking at an array of any type as one of its kind, without a copy.
ghost use Rattle.std.specs.Prelude.{◌≡◌, false, option_copied, MatchOption};
ghost use Rattle.nested_arrays_iterators.specs.arrays.Variants.{is_flat_node, may_lie};
ghost use Rattle.nested_arrays_iterators.specs.columnar_memory.declared.PhysicalType.{PhysicalType};
ghost use Rattle.nested_arrays_iterators.specs.columnar_memory.declared.PhysicalType.TheVariants as physical;
ghost use Rattle.nested_arrays_iterators.specs.parts.Childless.{is_childless};
ghost use Rattle.nested_arrays_iterators.specs.parts.FlatLayouts.{is_of_numbers, layout_in, lies_as};
ghost use Rattle.nested_arrays_nulls.specs.Downcasts.{IsSeenAs};

use nested_arrays_iterators::access::Array;
use nested_arrays_iterators::arrays::{
    AnyArray, FixedSizeListArray, MapArray, Node, StructArray, UnionArray,
};
use nested_arrays_iterators::flat::{AnyPrimitive, FixedSizeBinaryArray, NullArray, PrimitiveKind};
use nested_arrays_iterators::flat_arrays::{BinaryArray, BooleanArray, PrimitiveArray, Utf8Array};
use nested_arrays_iterators::parts::{FlatArray, FlatNode};

/// Arrays of one kind, as which an array of any type can be looked at.
pub trait Downcast: Array + Sized {
    // how arrays of the kind lie in memory
    ghost layout: { PhysicalType };

    /// The array itself, or none where it is of another kind. Takes no memory.
    fn downcast_ref(any: &AnyArray) -> Option<&Self>
        ensures { IsSeenAs Self.column Self.layout any.now (option_copied result) };
}

/// What a variant holds where it is an array without children.
fn flat_of(node: &Node) -> Option<&FlatArray>
    ensures { MatchOption (option_copied result) (is_flat_node node.now ≡ false) (λ inside. node.now ≡ Node.Flat inside) }
{
    match node {
        Node::Flat(inside) => Some(inside),
        _ => None,
    }
}

/// The array without children that an array of any type is.
fn childless(any: &AnyArray) -> Option<&FlatArray>
    ensures { MatchOption (option_copied result) (is_childless (layout_in any.now) ≡ false) (λ flat. flat ≡ any.now) }
{
    any.node.lies();
    let flat = flat_of(&any.node)?;
    flat.lies();
    Some(flat)
}

/// What a variant holds where it is numbers.
fn primitive_of(node: &FlatNode) -> Option<&AnyPrimitive>
    ensures { MatchOption (option_copied result) (is_of_numbers node.now ≡ false) (λ inside. node.now ≡ FlatNode.Primitive inside) }
{
    match node {
        FlatNode::Primitive(inside) => Some(inside),
        _ => None,
    }
}

/// What a variant holds where it is nulls.
fn null_of(node: &FlatNode) -> Option<&NullArray>
    ensures { MatchOption (option_copied result) (lies_as node.now physical.Null ≡ false) (λ inside. node.now ≡ FlatNode.Null inside) }
{
    match node {
        FlatNode::Null(inside) => Some(inside),
        _ => None,
    }
}

/// What a variant holds where it is booleans.
fn boolean_of(node: &FlatNode) -> Option<&BooleanArray>
    ensures { MatchOption (option_copied result) (lies_as node.now physical.Boolean ≡ false) (λ inside. node.now ≡ FlatNode.Boolean inside) }
{
    match node {
        FlatNode::Boolean(inside) => Some(inside),
        _ => None,
    }
}

/// What a variant holds where it is byte strings with offsets of 32 bits.
fn binary_of(node: &FlatNode) -> Option<&BinaryArray<i32>>
    ensures { MatchOption (option_copied result) (lies_as node.now physical.Binary ≡ false) (λ inside. node.now ≡ FlatNode.Binary inside) }
{
    match node {
        FlatNode::Binary(inside) => Some(inside),
        _ => None,
    }
}

/// What a variant holds where it is byte strings with offsets of 64 bits.
fn large_binary_of(node: &FlatNode) -> Option<&BinaryArray<i64>>
    ensures { MatchOption (option_copied result) (lies_as node.now physical.LargeBinary ≡ false) (λ inside. node.now ≡ FlatNode.LargeBinary inside) }
{
    match node {
        FlatNode::LargeBinary(inside) => Some(inside),
        _ => None,
    }
}

/// What a variant holds where it is byte strings of one size.
fn fixed_size_binary_of(node: &FlatNode) -> Option<&FixedSizeBinaryArray>
    ensures { MatchOption (option_copied result) (lies_as node.now physical.FixedSizeBinary ≡ false)
        (λ inside. node.now ≡ FlatNode.FixedSizeBinary inside) }
{
    match node {
        FlatNode::FixedSizeBinary(inside) => Some(inside),
        _ => None,
    }
}

/// What a variant holds where it is texts with offsets of 32 bits.
fn utf8_of(node: &FlatNode) -> Option<&Utf8Array<i32>>
    ensures { MatchOption (option_copied result) (lies_as node.now physical.Utf8 ≡ false) (λ inside. node.now ≡ FlatNode.Utf8 inside) }
{
    match node {
        FlatNode::Utf8(inside) => Some(inside),
        _ => None,
    }
}

/// What a variant holds where it is texts with offsets of 64 bits.
fn large_utf8_of(node: &FlatNode) -> Option<&Utf8Array<i64>>
    ensures { MatchOption (option_copied result) (lies_as node.now physical.LargeUtf8 ≡ false) (λ inside. node.now ≡ FlatNode.LargeUtf8 inside) }
{
    match node {
        FlatNode::LargeUtf8(inside) => Some(inside),
        _ => None,
    }
}

/// What a variant holds where it is lists of one size.
fn fixed_size_list_of(node: &Node) -> Option<&FixedSizeListArray>
    ensures { MatchOption (option_copied result) (may_lie node.now physical.FixedSizeList ≡ false) (λ inside. node.now ≡ Node.FixedSizeList inside) }
{
    match node {
        Node::FixedSizeList(inside) => Some(inside),
        _ => None,
    }
}

/// What a variant holds where it is structs.
fn struct_of(node: &Node) -> Option<&StructArray>
    ensures { MatchOption (option_copied result) (may_lie node.now physical.Struct ≡ false) (λ inside. node.now ≡ Node.Struct inside) }
{
    match node {
        Node::Struct(inside) => Some(inside),
        _ => None,
    }
}

/// What a variant holds where it is maps.
fn map_of(node: &Node) -> Option<&MapArray>
    ensures { MatchOption (option_copied result) (may_lie node.now physical.Map ≡ false) (λ inside. node.now ≡ Node.Map inside) }
{
    match node {
        Node::Map(inside) => Some(inside),
        _ => None,
    }
}

/// What a variant holds where it is a union.
fn union_of(node: &Node) -> Option<&UnionArray>
    ensures { MatchOption (option_copied result) (may_lie node.now physical.Union ≡ false) (λ inside. node.now ≡ Node.Union inside) }
{
    match node {
        Node::Union(inside) => Some(inside),
        _ => None,
    }
}

impl<T: PrimitiveKind> Downcast for PrimitiveArray<T> {
    ghost layout = { physical.Primitive T.PRIMITIVE };

    fn downcast_ref(any: &AnyArray) -> Option<&PrimitiveArray<T>> {
        let flat = childless(any)?;
        flat.node.lies();
        T::downcast_ref(primitive_of(&flat.node)?)
    }
}

impl Downcast for NullArray {
    ghost layout = { physical.Null };

    fn downcast_ref(any: &AnyArray) -> Option<&NullArray> {
        let flat = childless(any)?;
        flat.node.lies();
        null_of(&flat.node)
    }
}

impl Downcast for BooleanArray {
    ghost layout = { physical.Boolean };

    fn downcast_ref(any: &AnyArray) -> Option<&BooleanArray> {
        let flat = childless(any)?;
        flat.node.lies();
        boolean_of(&flat.node)
    }
}

impl Downcast for BinaryArray<i32> {
    ghost layout = { physical.Binary };

    fn downcast_ref(any: &AnyArray) -> Option<&BinaryArray<i32>> {
        let flat = childless(any)?;
        flat.node.lies();
        binary_of(&flat.node)
    }
}

impl Downcast for BinaryArray<i64> {
    ghost layout = { physical.LargeBinary };

    fn downcast_ref(any: &AnyArray) -> Option<&BinaryArray<i64>> {
        let flat = childless(any)?;
        flat.node.lies();
        large_binary_of(&flat.node)
    }
}

impl Downcast for FixedSizeBinaryArray {
    ghost layout = { physical.FixedSizeBinary };

    fn downcast_ref(any: &AnyArray) -> Option<&FixedSizeBinaryArray> {
        let flat = childless(any)?;
        flat.node.lies();
        fixed_size_binary_of(&flat.node)
    }
}

impl Downcast for Utf8Array<i32> {
    ghost layout = { physical.Utf8 };

    fn downcast_ref(any: &AnyArray) -> Option<&Utf8Array<i32>> {
        let flat = childless(any)?;
        flat.node.lies();
        utf8_of(&flat.node)
    }
}

impl Downcast for Utf8Array<i64> {
    ghost layout = { physical.LargeUtf8 };

    fn downcast_ref(any: &AnyArray) -> Option<&Utf8Array<i64>> {
        let flat = childless(any)?;
        flat.node.lies();
        large_utf8_of(&flat.node)
    }
}

impl Downcast for FixedSizeListArray {
    ghost layout = { physical.FixedSizeList };

    fn downcast_ref(any: &AnyArray) -> Option<&FixedSizeListArray> {
        any.node.lies();
        let array = fixed_size_list_of(&any.node)?;
        array.lies();
        Some(array)
    }
}

impl Downcast for StructArray {
    ghost layout = { physical.Struct };

    fn downcast_ref(any: &AnyArray) -> Option<&StructArray> {
        any.node.lies();
        let array = struct_of(&any.node)?;
        array.lies();
        Some(array)
    }
}

impl Downcast for MapArray {
    ghost layout = { physical.Map };

    fn downcast_ref(any: &AnyArray) -> Option<&MapArray> {
        any.node.lies();
        let array = map_of(&any.node)?;
        array.whole();
        Some(array)
    }
}

impl Downcast for UnionArray {
    ghost layout = { physical.Union };

    fn downcast_ref(any: &AnyArray) -> Option<&UnionArray> {
        any.node.lies();
        let array = union_of(&any.node)?;
        array.lies();
        Some(array)
    }
}
