//! Builders of a data type before any slot is pushed.
ghost use Rattle.std.specs.Prelude.{◌≡◌};
ghost use Rattle.nested_arrays_builder_values.specs.parts.arrays.columnar_memory.Layouts.{physical_type};
ghost use Rattle.nested_arrays_builder_values.specs.parts.arrays.columnar_memory.declared.DataType.TheOpen as layer;
ghost use Rattle.nested_arrays_builder_values.specs.parts.arrays.columns.StoredColumns.{type_layer};
ghost use Rattle.nested_arrays_builders.specs.Begun.{AreBegun, CanBegin, IsBegun, IsPlain};
ghost use Rattle.nested_arrays_builders.specs.BuiltTypes.{is_keyed};
ghost use Rattle.nested_arrays_builders.specs.Nodes.{parts_of};

use crate::any::{AnyMutableArray, Head, MutableChildren, MutableNode};
use crate::offsets::MutableListOffsets;
use nested_arrays_builder_values::columnar_memory::{
    DataType, Error, Field, IntegerType, Offsets, PhysicalType, Result,
};
use nested_arrays_builder_values::parts::{FlatBuilder, Marks};
use nested_arrays_builder_values::{CellMap, MutableKeys, SlotUses};
use std::alloc::Global;

impl AnyMutableArray {
    /// No slots of a data type.
    ///
    /// # Errors
    /// `NotYetImplemented`: floats stand in the type.
    /// `InvalidArgumentError`: a map, a union, a dictionary whose keys have the order of its values, a dictionary directly in a dictionary,
    /// byte strings or lists of size 0, or a struct without fields stands in it.
    /// `OutOfMemory`: the builder found no memory.
    // match table: an arm for each layout.
    #[cycle(beginning)]
    pub fn new(alloc: Global, data_type: &DataType) -> Result<Self>
        ensures { IsBegun data_type.now result }
    {
        match data_type.to_logical_type() {
            DataType::List(item) => new_list(alloc, data_type, item.get()),
            DataType::LargeList(item) => new_large_list(alloc, data_type, item.get()),
            DataType::FixedSizeList(item, size) => new_sized(alloc, data_type, item.get(), *size),
            DataType::Struct(fields) => new_struct(alloc, data_type, fields.as_slice()),
            DataType::Map(_, _) => Err(Error::InvalidArgumentError("a builder of maps")),
            DataType::Union(_, _, _) => Err(Error::InvalidArgumentError("a builder of unions")),
            DataType::Dictionary(key, value, is_ordered) => {
                new_dictionary(alloc, data_type, *key, value.get(), *is_ordered)
            }
            DataType::Float16 => Err(Error::NotYetImplemented("floats")),
            DataType::Float32 => Err(Error::NotYetImplemented("floats")),
            DataType::Float64 => Err(Error::NotYetImplemented("floats")),
            DataType::FixedSizeBinary(size) => new_strings(alloc, data_type, *size),
            _ => new_flat(alloc, data_type),
        }
    }
}

/// A builder of lists.
#[cycle(beginning)]
fn new_list(alloc: Global, data_type: &DataType, item: &Field) -> Result<AnyMutableArray>
    requires { type_layer data_type.now ≡ layer.List item.now }
    ensures { IsBegun data_type.now result }
{
    let values = AnyMutableArray::new(alloc, &item.data_type)?;
    values.whole();
    let offsets = MutableListOffsets::Small(Offsets::new(alloc)?);
    let values = Box::new(alloc, values)?;
    of_children(alloc, data_type, MutableChildren::List(offsets, values))
}

/// A builder of lists with large offsets.
#[cycle(beginning)]
fn new_large_list(alloc: Global, data_type: &DataType, item: &Field) -> Result<AnyMutableArray>
    requires { type_layer data_type.now ≡ layer.LargeList item.now }
    ensures { IsBegun data_type.now result }
{
    let values = AnyMutableArray::new(alloc, &item.data_type)?;
    values.whole();
    let offsets = MutableListOffsets::Large(Offsets::new(alloc)?);
    let values = Box::new(alloc, values)?;
    of_children(alloc, data_type, MutableChildren::List(offsets, values))
}

/// A builder of lists of one size.
#[cycle(beginning)]
fn new_sized(
    alloc: Global,
    data_type: &DataType,
    item: &Field,
    size: usize,
) -> Result<AnyMutableArray>
    requires { type_layer data_type.now ≡ layer.FixedSizeList item.now size }
    ensures { IsBegun data_type.now result }
{
    if size == 0 {
        return Err(Error::InvalidArgumentError("lists of no items"));
    }
    let values = AnyMutableArray::new(alloc, &item.data_type)?;
    values.whole();
    let values = Box::new(alloc, values)?;
    of_children(
        alloc,
        data_type,
        MutableChildren::FixedSizeList(size, values),
    )
}

/// A builder of structs.
#[cycle(beginning)]
fn new_struct(alloc: Global, data_type: &DataType, fields: &[Field]) -> Result<AnyMutableArray>
    requires { type_layer data_type.now ≡ layer.Struct fields.now }
    ensures { IsBegun data_type.now result }
{
    if fields.is_empty() {
        return Err(Error::InvalidArgumentError("a struct without fields"));
    }
    let children = new_each(alloc, fields)?;
    of_children(alloc, data_type, MutableChildren::Struct(children))
}

/// A builder for each field.
#[cycle(beginning)]
fn new_each(alloc: Global, fields: &[Field]) -> Result<Vec<AnyMutableArray>>
    ensures { AreBegun (λ builders. builders.items) fields.now result }
{
    let mut builders = Vec::new(alloc);
    for field in fields {
        let builder = AnyMutableArray::new(alloc, &field.data_type)?;
        builder.whole();
        builders.push(builder)?;
    }
    Ok(builders)
}

/// A builder of dictionaries.
#[cycle(beginning)]
fn new_dictionary(
    alloc: Global,
    data_type: &DataType,
    key: IntegerType,
    value: &DataType,
    is_ordered: bool,
) -> Result<AnyMutableArray>
    requires { type_layer data_type.now ≡ layer.Dictionary key value.now is_ordered }
    ensures { IsBegun data_type.now result }
{
    if is_ordered {
        return Err(Error::InvalidArgumentError("a dictionary with an order"));
    }
    if is_keyed(value) {
        return Err(Error::InvalidArgumentError("a dictionary in a dictionary"));
    }
    let values = AnyMutableArray::new(alloc, value)?;
    values.whole();
    let values = Box::new(alloc, values)?;
    let uses = SlotUses::new(alloc);
    let known = CellMap::new(alloc);
    let keys = MutableKeys { key, uses, known };
    of_children(alloc, data_type, MutableChildren::Dictionary(keys, values))
}

/// Whether a data type is a dictionary, or an extension of one.
// match table: each layout.
fn is_keyed(data_type: &DataType) -> bool
    ensures { result ≡ is_keyed (physical_type data_type.now) }
{
    match data_type.to_physical_type() {
        PhysicalType::Dictionary(_) => true,
        PhysicalType::Null
        | PhysicalType::Boolean
        | PhysicalType::Primitive(_)
        | PhysicalType::Binary
        | PhysicalType::FixedSizeBinary
        | PhysicalType::LargeBinary
        | PhysicalType::Utf8
        | PhysicalType::LargeUtf8
        | PhysicalType::List
        | PhysicalType::FixedSizeList
        | PhysicalType::LargeList
        | PhysicalType::Struct
        | PhysicalType::Union
        | PhysicalType::Map => false,
    }
}

/// A builder of byte strings of one size.
fn new_strings(alloc: Global, data_type: &DataType, size: usize) -> Result<AnyMutableArray>
    requires { type_layer data_type.now ≡ layer.FixedSizeBinary size }
    ensures { IsBegun data_type.now result }
{
    if size == 0 {
        return Err(Error::InvalidArgumentError("byte strings of no bytes"));
    }
    new_flat(alloc, data_type)
}

/// A builder without children.
fn new_flat(alloc: Global, data_type: &DataType) -> Result<AnyMutableArray>
    requires { IsPlain data_type.now }
    ensures { IsBegun data_type.now result }
{
    let builder = FlatBuilder::new(alloc, data_type.clone()?)?;
    Ok(AnyMutableArray::of(MutableNode::Flat(builder)))
}

/// A builder with children and without slots.
fn of_children(
    alloc: Global,
    data_type: &DataType,
    children: MutableChildren,
) -> Result<AnyMutableArray>
    requires { CanBegin data_type.now (parts_of children) }
    ensures { IsBegun data_type.now result }
{
    let data_type = data_type.clone()?;
    let head = Head {
        data_type,
        marks: Marks::new(alloc),
    };
    Ok(AnyMutableArray::of(MutableNode::Nested(head, children)))
}
