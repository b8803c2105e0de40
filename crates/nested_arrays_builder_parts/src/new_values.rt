//! Values of a type before any slot is pushed.
ghost use Rattle.std.specs.Prelude.{◌≡◌, ◌⊎◌, [], MatchResult, true, false};
ghost use Rattle.nested_arrays_core.specs.arrays.columnar_memory.Error.{IsInvalidArgument, IsNotYetImplemented, IsOutOfMemory};
ghost use Rattle.nested_arrays_core.specs.arrays.columnar_memory.Layouts.{physical_type};
ghost use Rattle.nested_arrays_core.specs.arrays.columnar_memory.declared.PhysicalType.TheVariants as physical;
ghost use Rattle.nested_arrays_builder_parts.specs.Growing.{whole};
ghost use Rattle.nested_arrays_builder_parts.specs.GrowingNodes.{growing_of};
ghost use Rattle.nested_arrays_builder_parts.specs.NewValues.{is_float, BeginsFor, IsNodeFor};

use crate::strings::Strings;
use crate::values::{Values, ValuesNode};
use nested_arrays_core::arrays::columnar_memory::{
    DataType, Error, MutableBitmap, PhysicalType, PrimitiveType, Result,
};
use nested_arrays_core::arrays::flat::FixedSizeBinaryArray;
use std::alloc::Global;

impl Values {
    /// No values of a data type without children.
    ///
    /// # Errors
    /// `NotYetImplemented`: the type is of floats.
    /// `InvalidArgumentError`: the type has children, or byte strings of no bytes.
    /// `OutOfMemory`: the first offset found no memory.
    pub fn new(alloc: Global, data_type: &DataType) -> Result<Self>
        ensures { BeginsFor data_type.now result }
    {
        let node = new_node(alloc, data_type)?;
        Ok(Values { node })
    }
}

/// The node of a data type.
// match table: an arm for each layout.
#[tactic(auto, using(crate::proofs::NewNodes::nodes))]
fn new_node(alloc: Global, data_type: &DataType) -> Result<ValuesNode>
    ensures { IsNodeFor data_type.now result }
{
    match data_type.to_physical_type() {
        PhysicalType::Null => Ok(ValuesNode::Nulls),
        PhysicalType::Boolean => Ok(ValuesNode::Truths(MutableBitmap::new(alloc))),
        PhysicalType::Primitive(kind) => new_numbers(alloc, kind),
        PhysicalType::Binary => Ok(ValuesNode::Binary(Strings::new(alloc)?)),
        PhysicalType::LargeBinary => Ok(ValuesNode::LargeBinary(Strings::new(alloc)?)),
        PhysicalType::FixedSizeBinary => new_sized(alloc, data_type),
        PhysicalType::Utf8 => Ok(ValuesNode::Utf8(Strings::new(alloc)?)),
        PhysicalType::LargeUtf8 => Ok(ValuesNode::LargeUtf8(Strings::new(alloc)?)),
        PhysicalType::List
        | PhysicalType::FixedSizeList
        | PhysicalType::LargeList
        | PhysicalType::Struct
        | PhysicalType::Union
        | PhysicalType::Map
        | PhysicalType::Dictionary(_) => Err(Error::InvalidArgumentError(
            "a data type with children",
        )),
    }
}

/// The node of numbers of a kind.
// match table: an arm for each kind.
fn new_numbers(alloc: Global, kind: PrimitiveType) -> Result<ValuesNode>
    ensures { MatchResult result (λ node. (growing_of node ≡ whole kind []) × (is_float kind ≡ false))
        (λ e. IsNotYetImplemented e × (is_float kind ≡ true)) }
{
    match kind {
        PrimitiveType::Int8 => Ok(ValuesNode::Int8(Vec::new(alloc))),
        PrimitiveType::Int16 => Ok(ValuesNode::Int16(Vec::new(alloc))),
        PrimitiveType::Int32 => Ok(ValuesNode::Int32(Vec::new(alloc))),
        PrimitiveType::Int64 => Ok(ValuesNode::Int64(Vec::new(alloc))),
        PrimitiveType::Int128 => Ok(ValuesNode::Int128(Vec::new(alloc))),
        PrimitiveType::Int256 => Ok(ValuesNode::Int256(Vec::new(alloc))),
        PrimitiveType::UInt8 => Ok(ValuesNode::UInt8(Vec::new(alloc))),
        PrimitiveType::UInt16 => Ok(ValuesNode::UInt16(Vec::new(alloc))),
        PrimitiveType::UInt32 => Ok(ValuesNode::UInt32(Vec::new(alloc))),
        PrimitiveType::UInt64 => Ok(ValuesNode::UInt64(Vec::new(alloc))),
        PrimitiveType::DaysMs => Ok(ValuesNode::DaysMs(Vec::new(alloc))),
        PrimitiveType::MonthDayNano => Ok(ValuesNode::MonthsDaysNs(Vec::new(alloc))),
        PrimitiveType::Float16 | PrimitiveType::Float32 | PrimitiveType::Float64 => Err(
            Error::NotYetImplemented("floats"),
        ),
    }
}

/// The node of byte strings of a type's size.
#[tactic(auto, using(crate::proofs::NewNodes::nodes))]
fn new_sized(alloc: Global, data_type: &DataType) -> Result<ValuesNode>
    requires { physical_type data_type.now ≡ physical.FixedSizeBinary }
    ensures { IsNodeFor data_type.now result }
{
    let size = FixedSizeBinaryArray::get_size(data_type);
    if size == 0 {
        return Err(Error::InvalidArgumentError("byte strings of no bytes"));
    }
    Ok(ValuesNode::FixedSizeBinary(size, Vec::new(alloc)))
}
