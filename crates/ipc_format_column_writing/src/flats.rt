//! Columns of arrays without children, as they are written.
ghost use Rattle.std.specs.Prelude.{◌+◌, ◌≤◌};
ghost use Rattle.nested_arrays_core.specs.StoredColumns.{column_len};
ghost use Rattle.ipc_format_column_reading.specs.column_bytes.Bodies.{Adds, parts_of};
ghost use Rattle.ipc_format_column_reading.specs.column_bytes.grammar.StoredEncoding.{encode_range};

use ipc_format_column_reading::column_bytes::Body;
use ipc_format_column_reading::column_bytes::columnar_memory::Result;
use nested_arrays_core::{AnyPrimitive, FixedSizeBinaryArray, FlatArray, FlatNode, PrimitiveNode};

/// Adds the `count` slots from slot `first` on of an array of numbers of any kind.
#[tactic(auto, using(crate::proofs::Passed::primitive_len))]
pub(crate) fn write_numbers(
    array: &AnyPrimitive,
    first: usize,
    count: usize,
    body: &mut Body,
    is_little_endian: bool,
) -> Result<()>
    requires { first + count ≤ column_len array.now }
    ensures { Adds result (parts_of body.old) (parts_of body.new) (encode_range is_little_endian array.now first count) }
{
    match &array.node {
        PrimitiveNode::Int8(array) => body.add_primitive(array, first, count, is_little_endian),
        PrimitiveNode::Int16(array) => body.add_primitive(array, first, count, is_little_endian),
        PrimitiveNode::Int32(array) => body.add_primitive(array, first, count, is_little_endian),
        PrimitiveNode::Int64(array) => body.add_primitive(array, first, count, is_little_endian),
        PrimitiveNode::Int128(array) => body.add_primitive(array, first, count, is_little_endian),
        PrimitiveNode::Int256(array) => body.add_primitive(array, first, count, is_little_endian),
        PrimitiveNode::UInt8(array) => body.add_primitive(array, first, count, is_little_endian),
        PrimitiveNode::UInt16(array) => body.add_primitive(array, first, count, is_little_endian),
        PrimitiveNode::UInt32(array) => body.add_primitive(array, first, count, is_little_endian),
        PrimitiveNode::UInt64(array) => body.add_primitive(array, first, count, is_little_endian),
        PrimitiveNode::DaysMs(array) => body.add_primitive(array, first, count, is_little_endian),
        PrimitiveNode::MonthsDaysNs(array) => {
            body.add_primitive(array, first, count, is_little_endian)
        }
    }
}

/// Adds the `count` slots from slot `first` on of an array of byte strings of one size: the node, the mask and the bytes.
fn write_fixed_size_binary(
    array: &FixedSizeBinaryArray,
    first: usize,
    count: usize,
    body: &mut Body,
    is_little_endian: bool,
) -> Result<()>
    requires { first + count ≤ column_len array.now }
    ensures { Adds result (parts_of body.old) (parts_of body.new) (encode_range is_little_endian array.now first count) }
{
    array.whole();
    let size = array.size();
    let bytes = array.values().as_slice();
    let _bytes = bytes.len();
    body.add_slots(array.validity(), first, count)?;
    body.add_bytes(&bytes[size * first..size * first + size * count])
}

/// Adds the `count` slots from slot `first` on of an array without children.
#[tactic(auto, using(crate::proofs::Passed::strings_len))]
pub(crate) fn write_flat(
    array: &FlatArray,
    first: usize,
    count: usize,
    body: &mut Body,
    is_little_endian: bool,
) -> Result<()>
    requires { first + count ≤ column_len array.now }
    ensures { Adds result (parts_of body.old) (parts_of body.new) (encode_range is_little_endian array.now first count) }
{
    match &array.node {
        FlatNode::Null(array) => {
            array.holds_nulls();
            body.add_node(count, count)
        }
        FlatNode::Boolean(array) => body.add_boolean(array, first, count, is_little_endian),
        FlatNode::Primitive(array) => write_numbers(array, first, count, body, is_little_endian),
        FlatNode::Binary(array) => body.add_binary(array, first, count, is_little_endian),
        FlatNode::LargeBinary(array) => body.add_binary(array, first, count, is_little_endian),
        FlatNode::FixedSizeBinary(array) => {
            write_fixed_size_binary(array, first, count, body, is_little_endian)
        }
        FlatNode::Utf8(array) => body.add_utf8(array, first, count, is_little_endian),
        FlatNode::LargeUtf8(array) => body.add_utf8(array, first, count, is_little_endian),
    }
}
