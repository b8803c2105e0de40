//! Columns of arrays of any type, as they are written.
ghost use Rattle.std.specs.Prelude.{◌+◌, ◌≤◌};
ghost use Rattle.nested_arrays_core.specs.AnyColumns.{column_of, IsWhole};
ghost use Rattle.nested_arrays_core.specs.StoredColumns.{column_len, in_columns};
ghost use Rattle.ipc_format_column_reading.specs.column_bytes.Bodies.{Adds, parts_of};
ghost use Rattle.ipc_format_column_reading.specs.column_bytes.grammar.Encoding.{joined_columns};
ghost use Rattle.ipc_format_column_reading.specs.column_bytes.grammar.StoredEncoding.{encode_range};
ghost use Rattle.ipc_format_column_writing.specs.Parts.{HasPart, HaveParts, encode_part, encode_parts};

use crate::flats::{write_flat, write_numbers};
use crate::own::{begin_fixed_lists, begin_lists, begin_maps, begin_structs, begin_unions};
use crate::parts::Part;
use ipc_format_column_reading::column_bytes::Body;
use ipc_format_column_reading::column_bytes::columnar_memory::Result;
use nested_arrays_core::{AnyArray, DictionaryNode, Node};

/// Adds the `count` slots from slot `first` on of a dictionary: the keys alone, whose mask it has.
fn write_keys(
    node: &DictionaryNode,
    first: usize,
    count: usize,
    body: &mut Body,
    is_little_endian: bool,
) -> Result<()>
    requires whole { IsWhole (Node.Dictionary node.now) }
    requires within { first + count ≤ column_len (column_of (Node.Dictionary node.now)) }
    ensures { Adds result (parts_of body.old) (parts_of body.new) (encode_range is_little_endian (column_of (Node.Dictionary node.now)) first count) }
{
    write_numbers(&node.keys, first, count, body, is_little_endian)
}

/// Adds the `count` slots from slot `first` on of an array of any type: its node, its own buffers, and those slots of its children that these
/// slots have. Of a dictionary the keys alone.
#[cycle(writing)]
pub(crate) fn write_range(
    array: &AnyArray,
    first: usize,
    count: usize,
    body: &mut Body,
    is_little_endian: bool,
) -> Result<()>
    requires { first + count ≤ column_len array.now }
    ensures { Adds result (parts_of body.old) (parts_of body.new) (encode_range is_little_endian array.now first count) }
{
    match &array.node {
        Node::Flat(array) => write_flat(array, first, count, body, is_little_endian),
        Node::List(node) => {
            let (start, len) = begin_lists(node, first, count, body, is_little_endian)?;
            write_range(&node.values, start, len, body, is_little_endian)
        }
        Node::FixedSizeList(array) => {
            let (start, len) = begin_fixed_lists(array, first, count, body, is_little_endian)?;
            write_range(array.values(), start, len, body, is_little_endian)
        }
        Node::Struct(array) => {
            begin_structs(array, first, count, body, is_little_endian)?;
            write_children(
                array.values(),
                Part::Range(first, count),
                body,
                is_little_endian,
            )
        }
        Node::Map(array) => {
            let (start, len) = begin_maps(array, first, count, body, is_little_endian)?;
            write_range(array.field(), start, len, body, is_little_endian)
        }
        Node::Union(array) => {
            let part = begin_unions(array, first, count, body, is_little_endian)?;
            write_children(array.fields(), part, body, is_little_endian)
        }
        Node::Dictionary(node) => write_keys(node, first, count, body, is_little_endian),
    }
}

/// Adds some slots of an array of any type.
#[cycle(writing)]
fn write_part(array: &AnyArray, part: Part, body: &mut Body, is_little_endian: bool) -> Result<()>
    requires { HasPart array.now part }
    ensures { Adds result (parts_of body.old) (parts_of body.new) (encode_part is_little_endian array.now part) }
{
    match part {
        Part::All => write_range(array, 0, array.len(), body, is_little_endian),
        Part::Range(first, count) => write_range(array, first, count, body, is_little_endian),
    }
}

/// Adds some slots of each of several arrays, one array behind the other.
#[cycle(writing)]
pub(crate) fn write_children(
    arrays: &[AnyArray],
    part: Part,
    body: &mut Body,
    is_little_endian: bool,
) -> Result<()>
    requires { HaveParts (in_columns arrays.now) part }
    ensures { Adds result (parts_of body.old) (parts_of body.new) (joined_columns (encode_parts is_little_endian (in_columns arrays.now) part)) }
{
    for array in arrays {
        write_part(array, part, body, is_little_endian)?;
    }
    Ok(())
}
