//! Columns of every type.
ghost use Rattle.std.specs.Prelude.{◌≡◌, ◌+◌, length, map};
ghost use Rattle.columnar_memory_types.specs.declared.data_type.Field.{out-Field};
ghost use Rattle.ipc_format_column_bytes.specs.streams.grammar.Layouts.{node_count, buffer_count, total, union_parts};
ghost use Rattle.ipc_format_column_bytes.specs.streams.messages.MessageViews.{version_view};
ghost use Rattle.ipc_format_column_reading.specs.Queues.{Skips, field_nodes_of, field_buffers_of};

use crate::binary::skip_binary;
use crate::boolean::skip_boolean;
use crate::dictionary::skip_dictionary;
use crate::fixed_size_binary::skip_fixed_size_binary;
use crate::primitive::skip_primitive;
use crate::queues::skip_own;
use crate::utf8::skip_utf8;
use ipc_format_column_bytes::streams::columnar_memory::{DataType, Field, Result, UnionMode};
use ipc_format_column_bytes::streams::messages::{Buffer, FieldNode, MetadataVersion};
use std::collections::VecDeque;

/// How many buffers of its own a union has. Before V5 it has a first one more.
fn union_buffers(version: MetadataVersion, mode: UnionMode) -> usize
    ensures { result ≡ length (union_parts (version_view version) mode) }
{
    let unused = if version == MetadataVersion::V5 { 0 } else { 1 };
    match mode {
        UnionMode::Sparse => unused + 1,
        UnionMode::Dense => unused + 2,
    }
}

/// Passes over a column of a type, and the columns below it.
///
/// # Errors
/// `OutOfSpec`: there are fewer nodes or buffers than the column has. Each queue then holds an end of what it held.
// match table: how each kind of the 35 types lies.
#[cycle(skips)]
pub fn skip(
    field_nodes: &mut VecDeque<FieldNode>,
    data_type: &DataType,
    buffers: &mut VecDeque<Buffer>,
    version: MetadataVersion,
) -> Result<()>
    ensures { Skips (node_count data_type.now) (buffer_count (version_view version) data_type.now)
        field_nodes.old.items field_nodes.new.items buffers.old.items buffers.new.items result }
{
    match data_type {
        DataType::Null => skip_own(field_nodes, buffers, 0),
        DataType::Boolean => skip_boolean(field_nodes, buffers),
        DataType::Int8
        | DataType::Int16
        | DataType::Int32
        | DataType::Int64
        | DataType::UInt8
        | DataType::UInt16
        | DataType::UInt32
        | DataType::UInt64
        | DataType::Float16
        | DataType::Float32
        | DataType::Float64
        | DataType::Timestamp(_, _)
        | DataType::Date32
        | DataType::Date64
        | DataType::Time32(_)
        | DataType::Time64(_)
        | DataType::Duration(_)
        | DataType::Interval(_)
        | DataType::Decimal(_, _)
        | DataType::Decimal256(_, _) => skip_primitive(field_nodes, buffers),
        DataType::Binary | DataType::LargeBinary => skip_binary(field_nodes, buffers),
        DataType::Utf8 | DataType::LargeUtf8 => skip_utf8(field_nodes, buffers),
        DataType::FixedSizeBinary(_) => skip_fixed_size_binary(field_nodes, buffers),
        DataType::Dictionary(_, _, _) => skip_dictionary(field_nodes, buffers),
        DataType::List(item) => skip_below(field_nodes, 2, item.get(), buffers, version),
        DataType::LargeList(item) => skip_below(field_nodes, 2, item.get(), buffers, version),
        DataType::Map(entry, _) => skip_below(field_nodes, 2, entry.get(), buffers, version),
        DataType::FixedSizeList(item, _) => skip_below(
            field_nodes,
            1,
            item.get(),
            buffers,
            version,
        ),
        DataType::Struct(fields) => {
            skip_all_below(field_nodes, 1, fields.as_slice(), buffers, version)
        }
        DataType::Union(fields, _, mode) => {
            let own = union_buffers(version, *mode);
            skip_all_below(field_nodes, own, fields.as_slice(), buffers, version)
        }
        DataType::Extension(_, inner, _) => skip(field_nodes, inner.get(), buffers, version),
    }
}

/// Passes over a column with `own` buffers of its own and one column below it.
#[cycle(skips)]
fn skip_below(
    field_nodes: &mut VecDeque<FieldNode>,
    own: usize,
    field: &Field,
    buffers: &mut VecDeque<Buffer>,
    version: MetadataVersion,
) -> Result<()>
    ensures { Skips (1 + field_nodes_of field.now) (own + field_buffers_of (version_view version) field.now)
        field_nodes.old.items field_nodes.new.items buffers.old.items buffers.new.items result }
{
    skip_own(field_nodes, buffers, own)?;
    skip_field(field_nodes, field, buffers, version)
}

/// Passes over a column with `own` buffers of its own and the columns of some fields below it.
#[cycle(skips)]
fn skip_all_below(
    field_nodes: &mut VecDeque<FieldNode>,
    own: usize,
    fields: &[Field],
    buffers: &mut VecDeque<Buffer>,
    version: MetadataVersion,
) -> Result<()>
    ensures { Skips (1 + total (map field_nodes_of fields.now)) (own + total (map (field_buffers_of (version_view version)) fields.now))
        field_nodes.old.items field_nodes.new.items buffers.old.items buffers.new.items result }
{
    skip_own(field_nodes, buffers, own)?;
    skip_fields(field_nodes, fields, buffers, version)
}

#[cycle(skips)]
fn skip_field(
    field_nodes: &mut VecDeque<FieldNode>,
    field: &Field,
    buffers: &mut VecDeque<Buffer>,
    version: MetadataVersion,
) -> Result<()>
    ensures { Skips (field_nodes_of field.now) (field_buffers_of (version_view version) field.now)
        field_nodes.old.items field_nodes.new.items buffers.old.items buffers.new.items result }
{
    skip(field_nodes, &field.data_type, buffers, version)
}

#[cycle(skips)]
fn skip_fields(
    field_nodes: &mut VecDeque<FieldNode>,
    fields: &[Field],
    buffers: &mut VecDeque<Buffer>,
    version: MetadataVersion,
) -> Result<()>
    ensures { Skips (total (map field_nodes_of fields.now)) (total (map (field_buffers_of (version_view version)) fields.now))
        field_nodes.old.items field_nodes.new.items buffers.old.items buffers.new.items result }
{
    for k in 0..fields.len() {
        skip_field(field_nodes, &fields[k], buffers, version)?;
    }
    Ok(())
}
