//! Columns that are passed over, as far as the queues have nodes and buffers for them.
ghost use Rattle.std.specs.Prelude.{◌≡◌, ◌+◌, drop, length, map};
ghost use Rattle.columnar_memory_types.specs.declared.data_type.Field.{out-Field};
ghost use Rattle.ipc_format_reading.specs.Queues.{field_buffers_of, field_nodes_of};
ghost use Rattle.ipc_format_reading.specs.grammar.Layouts.{buffer_count, node_count, total, union_parts};
ghost use Rattle.ipc_format_reading.specs.messages.MessageViews.{version_view};
ghost use Rattle.ipc_format_batch_reading.specs.PassedOver.{Passes};

use ipc_format_reading::columnar_memory::{DataType, Field, UnionMode};
use ipc_format_reading::{Buffer, FieldNode, MetadataVersion};
use std::collections::VecDeque;
use std::slice::from_ref;

/// Takes so many off the front of a queue, as far as there are any.
fn drop_front<T: Copy>(queue: &mut VecDeque<T>, count: usize)
    ensures { queue.new.items ≡ drop count queue.old.items }
{
    for _k in 0..count {
        queue.pop_front();
    }
}

/// Takes a node and `own` buffers off the fronts.
fn pass_own(field_nodes: &mut VecDeque<FieldNode>, buffers: &mut VecDeque<Buffer>, own: usize)
    ensures { Passes 1 own field_nodes.old.items field_nodes.new.items buffers.old.items buffers.new.items }
{
    drop_front(field_nodes, 1);
    drop_front(buffers, own);
}

/// How many buffers of its own a union has. Before V5 it has a first one more.
fn union_buffers(version: MetadataVersion, mode: UnionMode) -> usize
    ensures { result ≡ length (union_parts (version_view version) mode) }
{
    let unused = if version == MetadataVersion::V5 { 0 } else { 1 };
    match mode {
        UnionMode::Sparse => unused + 1,
        UnionMode::Dense => unused + 2,
    }
}

/// Passes over a column of a type, and the columns below it.
// match table: how each kind of the 35 types lies.
#[cycle(passes)]
fn pass_column(
    field_nodes: &mut VecDeque<FieldNode>,
    data_type: &DataType,
    buffers: &mut VecDeque<Buffer>,
    version: MetadataVersion,
)
    ensures { Passes (node_count data_type.now) (buffer_count (version_view version) data_type.now)
        field_nodes.old.items field_nodes.new.items buffers.old.items buffers.new.items }
{
    match data_type {
        DataType::Null => pass_own(field_nodes, buffers, 0),
        DataType::Boolean => pass_own(field_nodes, buffers, 2),
        DataType::Int8 | DataType::Int16 | DataType::Int32 | DataType::Int64 => {
            pass_own(field_nodes, buffers, 2)
        }
        DataType::UInt8 | DataType::UInt16 | DataType::UInt32 | DataType::UInt64 => {
            pass_own(field_nodes, buffers, 2)
        }
        DataType::Float16 | DataType::Float32 | DataType::Float64 => {
            pass_own(field_nodes, buffers, 2)
        }
        DataType::Timestamp(_, _) | DataType::Date32 | DataType::Date64 => {
            pass_own(field_nodes, buffers, 2)
        }
        DataType::Time32(_) | DataType::Time64(_) | DataType::Duration(_) => {
            pass_own(field_nodes, buffers, 2)
        }
        DataType::Interval(_) | DataType::Decimal(_, _) | DataType::Decimal256(_, _) => {
            pass_own(field_nodes, buffers, 2)
        }
        DataType::FixedSizeBinary(_) => pass_own(field_nodes, buffers, 2),
        DataType::Dictionary(_, _, _) => pass_own(field_nodes, buffers, 2),
        DataType::Binary | DataType::LargeBinary | DataType::Utf8 | DataType::LargeUtf8 => {
            pass_own(field_nodes, buffers, 3)
        }
        DataType::List(item) => pass_below(field_nodes, 2, item.get(), buffers, version),
        DataType::LargeList(item) => pass_below(field_nodes, 2, item.get(), buffers, version),
        DataType::Map(entry, _) => pass_below(field_nodes, 2, entry.get(), buffers, version),
        DataType::FixedSizeList(item, _) => {
            pass_below(field_nodes, 1, item.get(), buffers, version)
        }
        DataType::Struct(fields) => {
            pass_all_below(field_nodes, 1, fields.as_slice(), buffers, version)
        }
        DataType::Union(fields, _, mode) => {
            let own = union_buffers(version, *mode);
            pass_all_below(field_nodes, own, fields.as_slice(), buffers, version)
        }
        DataType::Extension(_, inner, _) => pass_column(field_nodes, inner.get(), buffers, version),
    }
}

/// Passes over a column with `own` buffers of its own and one column below it.
#[cycle(passes)]
fn pass_below(
    field_nodes: &mut VecDeque<FieldNode>,
    own: usize,
    field: &Field,
    buffers: &mut VecDeque<Buffer>,
    version: MetadataVersion,
)
    ensures { Passes (1 + field_nodes_of field.now) (own + field_buffers_of (version_view version) field.now)
        field_nodes.old.items field_nodes.new.items buffers.old.items buffers.new.items }
{
    pass_own(field_nodes, buffers, own);
    pass_field(field_nodes, field, buffers, version)
}

/// Passes over a column with `own` buffers of its own and the columns of some fields below it.
#[cycle(passes)]
fn pass_all_below(
    field_nodes: &mut VecDeque<FieldNode>,
    own: usize,
    fields: &[Field],
    buffers: &mut VecDeque<Buffer>,
    version: MetadataVersion,
)
    ensures { Passes (1 + total (map field_nodes_of fields.now)) (own + total (map (field_buffers_of (version_view version)) fields.now))
        field_nodes.old.items field_nodes.new.items buffers.old.items buffers.new.items }
{
    pass_own(field_nodes, buffers, own);
    pass_fields(field_nodes, fields, buffers, version)
}

#[cycle(passes)]
fn pass_field(
    field_nodes: &mut VecDeque<FieldNode>,
    field: &Field,
    buffers: &mut VecDeque<Buffer>,
    version: MetadataVersion,
)
    ensures { Passes (field_nodes_of field.now) (field_buffers_of (version_view version) field.now)
        field_nodes.old.items field_nodes.new.items buffers.old.items buffers.new.items }
{
    pass_column(field_nodes, &field.data_type, buffers, version)
}

/// Passes over the columns of some fields, one after another.
#[cycle(passes)]
pub(crate) fn pass_fields(
    field_nodes: &mut VecDeque<FieldNode>,
    fields: &[Field],
    buffers: &mut VecDeque<Buffer>,
    version: MetadataVersion,
)
    ensures { Passes (total (map field_nodes_of fields.now)) (total (map (field_buffers_of (version_view version)) fields.now))
        field_nodes.old.items field_nodes.new.items buffers.old.items buffers.new.items }
{
    for k in 0..fields.len() {
        pass_field(field_nodes, &fields[k], buffers, version);
    }
}
