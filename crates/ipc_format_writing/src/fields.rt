//! Types and fields, laid with all that stands below them (Schema.fbs, `Field`).
ghost use Rattle.std.specs.Prelude.{◌≡◌, ◌∷◌, [], ◌<◌, true, length, get_or, map};
ghost use Rattle.std.specs.List.{list_all};
ghost use Rattle.ipc_format_messages.specs.columnar_memory.declared.Field.{out-Field};
ghost use Rattle.ipc_format_messages.specs.flatbuffers.Laying as layout;
ghost use Rattle.ipc_format_messages.specs.flatbuffers.Views.{Lays, piece_view};
ghost use Rattle.ipc_format_messages.specs.flatbuffers.Objects.{piece_of, references};
ghost use Rattle.ipc_format_messages.specs.grammar.Schemas.{ids, no_ids};
ghost use Rattle.ipc_format_messages.specs.grammar.SchemaObjects as objects;
ghost use Rattle.ipc_format_messages.specs.grammar.Writable.{Report, report_of};
ghost use Rattle.ipc_format_messages.specs.metadata.Reports.{field_report};
ghost use Rattle.ipc_format_messages.specs.metadata.Views.{ids_views};
ghost use Rattle.ipc_format_writing.specs.Pieces as pieces;
ghost use Rattle.ipc_format_writing.specs.Pieces.{LaysIf, LaysType, piece_if, field_told};

use crate::beside::first_beside;
use crate::kinds::kind_of;
use crate::tables::{lay_integer, lay_type_table, truth_byte};
use crate::written_pairs::{Named, lay_field_pairs, optional};
use ipc_format_messages::columnar_memory::{DataType, Field, IntegerType, Metadata, Text};
use ipc_format_messages::flatbuffers::{Laid, LayError, Slot, lay_references, lay_table, lay_text};
use ipc_format_messages::metadata::IpcField;
use std::alloc::Global;

/// A type as its field tells it.
#[derive(Debug, Drop)]
struct LaidType<'a> {
    tag: u8,
    table: Laid,
    /// The vector of the fields below the type.
    children: Laid,
    /// The type of a dictionary's keys, and whether its values are ordered.
    dictionary: Option<(IntegerType, bool)>,
    extension: Option<Named<'a>>,
}

/// A type's own table over the fields below it.
fn over<'a>(
    alloc: Global,
    data_type: &'a DataType,
    children: Laid,
) -> Result<LaidType<'a>, LayError>
    requires { (report_of data_type.now).is_allowed ≡ true }
    ensures { LaysType result (pieces.parts_over (objects.told_of data_type.now no_ids) (piece_view children)) }
{
    let kind = kind_of(data_type);
    let table = lay_type_table(alloc, &kind.table)?;
    Ok(LaidType {
        tag: kind.tag,
        table,
        children,
        dictionary: None,
        extension: None,
    })
}

/// A DictionaryEncoding, absent where the type has no dictionary. Without an id beside it the id is 0.
fn lay_encoding(
    alloc: Global,
    dictionary: Option<(IntegerType, bool)>,
    own: Option<i64>,
) -> Result<Option<Laid>, LayError>
    ensures { LaysIf result (piece_if (objects.encoding_object dictionary own)) }
{
    let Some((keys, is_ordered)) = dictionary else {
        return Ok(None);
    };
    let keys = lay_integer(alloc, keys)?;
    let slots = [
        Slot::Long(own.unwrap_or(0).cast_unsigned()),
        Slot::Refers(&keys),
        Slot::Byte(truth_byte(is_ordered)),
        Slot::Short(0),
    ];
    Ok(Some(lay_table(alloc, &slots)?))
}

/// A Field table over its type.
fn lay_field_table(
    alloc: Global,
    field: &Field,
    laid: &LaidType<'_>,
    own: Option<i64>,
) -> Result<Laid, LayError>
    ensures { Lays result (layout.table_piece (pieces.field_slots (out-Field field.now).name (out-Field field.now).is_nullable (out-Field
        field.now).metadata (pieces.type_view laid.now) own)) }
{
    let name = lay_text(alloc, field.name.as_str().as_bytes())?;
    let encoding = lay_encoding(alloc, laid.dictionary, own)?;
    let metadata = lay_field_pairs(alloc, laid.extension, &field.metadata)?;
    let slots = [
        Slot::Refers(&name),
        Slot::Byte(truth_byte(field.is_nullable)),
        Slot::Byte(laid.tag),
        Slot::Refers(&laid.table),
        optional(&encoding),
        Slot::Refers(&laid.children),
        optional(&metadata),
    ];
    lay_table(alloc, &slots)
}

/// Each of some fields is allowed where all are. A caller has this law by calling it.
#[tactic(auto, using(crate::proofs::Allowed::field_passes))]
fn each_is_allowed(fields: &[Field], k: usize, field: &Field)
    requires within { k < length fields.now }
    requires here { field.now ≡ get_or fields.now k field.now }
    requires all { list_all (λ (report : Report). report.is_allowed) (map field_report fields.now) ≡ true }
    ensures { (field_report field.now).is_allowed ≡ true }
{}

#[cycle(fields)]
fn lay_type<'a>(
    alloc: Global,
    data_type: &'a DataType,
    below: &[IpcField],
) -> Result<LaidType<'a>, LayError>
    requires { (report_of data_type.now).is_allowed ≡ true }
    ensures { LaysType result (pieces.parts_of (objects.told_of data_type.now (ids_views below.now))) }
{
    match data_type {
        DataType::Dictionary(key, value, is_ordered) => {
            let mut laid = lay_type(alloc, value.get(), below)?;
            laid.dictionary = Some((*key, *is_ordered));
            Ok(laid)
        }
        DataType::Extension(name, inner, metadata) => {
            let mut laid = lay_type(alloc, inner.get(), below)?;
            laid.extension = Some(Named { name, metadata });
            Ok(laid)
        }
        DataType::List(item)
        | DataType::LargeList(item)
        | DataType::FixedSizeList(item, _)
        | DataType::Map(item, _) => over(alloc, data_type, lay_single(alloc, item.get(), below)?),
        DataType::Struct(fields) | DataType::Union(fields, _, _) => {
            over(
                alloc,
                data_type,
                lay_fields(alloc, fields.as_slice(), below)?,
            )
        }
        _ => over(alloc, data_type, lay_references(alloc, &[])?),
    }
}

#[cycle(fields)]
fn lay_field(
    alloc: Global,
    field: &Field,
    own: Option<i64>,
    below: &[IpcField],
) -> Result<Laid, LayError>
    requires { (field_report field.now).is_allowed ≡ true }
    ensures { Lays result (piece_of (field_told field.now (ids own (ids_views below.now)))) }
{
    let laid = lay_type(alloc, &field.data_type, below)?;
    lay_field_table(alloc, field, &laid, own)
}

/// The vector of a single field.
#[cycle(fields)]
fn lay_single(alloc: Global, field: &Field, beside: &[IpcField]) -> Result<Laid, LayError>
    requires { (field_report field.now).is_allowed ≡ true }
    ensures { Lays result (piece_of (references (objects.objects_of (field_told field.now ∷ []) (ids_views beside.now)))) }
{
    let here = first_beside(beside);
    let laid = lay_field(alloc, field, here.own, here.below)?;
    lay_references(alloc, &[laid])
}

/// The vector of some fields, each with the ids beside it.
#[cycle(fields)]
pub fn lay_fields(alloc: Global, fields: &[Field], beside: &[IpcField]) -> Result<Laid, LayError>
    requires { list_all (λ (report : Report). report.is_allowed) (map field_report fields.now) ≡ true }
    ensures { Lays result (piece_of (references (objects.objects_of (map field_told fields.now) (ids_views beside.now)))) }
{
    let mut laid = Vec::new(alloc);
    let mut rest = beside;
    for k in 0..fields.len() {
        let field = &fields[k];
        each_is_allowed(fields, k, field);
        let here = first_beside(rest);
        laid.push(lay_field(alloc, field, here.own, here.below)?)?;
        rest = here.others;
    }
    lay_references(alloc, &laid)
}
