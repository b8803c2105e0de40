//! What keeps a schema from being sealed.
ghost use Rattle.std.specs.Prelude.{◌≡◌, map, true};
ghost use Rattle.tables_chunks.specs.ipc_format.columns.Sealing.{any_bars, first_bar, no_bars};
ghost use Rattle.tables_chunks.specs.ipc_format.columns.Sealing as sealing;
ghost use Rattle.tables_chunks.specs.ipc_format.columnar_memory.declared.DataType.TheOpen as layer;
ghost use Rattle.tables_chunks.specs.ipc_format.Seals.{is_sealable};
ghost use Rattle.tables_rows.specs.Bars.{bar_of, bars_in, both_bars, field_bars, name_of};
ghost use Rattle.std.specs.Option.{option_map};

use columnar_memory_types::{DataType, Field, Schema};
use tables_chunks::{SealBar, can_write};

/// Which of the bars stand in a type, or in several.
#[derive(Clone, Copy, Debug)]
struct Standing {
    has_map: bool,
    has_union: bool,
    /// A dictionary whose keys have the order of its values.
    has_ordered: bool,
    /// A struct without fields.
    has_empty: bool,
}

/// Why a schema may not be sealed: the first of the bars, in the order of `SealBar`, that stands anywhere in it, in extensions and values of
/// dictionaries too, or that it isn't writable; and none where it may be sealed. No memory is taken.
#[tactic(auto, using(crate::proofs::SchemaBars::schema_bars_are))]
pub fn seal_bar(schema: &Schema) -> Option<SealBar>
    ensures { result ≡ bar_of schema.now }
{
    first_of(bars_of_fields(schema.fields.as_slice()), can_write(schema))
}

/// Whether a schema may be sealed. No memory is taken.
pub fn can_seal(schema: &Schema) -> bool
    ensures { result ≡ is_sealable schema.now }
{
    seal_bar(schema).is_none()
}

/// The first of the bars.
fn first_of(found: Standing, is_writable: bool) -> Option<SealBar>
    ensures { result ≡ option_map name_of (first_bar (bars_in found) is_writable) }
{
    if found.has_map {
        Some(SealBar::Map)
    } else if found.has_union {
        Some(SealBar::Union)
    } else if found.has_ordered {
        Some(SealBar::OrderedDictionary)
    } else if found.has_empty {
        Some(SealBar::EmptyStruct)
    } else if is_writable {
        None
    } else {
        Some(SealBar::NotWritable)
    }
}

fn none() -> Standing
    ensures { bars_in result ≡ no_bars }
{
    Standing {
        has_map: false,
        has_union: false,
        has_ordered: false,
        has_empty: false,
    }
}

fn both(left: Standing, right: Standing) -> Standing
    ensures { bars_in result ≡ both_bars (bars_in left) (bars_in right) }
{
    Standing {
        has_map: left.has_map || right.has_map,
        has_union: left.has_union || right.has_union,
        has_ordered: left.has_ordered || right.has_ordered,
        has_empty: left.has_empty || right.has_empty,
    }
}

/// The bars of a type, at every depth.
#[cycle(bars)]
fn bars_of(data_type: &DataType) -> Standing
    ensures { bars_in result ≡ sealing.bars_of data_type.now }
{
    match data_type {
        DataType::List(item) => bars_of_field(item.get()),
        DataType::LargeList(item) => bars_of_field(item.get()),
        DataType::FixedSizeList(item, _) => bars_of_field(item.get()),
        DataType::Map(entry, _) => Standing {
            has_map: true,
            ..bars_of_field(entry.get())
        },
        DataType::Struct(fields) => bars_of_struct(fields.as_slice()),
        DataType::Union(fields, _, _) => Standing {
            has_union: true,
            ..bars_of_fields(fields.as_slice())
        },
        DataType::Dictionary(_, value, is_ordered) => {
            let value = bars_of(value.get());
            Standing {
                has_ordered: value.has_ordered || *is_ordered,
                ..value
            }
        }
        DataType::Extension(_, inner, _) => bars_of(inner.get()),
        _ => none(),
    }
}

#[cycle(bars)]
fn bars_of_field(field: &Field) -> Standing
    ensures { bars_in result ≡ field_bars field.now }
{
    bars_of(&field.data_type)
}

#[cycle(bars)]
fn bars_of_struct(fields: &[Field]) -> Standing
    ensures { bars_in result ≡ sealing.bars_step (layer.Struct (map field_bars fields.now)) }
{
    if fields.is_empty() {
        Standing {
            has_empty: true,
            ..none()
        }
    } else {
        bars_of_fields(fields)
    }
}

/// The bars of the types of some fields.
#[cycle(bars)]
fn bars_of_fields(fields: &[Field]) -> Standing
    ensures { bars_in result ≡ any_bars (map field_bars fields.now) }
{
    let mut all = none();
    for k in 0..fields.len() {
        all = both(all, bars_of_field(&fields[k]));
    }
    all
}
