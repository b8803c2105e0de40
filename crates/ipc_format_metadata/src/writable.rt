//! Which schemas are written and read: the limits are this library's own.
ghost use Rattle.std.specs.Prelude.{◌≡◌, ◌+◌, ◌*◌, ◌<◌, min, max, map, length, not, ◌&&◌, true};
ghost use Rattle.ipc_format_grammar.specs.Writable as writable;
ghost use Rattle.ipc_format_metadata.specs.Reports.{capped, field_report, joined_reports, report_view, shape_view, renamed, shape_by};
ghost use Rattle.std.specs.List.{list_all, list_any};
ghost use Rattle.std.specs.Ordering.{int_eq};

use ipc_format_grammar::columnar_memory::{DataType, Field, Items, Schema, TimeUnit};

/// One level more than fields may nest.
const TOO_MANY_LEVELS: u8 = 65;

/// One dictionary more than a schema may have.
const TOO_MANY_DICTIONARIES: u32 = 65537;

/// What stands at the top of a type, as far as others ask.
#[derive(Clone, Copy, Debug, PartialEq, Eq)]
enum Shape {
    Plain,
    Dictionary,
    Extension,
    StructOfTwo,
}

/// What is asked of a type. Levels and dictionaries are counted up to one more than the most.
#[derive(Clone, Copy, Debug)]
struct Report {
    is_allowed: bool,
    levels: u8,
    dictionaries: u32,
    shape: Shape,
}

/// Whether a schema is one that is written and read: each type is allowed, fields nest at most 64 deep, and at most 65,536 have dictionaries.
#[tactic(auto, unfolding(ipc_format_grammar::specs::Writable::is_writable))]
pub fn can_write(schema: &Schema) -> bool
    ensures { result ≡ writable.is_writable schema.now }
{
    let all = report_of_fields(schema.fields.as_slice());
    all.is_allowed && all.levels < TOO_MANY_LEVELS && all.dictionaries < TOO_MANY_DICTIONARIES
}

fn leaf(is_allowed: bool) -> Report
    ensures { report_view result ≡ capped (writable.leaf is_allowed) }
{
    Report {
        is_allowed,
        levels: 0,
        dictionaries: 0,
        shape: Shape::Plain,
    }
}

fn deeper(levels: u8) -> u8
    ensures { result ≡ min (levels + 1) 65 }
{
    if levels < TOO_MANY_LEVELS {
        levels + 1
    } else {
        TOO_MANY_LEVELS
    }
}

/// Two counts of dictionaries together.
fn more(a: u32, b: u32) -> u32
    ensures { result ≡ min (a + b) 65537 }
{
    if a < TOO_MANY_DICTIONARIES && b < TOO_MANY_DICTIONARIES - a {
        a + b
    } else {
        TOO_MANY_DICTIONARIES
    }
}

/// A type over one field.
fn over(is_allowed: bool, child: Report) -> Report
    ensures { report_view result ≡ record (writable.over is_allowed (report_view child)) { levels = min (child.levels + 1) 65 } }
{
    Report {
        is_allowed: is_allowed && child.is_allowed,
        levels: deeper(child.levels),
        dictionaries: child.dictionaries,
        shape: Shape::Plain,
    }
}

/// Some fields and one more.
fn with_child(all: Report, child: Report) -> Report
    ensures { report_view result ≡ capped (joined_reports (report_view all) (report_view child)) }
{
    let levels = deeper(child.levels);
    let deepest = if all.levels < levels {
        levels
    } else {
        all.levels
    };
    Report {
        is_allowed: all.is_allowed && child.is_allowed,
        levels: if deepest < TOO_MANY_LEVELS {
            deepest
        } else {
            TOO_MANY_LEVELS
        },
        dictionaries: more(all.dictionaries, child.dictionaries),
        shape: Shape::Plain,
    }
}

/// The same with a test and a shape of its own.
fn named(is_allowed: bool, shape: Shape, all: Report) -> Report
    ensures { report_view result ≡ renamed is_allowed (shape_view shape) (report_view all) }
{
    Report {
        is_allowed: is_allowed && all.is_allowed,
        levels: all.levels,
        dictionaries: all.dictionaries,
        shape,
    }
}

/// The values of a dictionary, as the dictionary.
fn encoded(value: Report) -> Report
    ensures { report_view result ≡
        record (report_view value) {
          is_allowed = value.is_allowed && not (writable.is_dictionary (shape_view value.shape));
          dictionaries = min (value.dictionaries + 1) 65537;
          shape = writable.dictionary;
        } }
{
    Report {
        is_allowed: value.is_allowed && value.shape != Shape::Dictionary,
        levels: value.levels,
        dictionaries: more(value.dictionaries, 1),
        shape: Shape::Dictionary,
    }
}

/// A type in an extension, as the extension.
fn extended(inner: Report) -> Report
    ensures { report_view result ≡
        record (report_view inner) { is_allowed = inner.is_allowed && writable.is_plain (shape_view inner.shape); shape = writable.extension } }
{
    Report {
        is_allowed: inner.is_allowed && matches!(inner.shape, Shape::Plain | Shape::StructOfTwo),
        levels: inner.levels,
        dictionaries: inner.dictionaries,
        shape: Shape::Extension,
    }
}

/// Seconds or milliseconds.
fn is_short(unit: TimeUnit) -> bool
    ensures { result ≡ writable.is_short unit }
{
    matches!(unit, TimeUnit::Second | TimeUnit::Millisecond)
}

fn fits_i32(number: usize) -> bool
    ensures { result ≡ writable.fits_i32 number }
{
    number < 2147483648
}

fn is_size(number: usize) -> bool
    ensures { result ≡ writable.is_size number }
{
    1 <= number && number < 2147483648
}

/// The shape of a struct by the number of its fields.
fn shape_of(count: usize) -> Shape
    ensures { shape_view result ≡ shape_by count }
{
    if count == 2 {
        Shape::StructOfTwo
    } else {
        Shape::Plain
    }
}

/// Whether a union's ids are as many as its children, distinct and in range; without ids there are at most 128 children.
fn are_union_ids(ids: &Option<Items<i32>>, count: usize) -> bool
    ensures { result ≡ writable.are_union_ids ids.now count }
{
    match ids {
        None => count <= 128,
        Some(ids) => {
            let ids = ids.as_slice();
            ids.len() == count && are_in_range(ids) && are_distinct(ids)
        }
    }
}

fn are_in_range(ids: &[i32]) -> bool
    ensures { result ≡ list_all writable.is_union_id ids.now }
{
    for id in ids {
        if *id < 0 || *id >= 128 {
            return false;
        }
    }
    true
}

fn contains(ids: &[i32], id: i32) -> bool
    ensures { result ≡ list_any (int_eq id) ids.now }
{
    for other in ids {
        if *other == id {
            return true;
        }
    }
    false
}

/// Whether no id stands twice. Of ids below 128 at most 129 are looked at before one stands twice.
fn are_distinct(ids: &[i32]) -> bool
    ensures { result ≡ writable.are_distinct ids.now }
{
    let mut rest = ids;
    while let Some((first, others)) = rest.split_first() {
        if contains(others, *first) {
            return false;
        }
        rest = others;
    }
    true
}

// match table: what is asked of each kind of the 35 types.
#[cycle(reports)]
fn report_of(data_type: &DataType) -> Report
    ensures { report_view result ≡ capped (writable.report_of data_type.now) }
{
    match data_type {
        DataType::Null
        | DataType::Boolean
        | DataType::Int8
        | DataType::Int16
        | DataType::Int32
        | DataType::Int64
        | DataType::UInt8
        | DataType::UInt16
        | DataType::UInt32
        | DataType::UInt64
        | DataType::Timestamp(_, _)
        | DataType::Date32
        | DataType::Date64
        | DataType::Duration(_)
        | DataType::Interval(_)
        | DataType::Binary
        | DataType::LargeBinary
        | DataType::Utf8
        | DataType::LargeUtf8 => leaf(true),
        DataType::Float16 | DataType::Float32 | DataType::Float64 => leaf(false),
        DataType::Time32(unit) => leaf(is_short(*unit)),
        DataType::Time64(unit) => leaf(!is_short(*unit)),
        DataType::FixedSizeBinary(size) => leaf(is_size(*size)),
        DataType::Decimal(precision, scale) => leaf(fits_i32(*precision) && fits_i32(*scale)),
        DataType::Decimal256(precision, scale) => leaf(fits_i32(*precision) && fits_i32(*scale)),
        DataType::List(item) => over(true, report_of_field(item.get())),
        DataType::LargeList(item) => over(true, report_of_field(item.get())),
        DataType::FixedSizeList(item, size) => over(is_size(*size), report_of_field(item.get())),
        DataType::Map(entry, _) => {
            let entry = report_of_field(entry.get());
            over(entry.shape == Shape::StructOfTwo, entry)
        }
        DataType::Struct(fields) => {
            let fields = fields.as_slice();
            named(
                1 <= fields.len(),
                shape_of(fields.len()),
                report_of_fields(fields),
            )
        }
        DataType::Union(fields, ids, _) => {
            let fields = fields.as_slice();
            let is_allowed = 1 <= fields.len() && are_union_ids(ids, fields.len());
            named(is_allowed, Shape::Plain, report_of_fields(fields))
        }
        DataType::Dictionary(_, value, _) => encoded(report_of(value.get())),
        DataType::Extension(_, inner, _) => extended(report_of(inner.get())),
    }
}

#[cycle(reports)]
fn report_of_field(field: &Field) -> Report
    ensures { report_view result ≡ capped (field_report field.now) }
{
    report_of(&field.data_type)
}

#[cycle(reports)]
fn report_of_fields(fields: &[Field]) -> Report
    ensures { report_view result ≡ capped (writable.over_all true writable.plain (map field_report fields.now)) }
{
    let mut all = leaf(true);
    for k in 0..fields.len() {
        all = with_child(all, report_of_field(&fields[k]));
    }
    all
}
