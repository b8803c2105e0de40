ghost use Rattle.std.specs.Prelude.{◌≡◌};
ghost use Rattle.std.specs.Option.{option_map};
ghost use Rattle.ipc_format_grammar.specs.Types as kinds;
ghost use Rattle.ipc_format_metadata.specs.Views.{tag_view};

use crate::tag_numbers;

/// The kinds of types in metadata (Schema.fbs, union `Type`).
#[derive(Clone, Copy, Debug, PartialEq, Eq)]
pub enum Tag {
    Null,
    Int,
    FloatingPoint,
    Binary,
    Utf8,
    Bool,
    Decimal,
    Date,
    Time,
    Timestamp,
    Interval,
    List,
    Struct,
    Union,
    FixedSizeBinary,
    FixedSizeList,
    Map,
    Duration,
    LargeBinary,
    LargeUtf8,
    LargeList,
}

/// The tag of a number, if it is one.
pub fn tag_of(number: u8) -> Option<Tag>
    ensures { option_map tag_view result ≡ kinds.tag_of number }
{
    match number {
        tag_numbers::TYPE_NULL => Some(Tag::Null),
        tag_numbers::TYPE_INT => Some(Tag::Int),
        tag_numbers::TYPE_FLOATING_POINT => Some(Tag::FloatingPoint),
        tag_numbers::TYPE_BINARY => Some(Tag::Binary),
        tag_numbers::TYPE_UTF8 => Some(Tag::Utf8),
        tag_numbers::TYPE_BOOL => Some(Tag::Bool),
        tag_numbers::TYPE_DECIMAL => Some(Tag::Decimal),
        tag_numbers::TYPE_DATE => Some(Tag::Date),
        tag_numbers::TYPE_TIME => Some(Tag::Time),
        tag_numbers::TYPE_TIMESTAMP => Some(Tag::Timestamp),
        tag_numbers::TYPE_INTERVAL => Some(Tag::Interval),
        tag_numbers::TYPE_LIST => Some(Tag::List),
        tag_numbers::TYPE_STRUCT => Some(Tag::Struct),
        tag_numbers::TYPE_UNION => Some(Tag::Union),
        tag_numbers::TYPE_FIXED_SIZE_BINARY => Some(Tag::FixedSizeBinary),
        tag_numbers::TYPE_FIXED_SIZE_LIST => Some(Tag::FixedSizeList),
        tag_numbers::TYPE_MAP => Some(Tag::Map),
        tag_numbers::TYPE_DURATION => Some(Tag::Duration),
        tag_numbers::TYPE_LARGE_BINARY => Some(Tag::LargeBinary),
        tag_numbers::TYPE_LARGE_UTF8 => Some(Tag::LargeUtf8),
        tag_numbers::TYPE_LARGE_LIST => Some(Tag::LargeList),
        _ => None,
    }
}
