// What the texts of types, fields and schemas are, handed to proofs.
ghost use Rattle.std.specs.Prelude.{◌≡◌, true, map};
ghost use Rattle.columnar_memory_types.specs.Texts.{HasTexts, are_true, has_texts, is_text_or_none, type_has_texts};

use crate::Text;
use crate::data_type::{DataType, Field};
use crate::schema::Schema;

impl DataType {
    /// Hands to a proof that each name, key and value of this type is UTF-8, at any depth, and that keys ascend. It changes nothing.
    pub fn whole(&self)
        ensures { type_has_texts self.now ≡ true }
    {
        whole_type(self);
    }
}

impl Field {
    /// Hands to a proof that each name, key and value of this field is UTF-8, at any depth, and that keys ascend. It changes nothing.
    pub fn whole(&self)
        ensures { has_texts self.now ≡ true }
    {
        whole_field(self);
    }
}

impl Schema {
    /// Hands to a proof that each name, key and value of this schema is UTF-8, at any depth, and that keys ascend. It changes nothing.
    pub fn whole(&self)
        ensures { HasTexts self.now }
    {
        whole_fields(self.fields.as_slice());
        self.metadata.whole();
    }
}

/// A text that may be absent.
fn whole_text(text: &Option<Text>)
    ensures { is_text_or_none text.now ≡ true }
{
    if let Some(text) = text {
        text.whole();
    }
}

// match table: an arm for each type that has texts or types below it.
#[cycle(wholeness)]
fn whole_type(data_type: &DataType)
    ensures { type_has_texts data_type.now ≡ true }
{
    match data_type {
        DataType::Timestamp(_, zone) => whole_text(zone),
        DataType::List(item) => whole_field(item.get()),
        DataType::FixedSizeList(item, _) => whole_field(item.get()),
        DataType::LargeList(item) => whole_field(item.get()),
        DataType::Struct(fields) => whole_fields(fields.as_slice()),
        DataType::Union(fields, _, _) => whole_fields(fields.as_slice()),
        DataType::Map(entry, _) => whole_field(entry.get()),
        DataType::Dictionary(_, value, _) => whole_type(value.get()),
        DataType::Extension(name, inner, more) => {
            name.whole();
            whole_text(more);
            whole_type(inner.get());
        }
        DataType::Null
        | DataType::Boolean
        | DataType::Int8
        | DataType::Int16
        | DataType::Int32
        | DataType::Int64
        | DataType::UInt8
        | DataType::UInt16
        | DataType::UInt32
        | DataType::UInt64
        | DataType::Float16
        | DataType::Float32
        | DataType::Float64
        | DataType::Date32
        | DataType::Date64
        | DataType::Time32(_)
        | DataType::Time64(_)
        | DataType::Duration(_)
        | DataType::Interval(_)
        | DataType::Binary
        | DataType::FixedSizeBinary(_)
        | DataType::LargeBinary
        | DataType::Utf8
        | DataType::LargeUtf8
        | DataType::Decimal(_, _)
        | DataType::Decimal256(_, _) => {}
    }
}

#[cycle(wholeness)]
fn whole_field(field: &Field)
    ensures { has_texts field.now ≡ true }
{
    field.name.whole();
    field.metadata.whole();
    whole_type(&field.data_type);
}

#[cycle(wholeness)]
fn whole_fields(fields: &[Field])
    ensures { are_true (map has_texts fields.now) ≡ true }
{
    for field in fields {
        whole_field(field);
    }
}
