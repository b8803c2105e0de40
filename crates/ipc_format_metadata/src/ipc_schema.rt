ghost use Rattle.std.specs.Prelude.{◌≡◌, ◌↔◌, [], IfOk, IsTrue};
ghost use Rattle.ipc_format_metadata.specs.declared.ipc_schema.IpcField.{out-IpcField};
ghost use Rattle.ipc_format_metadata.specs.Sameness.{same_ids, same_ids-per, same_ids-equivalence};
ghost use Rattle.ipc_format_metadata.specs.Sameness.{same_ipc_schema, same_ipc_schema-per, same_ipc_schema-equivalence};

use ipc_format_grammar::columnar_memory::Items;
use std::alloc::{AllocError, Global};

/// The dictionary ids beside a field (Schema.fbs, `DictionaryEncoding`).
#[derive(Debug, Drop)]
pub struct IpcField {
    /// Beside each field below this one; of a dictionary beside each field below its values.
    pub fields: Items<IpcField>,
    /// The id of the field's own dictionary, if it has one.
    pub dictionary_id: Option<i64>,
}

/// What a message says of a schema beside the schema itself.
#[derive(Debug, Drop)]
pub struct IpcSchema {
    /// Beside each field of the schema.
    pub fields: Items<IpcField>,
    /// Whether numbers stand with their lowest byte first.
    pub is_little_endian: bool,
}

impl IpcField {
    /// Beside a field that has no dictionary, and no field below it. It takes no memory.
    pub fn new(alloc: Global) -> Self
        ensures below { (out-IpcField result).fields ≡ [] }
        ensures own { (out-IpcField result).dictionary_id ≡ None }
    {
        IpcField {
            fields: Items::new(alloc),
            dictionary_id: None,
        }
    }
}

impl PartialEq for IpcField {
    ghost eq = { same_ids };

    ghost laws = { same_ids-per };

    fn eq(&self, other: &Self) -> bool
        ensures value { result ≡ same_ids self.now other.now }
        ensures exact { IsTrue result ↔ (self.now ≡ other.now) }
    {
        is_same_field(self, other)
    }
}

impl Eq for IpcField {
    ghost laws = { same_ids-equivalence };
}

impl PartialEq for IpcSchema {
    ghost eq = { same_ipc_schema };

    ghost laws = { same_ipc_schema-per };

    fn eq(&self, other: &Self) -> bool
        ensures value { result ≡ same_ipc_schema self.now other.now }
        ensures exact { IsTrue result ↔ (self.now ≡ other.now) }
    {
        is_same_schema(self, other)
    }
}

impl Eq for IpcSchema {
    ghost laws = { same_ipc_schema-equivalence };
}

#[tactic(auto, using(crate::proofs::SameIds::same_id))]
fn is_same_id(a: Option<i64>, b: Option<i64>) -> bool
    ensures { IsTrue result ↔ (a ≡ b) }
{
    a == b
}

#[cycle(equality)]
#[tactic(auto, using(crate::proofs::SameIds::same_parts))]
fn is_same_field(a: &IpcField, b: &IpcField) -> bool
    ensures { IsTrue result ↔ (a.now ≡ b.now) }
{
    is_same_id(a.dictionary_id, b.dictionary_id)
        && are_same_fields(a.fields.as_slice(), b.fields.as_slice())
}

#[cycle(equality)]
fn are_same_fields(a: &[IpcField], b: &[IpcField]) -> bool
    ensures { IsTrue result ↔ (a.now ≡ b.now) }
{
    if a.len() != b.len() {
        return false;
    }
    for i in 0..a.len() {
        if !is_same_field(&a[i], &b[i]) {
            return false;
        }
    }
    true
}

fn is_same_schema(a: &IpcSchema, b: &IpcSchema) -> bool
    ensures { IsTrue result ↔ (a.now ≡ b.now) }
{
    are_same_fields(a.fields.as_slice(), b.fields.as_slice())
        && a.is_little_endian == b.is_little_endian
}

impl Clone for IpcField {
    ghost is_clone = { λ a b. b ≡ a };

    fn clone(&self) -> Result<Self, AllocError> {
        copy_of_field(self)
    }
}

impl Clone for IpcSchema {
    ghost is_clone = { λ a b. b ≡ a };

    fn clone(&self) -> Result<Self, AllocError> {
        Ok(IpcSchema {
            fields: copy_of_fields(&self.fields)?,
            is_little_endian: self.is_little_endian,
        })
    }
}

#[cycle(copies)]
fn copy_of_field(field: &IpcField) -> Result<IpcField, AllocError>
    ensures { IfOk result (λ copied. copied ≡ field.now) }
{
    Ok(IpcField {
        fields: copy_of_fields(&field.fields)?,
        dictionary_id: field.dictionary_id,
    })
}

#[cycle(copies)]
fn copy_of_fields(fields: &Items<IpcField>) -> Result<Items<IpcField>, AllocError>
    ensures { IfOk result (λ copied. copied ≡ fields.now) }
{
    let mut copied = Items::new(fields.allocator());
    for field in fields.as_slice() {
        copied.push(copy_of_field(field)?)?;
    }
    Ok(copied)
}
