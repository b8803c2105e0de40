//! A type's own table, laid (Schema.fbs).
ghost use Rattle.std.specs.Prelude.{◌≡◌, ◌∷◌, [], IfOk, length};
ghost use Rattle.std.specs.List.{flat_map};
ghost use Rattle.std.specs.Option.{option_map};
ghost use Rattle.std.specs.Int.{w16};
ghost use Rattle.ipc_format_messages.specs.flatbuffers.Laying as layout;
ghost use Rattle.ipc_format_messages.specs.flatbuffers.Views.{Lays, piece_view};
ghost use Rattle.ipc_format_messages.specs.flatbuffers.Objects.{piece_of, elements};
ghost use Rattle.ipc_format_messages.specs.grammar.SchemaObjects as objects;
ghost use Rattle.ipc_format_writing.specs.Kinds.{table_view};
ghost use Rattle.ipc_format_writing.specs.Pieces.{LaysIf, piece_if, slot_if, number_bytes};

use crate::kinds::TypeTable;
use crate::written_pairs::optional;
use ipc_format_messages::columnar_memory::{IntegerType, Items, Text};
use ipc_format_messages::flatbuffers::{Laid, LayError, Slot, lay_elements, lay_table, lay_text};
use std::alloc::{AllocError, Global};

/// A truth value as a byte.
pub fn truth_byte(value: bool) -> u8
    ensures { result ≡ objects.truth value }
{
    if value { 1 } else { 0 }
}

fn lay_int(alloc: Global, bits: u32, is_signed: bool) -> Result<Laid, LayError>
    ensures { Lays result (piece_of (objects.int_object bits is_signed)) }
{
    lay_table(alloc, &[Slot::Int(bits), Slot::Byte(truth_byte(is_signed))])
}

/// The Int table of a dictionary's keys.
pub fn lay_integer(alloc: Global, integer: IntegerType) -> Result<Laid, LayError>
    ensures { Lays result (piece_of (objects.integer_object integer)) }
{
    match integer {
        IntegerType::Int8 => lay_int(alloc, 8, true),
        IntegerType::Int16 => lay_int(alloc, 16, true),
        IntegerType::Int32 => lay_int(alloc, 32, true),
        IntegerType::Int64 => lay_int(alloc, 64, true),
        IntegerType::UInt8 => lay_int(alloc, 8, false),
        IntegerType::UInt16 => lay_int(alloc, 16, false),
        IntegerType::UInt32 => lay_int(alloc, 32, false),
        IntegerType::UInt64 => lay_int(alloc, 64, false),
    }
}

/// A time zone, if there is one.
fn lay_text_if(alloc: Global, text: &Option<Text>) -> Result<Option<Laid>, LayError>
    ensures { LaysIf result (piece_if (objects.text_if text.now)) }
{
    match text {
        Some(text) => Ok(Some(lay_text(alloc, text.as_str().as_bytes())?)),
        None => Ok(None),
    }
}

/// The bytes of some signed numbers of four bytes.
fn bytes_of(alloc: Global, numbers: &[i32]) -> Result<Vec<u8>, AllocError>
    ensures { IfOk result (λ bytes. bytes.items ≡ flat_map number_bytes numbers.now) }
{
    let mut bytes = Vec::new(alloc);
    for number in numbers {
        bytes.extend_from_slice(&number.cast_unsigned().to_le_bytes())?;
    }
    Ok(bytes)
}

/// A vector of signed numbers of four bytes.
fn lay_numbers(alloc: Global, numbers: &[i32]) -> Result<Laid, LayError>
    ensures { Lays result (piece_of (elements (length numbers.now) (flat_map number_bytes numbers.now))) }
{
    let bytes = bytes_of(alloc, numbers)?;
    match u32::try_from(numbers.len()) {
        Ok(count) => lay_elements(alloc, count, &bytes),
        Err(_) => Err(LayError::TooLong),
    }
}

/// The ids of a union's children, if they are given.
fn lay_numbers_if(alloc: Global, numbers: &Option<Items<i32>>) -> Result<Option<Laid>, LayError>
    ensures { LaysIf result (piece_if (objects.numbers_if numbers.now)) }
{
    match numbers {
        Some(numbers) => Ok(Some(lay_numbers(alloc, numbers.as_slice())?)),
        None => Ok(None),
    }
}

/// A table of a number of two bytes and an object, if there is one.
fn lay_short_and(alloc: Global, number: u16, object: &Option<Laid>) -> Result<Laid, LayError>
    ensures { Lays result (layout.table_piece (layout.number w16 number ∷ slot_if (option_map piece_view object.now) ∷ [])) }
{
    lay_table(alloc, &[Slot::Short(number), optional(object)])
}

/// A type's own table.
pub fn lay_type_table(alloc: Global, table: &TypeTable<'_>) -> Result<Laid, LayError>
    ensures { Lays result (piece_of (table_view table.now)) }
{
    match table {
        TypeTable::Empty => lay_table(alloc, &[]),
        TypeTable::Unit(unit) => lay_table(alloc, &[Slot::Short(*unit)]),
        TypeTable::Size(size) => lay_table(alloc, &[Slot::Int(*size)]),
        TypeTable::Int { bits, is_signed } => lay_int(alloc, *bits, *is_signed),
        TypeTable::Decimal {
            precision,
            scale,
            bits,
        } => lay_table(
            alloc,
            &[Slot::Int(*precision), Slot::Int(*scale), Slot::Int(*bits)],
        ),
        TypeTable::Time { unit, bits } => {
            lay_table(alloc, &[Slot::Short(*unit), Slot::Int(*bits)])
        }
        TypeTable::Timestamp { unit, timezone } => {
            let timezone = lay_text_if(alloc, timezone)?;
            lay_short_and(alloc, *unit, &timezone)
        }
        TypeTable::Map { are_keys_sorted } => {
            lay_table(alloc, &[Slot::Byte(truth_byte(*are_keys_sorted))])
        }
        TypeTable::Union { mode, ids } => {
            let ids = lay_numbers_if(alloc, ids)?;
            lay_short_and(alloc, *mode, &ids)
        }
    }
}
