//! Byte strings and texts put one after another.
ghost use Rattle.std.specs.Prelude.{◌≡◌, option_map, unwrap_or, []};
ghost use Rattle.std.specs.Str.{IsUtf8};
ghost use Rattle.flat_arrays_bytes.specs.Collected.{Follows};

use flat_arrays_values::columnar_memory::{Offset, Offsets, Result};
use std::convert::{AsSlice, AsStr};

/// Puts a byte string behind the others.
///
/// # Errors
/// `Overflow`: it would end past the greatest offset of the type.
/// `OutOfMemory`: it found no memory.
#[inline(always)]
pub(crate) fn push_value<O: Offset>(
    offsets: &mut Offsets<O>,
    values: &mut Vec<u8>,
    value: &[u8],
) -> Result<()>
    ensures { Follows O.greatest offsets.old values.old.items value.now offsets.new values.new.items result }
{
    offsets.try_push(value.len())?;
    values.extend_from_slice(value)?;
    Ok(())
}

/// The bytes that are stored for a slot: none for a null.
pub(crate) fn stored_bytes<T: AsSlice<u8>>(slot: &Option<T>) -> &[u8]
    ensures { result.now ≡ unwrap_or (option_map T.items slot.now) [] }
{
    match slot {
        Some(value) => value.as_slice(),
        None => &[],
    }
}

/// The same of a slot of texts.
pub(crate) fn stored_text<T: AsStr>(slot: &Option<T>) -> &[u8]
    ensures value { result.now ≡ unwrap_or (option_map T.text slot.now) [] }
    ensures text { IsUtf8 result.now }
{
    match slot {
        Some(value) => bytes_of(value.as_str()),
        None => &[],
    }
}

/// The bytes of a text.
pub(crate) fn bytes_of(text: &str) -> &[u8]
    ensures value { result.now ≡ text.now }
    ensures text { IsUtf8 result.now }
{
    text.as_bytes()
}
