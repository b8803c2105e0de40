//! The bytes of numbers (Arrow columnar format, "Fixed-size Primitive Layout", "Byte Order (Endianness)").
ghost use Rattle.std.specs.List.{flat_map};
ghost use Rattle.std.specs.Prelude.{◌≡◌, ◌+◌, ◌*◌, ◌≤◌, ◌++◌, length, true, false};
ghost use Rattle.std.specs.Vec.{vec_capacity, vec_len};
ghost use Rattle.ipc_format_column_bytes.specs.Appends.{Appends};
ghost use Rattle.ipc_format_column_bytes.specs.Numbers.{value_bytes};

use crate::reserved::push_bytes;
use ipc_format_streams::columnar_memory::{Error, NativeType, Result};
use std::convert::AsSlice;
use std::mem::replace;

/// Adds the bytes of numbers behind some bytes, each number by itself in the byte order.
///
/// # Errors
/// `OutOfMemory`: the bytes found no memory. Some of them may stand there.
#[tactic(auto, using(crate::proofs::Added::begins_with_itself))]
pub fn append_numbers<T: NativeType>(
    to: &mut Vec<u8>,
    values: &[T],
    is_little_endian: bool,
) -> Result<()>
    ensures { Appends result to.old.items to.new.items (flat_map (λ v. value_bytes is_little_endian T.PRIMITIVE (T.numbers v)) values.now) }
{
    let Some(size) = values.len().checked_mul(T::SIZE) else {
        return Err(Error::OutOfMemory);
    };
    to.reserve(size)?;
    let none = Vec::new(*to.allocator());
    let room = replace(to, none);
    *to = if is_little_endian {
        with_little(room, values)
    } else {
        with_big(room, values)
    };
    Ok(())
}

/// Some bytes, and those of numbers behind them, their lowest first.
fn with_little<T: NativeType>(room: Vec<u8>, values: &[T]) -> Vec<u8>
    requires { vec_len room + length values.now * T.SIZE ≤ vec_capacity room }
    ensures { result.items ≡ room.items ++ flat_map (λ v. value_bytes true T.PRIMITIVE (T.numbers v)) values.now }
{
    let mut bytes = room;
    for value in values {
        push_bytes(&mut bytes, value.to_le_bytes().as_slice());
    }
    bytes
}

/// The same with the highest bytes of each number first.
fn with_big<T: NativeType>(room: Vec<u8>, values: &[T]) -> Vec<u8>
    requires { vec_len room + length values.now * T.SIZE ≤ vec_capacity room }
    ensures { result.items ≡ room.items ++ flat_map (λ v. value_bytes false T.PRIMITIVE (T.numbers v)) values.now }
{
    let mut bytes = room;
    for value in values {
        push_bytes(&mut bytes, value.to_be_bytes().as_slice());
    }
    bytes
}
