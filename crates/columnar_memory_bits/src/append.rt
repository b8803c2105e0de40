ghost use Rattle.std.specs.Prelude.{◌≡◌, ℕ, ◌+◌, ◌*◌, ◌%◌, ◌^◌, ◌<◌, ◌≤◌, ◌++◌, length, replicate, IsOk, OnOk, OnErr, vec_len, vec_capacity};
ghost use Rattle.columnar_memory_bits.specs.Bits.{IsPacked, bits_of, bit, bit_at};
ghost use Rattle.columnar_memory_bits.specs.Appends.{AppendsBits, KeepsBits};
ghost use Rattle.columnar_memory_bits.specs.Bits as format;
ghost use Rattle.columnar_memory_bits.specs.Words.{word_bits};

use crate::load::{load_word, low_bits};
use crate::utils::bytes_for;
use std::alloc::AllocError;

/// Keeps the first `len` bits of a vector, with zeros behind them in the last byte.
fn cut_bits(to: &mut Vec<u8>, len: usize)
    requires { len ≤ 8 * length to.old.items }
    ensures { KeepsBits to.old.items to.new.items len }
{
    to.truncate(bytes_for(len));
    if len % 8 > 0 {
        to[len / 8] = to[len / 8] & (u8::MAX >> (8 - len % 8));
    }
}

/// Keeps the first `len` bits of a vector: what it has behind them is cut off, and the spare bits of its last byte become zeros.
pub fn keep_bits(to: &mut Vec<u8>, len: usize)
    requires { len ≤ 8 * length to.old.items }
    ensures same { bits_of to.new.items 0 len ≡ bits_of to.old.items 0 len }
    ensures packed { IsPacked to.new.items len }
{
    cut_bits(to, len);
}

/// Adds the first `len` bits of a word in the spare bits of the last byte.
fn fill_last(to: &mut Vec<u8>, held: usize, word: u64, len: usize)
    requires packed { IsPacked to.old.items held }
    requires begun { 0 < held % 8 }
    requires room { held % 8 + len ≤ 8 }
    requires small { word < 2 ^ len }
    ensures added { AppendsBits to.old.items to.new.items held (bit word) len }
    ensures capacity { vec_capacity to.new ≡ vec_capacity to.old }
{
    to[held / 8] = to[held / 8] | ((word as u8) << (held % 8));
}

/// Adds bits behind whole bytes, where there is room for them.
fn extend_bytes(to: &mut Vec<u8>, bytes: &[u8], offset: usize, len: usize) -> Result<(), AllocError>
    requires in_range { offset + len ≤ 8 * length bytes.now }
    requires whole { offset % 8 ≡ 0 }
    requires fits { 8 * vec_len to.old + len < 2 ^ 64 }
    requires room { vec_len to.old + format.bytes_for len ≤ vec_capacity to.old }
    ensures ok { IsOk result }
    ensures added { AppendsBits to.old.items to.new.items (8 * vec_len to.old) (λ i. bit_at bytes.now (offset + i)) len }
{
    let held = 8 * to.len();
    to.extend_from_slice(&bytes[offset / 8..offset / 8 + bytes_for(len)])?;
    cut_bits(to, held + len);
    Ok(())
}

/// Adds the first `len` bits of a word behind whole bytes, where there is room for them.
fn extend_word(to: &mut Vec<u8>, word: u64, len: usize) -> Result<(), AllocError>
    requires few { len ≤ 64 }
    requires small { word < 2 ^ len }
    requires room { vec_len to.old + format.bytes_for len ≤ vec_capacity to.old }
    ensures ok { IsOk result }
    ensures added { AppendsBits to.old.items to.new.items (8 * vec_len to.old) (bit word) len }
    ensures capacity { vec_capacity to.old ≤ vec_capacity to.new }
{
    to.extend_from_slice(&word.to_le_bytes()[..bytes_for(len)])
}

/// Adds bits behind whole bytes, where there is room for them.
fn extend_words(to: &mut Vec<u8>, bytes: &[u8], offset: usize, len: usize) -> Result<(), AllocError>
    requires in_range { offset + len ≤ 8 * length bytes.now }
    requires fits { offset + len < 2 ^ 64 }
    requires room { vec_len to.old + format.bytes_for len ≤ vec_capacity to.old }
    ensures ok { IsOk result }
    ensures added { AppendsBits to.old.items to.new.items (8 * vec_len to.old) (λ i. bit_at bytes.now (offset + i)) len }
{
    let words = len / 64;
    for k in 0..words {
        extend_word(to, load_word(bytes, offset + 64 * k, 64), 64)?;
    }
    let rest = len - 64 * words;
    extend_word(to, load_word(bytes, offset + 64 * words, rest), rest)
}

/// Adds bits behind whole bytes, where there is room for them.
fn extend_bits(to: &mut Vec<u8>, bytes: &[u8], offset: usize, len: usize) -> Result<(), AllocError>
    requires in_range { offset + len ≤ 8 * length bytes.now }
    requires fits { offset + len < 2 ^ 64 }
    requires ends { 8 * vec_len to.old + len < 2 ^ 64 }
    requires room { vec_len to.old + format.bytes_for len ≤ vec_capacity to.old }
    ensures ok { IsOk result }
    ensures added { AppendsBits to.old.items to.new.items (8 * vec_len to.old) (λ i. bit_at bytes.now (offset + i)) len }
{
    if offset % 8 == 0 {
        extend_bytes(to, bytes, offset, len)
    } else {
        extend_words(to, bytes, offset, len)
    }
}

/// Adds `len` bits of some bytes from bit `offset` on behind the first `held` bits of a vector. An error is for want of memory.
pub fn append_bits(
    to: &mut Vec<u8>,
    held: usize,
    bytes: &[u8],
    offset: usize,
    len: usize,
) -> Result<(), AllocError>
    requires packed { IsPacked to.old.items held }
    requires in_range { offset + len ≤ 8 * length bytes.now }
    requires offset_fits { offset + len < 2 ^ 64 }
    requires held_fits { held + len < 2 ^ 64 }
    ensures ok { OnOk result (bits_of to.new.items 0 (held + len) ≡ bits_of to.old.items 0 held ++ bits_of bytes.now offset len) }
    ensures packed { OnOk result (IsPacked to.new.items (held + len)) }
    ensures err { OnErr result (to.new.items ≡ to.old.items) }
    ensures full { OnErr result (vec_capacity to.old < format.bytes_for (held + len)) }
{
    to.reserve(bytes_for(held + len) - to.len())?;
    let mut done = 0;
    if held % 8 > 0 {
        done = len.min(8 - held % 8);
        fill_last(to, held, load_word(bytes, offset, done), done);
        if done == len {
            return Ok(());
        }
    }
    extend_bits(to, bytes, offset + done, len - done)
}

/// Adds bits of one value behind whole bytes, where there is room for them.
fn extend_constant(to: &mut Vec<u8>, len: usize, value: bool) -> Result<(), AllocError>
    requires ends { 8 * vec_len to.old + len < 2 ^ 64 }
    requires room { vec_len to.old + format.bytes_for len ≤ vec_capacity to.old }
    ensures ok { IsOk result }
    ensures added { AppendsBits to.old.items to.new.items (8 * vec_len to.old) (λ _. value) len }
{
    let held = 8 * to.len();
    let byte = if value { u8::MAX } else { 0 };
    to.resize(to.len() + bytes_for(len), byte)?;
    cut_bits(to, held + len);
    Ok(())
}

/// The word of `len` bits of one value.
fn constant_word(len: usize, value: bool) -> u64
    requires { len < 64 }
    ensures small { result < 2 ^ len }
    ensures bits { (i : ℕ) → i < len → bit result i ≡ value }
{
    if value { (1 << len) - 1 } else { 0 }
}

/// Adds `len` bits of one value behind the first `held` bits of a vector. An error is for want of memory.
pub fn append_constant(
    to: &mut Vec<u8>,
    held: usize,
    len: usize,
    value: bool,
) -> Result<(), AllocError>
    requires packed { IsPacked to.old.items held }
    requires held_fits { held + len < 2 ^ 64 }
    ensures ok { OnOk result (bits_of to.new.items 0 (held + len) ≡ bits_of to.old.items 0 held ++ replicate len value) }
    ensures packed { OnOk result (IsPacked to.new.items (held + len)) }
    ensures err { OnErr result (to.new.items ≡ to.old.items) }
    ensures full { OnErr result (vec_capacity to.old < format.bytes_for (held + len)) }
{
    to.reserve(bytes_for(held + len) - to.len())?;
    let mut done = 0;
    if held % 8 > 0 {
        done = len.min(8 - held % 8);
        fill_last(to, held, constant_word(done, value), done);
        if done == len {
            return Ok(());
        }
    }
    extend_constant(to, len - done, value)
}

/// Adds the first `len` bits of a word behind whole bytes. An error is for want of memory.
pub fn append_word(to: &mut Vec<u8>, held: usize, word: u64, len: usize) -> Result<(), AllocError>
    requires packed { IsPacked to.old.items held }
    requires whole { held % 8 ≡ 0 }
    requires few { len ≤ 64 }
    ensures ok { OnOk result (bits_of to.new.items 0 (held + len) ≡ bits_of to.old.items 0 held ++ word_bits len word) }
    ensures packed { OnOk result (IsPacked to.new.items (held + len)) }
    ensures err { OnErr result (to.new.items ≡ to.old.items) }
    ensures full { OnErr result (vec_capacity to.old < format.bytes_for (held + len)) }
{
    to.reserve(bytes_for(len))?;
    extend_word(to, low_bits(word, len), len)
}
