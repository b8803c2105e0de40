ghost use Rattle.std.specs.Prelude.{◌≡◌, ◌+◌, ◌*◌, ◌^◌, ◌<◌, ◌≤◌, length, if◌then◌else◌, ◌==◌};
ghost use Rattle.std.specs.Fmt.{WritesOnOk};
ghost use Rattle.columnar_memory_bits.specs.Bits as format;
ghost use Rattle.columnar_memory_bits.specs.Text as text;

use crate::utils::{bytes_for, get_bit};
use std::fmt::{Formatter, Result, Write};

/// Writes bits as text: `len` of them from bit `offset` on, as `[0b______01]`. Bytes stand with their most significant bit first, and
/// an underscore stands for each place that is none of the bits.
pub fn fmt<W: Write>(bytes: &[u8], offset: usize, len: usize, f: &mut Formatter<W>) -> Result
    requires first { offset < 8 }
    requires in_range { offset + len ≤ 8 * length bytes.now }
    requires fits { offset + len < 2 ^ 64 }
    ensures { WritesOnOk W.write_str_gives f.old result (text.bits_text bytes.now offset len) f.new }
{
    let count = byte_count(offset, len);
    f.write_str("[")?;
    write_bytes(bytes, offset, len, count, f)?;
    f.write_str("]")
}

/// How many bytes have one of the bits.
fn byte_count(offset: usize, len: usize) -> usize
    requires { offset + len < 2 ^ 64 }
    ensures { result ≡ (if len == 0 then 0 else format.bytes_for (offset + len)) }
{
    if len == 0 { 0 } else { bytes_for(offset + len) }
}

fn write_bytes<W: Write>(
    bytes: &[u8],
    offset: usize,
    len: usize,
    count: usize,
    f: &mut Formatter<W>,
) -> Result
    requires in_range { offset + len ≤ 8 * length bytes.now }
    requires fits { offset + len < 2 ^ 64 }
    requires within { count ≤ format.bytes_for (offset + len) }
    ensures { WritesOnOk W.write_str_gives f.old result (text.bytes_text bytes.now offset len count) f.new }
{
    for k in 0..count {
        write_byte(bytes, offset, len, k, f)?;
    }
    Ok(())
}

/// Writes byte `k`, behind a comma where it is not the first.
fn write_byte<W: Write>(
    bytes: &[u8],
    offset: usize,
    len: usize,
    k: usize,
    f: &mut Formatter<W>,
) -> Result
    requires in_range { offset + len ≤ 8 * length bytes.now }
    requires fits { offset + len < 2 ^ 64 }
    requires within { 8 * k < offset + len }
    ensures { WritesOnOk W.write_str_gives f.old result (text.byte_text bytes.now offset len k) f.new }
{
    f.write_str(if k == 0 { "0b" } else { ", 0b" })?;
    write_glyphs(bytes, offset, len, k, f)
}

/// Writes the places of byte `k`, from its most significant bit on.
fn write_glyphs<W: Write>(
    bytes: &[u8],
    offset: usize,
    len: usize,
    k: usize,
    f: &mut Formatter<W>,
) -> Result
    requires in_range { offset + len ≤ 8 * length bytes.now }
    requires fits { offset + len < 2 ^ 64 }
    requires within { 8 * k < offset + len }
    ensures { WritesOnOk W.write_str_gives f.old result (text.glyphs bytes.now offset len k 8) f.new }
{
    for j in 0..8 {
        f.write_str(glyph(bytes, offset, len, 8 * k + (7 - j)))?;
    }
    Ok(())
}

/// A place as text.
fn glyph(bytes: &[u8], offset: usize, len: usize, place: usize) -> &'static str
    requires in_range { offset + len ≤ 8 * length bytes.now }
    ensures { result.now ≡ text.glyph bytes.now offset len place }
{
    if place < offset || place - offset >= len {
        "_"
    } else if get_bit(bytes, place) {
        "1"
    } else {
        "0"
    }
}
