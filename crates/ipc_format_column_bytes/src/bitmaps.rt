//! The bytes of bits (Arrow columnar format, "Validity bitmaps").
ghost use Rattle.std.specs.Prelude.{◌+◌, ◌*◌, ◌≤◌, length};
ghost use Rattle.ipc_format_column_bytes.specs.Appends.{Appends};
ghost use Rattle.ipc_format_streams.specs.columns.StoredColumns.{cut_list};
ghost use Rattle.ipc_format_streams.specs.grammar.Buffers.{bitmap_bytes};
ghost use Rattle.ipc_format_streams.specs.columnar_memory.Bits.{IsPacked, bits_of};

use ipc_format_streams::columnar_memory::{Bitmap, MutableBitmap, Result};

/// Adds the bytes of the `count` bits from bit `first` on behind some bytes, the least significant bit of a byte first, and zeros to the end
/// of the last byte. Bits that begin with a byte go out by one copy.
///
/// # Errors
/// `OutOfMemory`: the bytes found no memory. Some of them may stand there.
pub fn append_bitmap(to: &mut Vec<u8>, bits: &Bitmap, first: usize, count: usize) -> Result<()>
    requires { first + count ≤ length bits.now }
    ensures { Appends result to.old.items to.new.items (bitmap_bytes (cut_list bits.now first count)) }
{
    let (bytes, start, _) = bits.as_slice();
    append_bits(to, bytes, start + first, count)
}

/// The same of the bits of some bytes.
fn append_bits(to: &mut Vec<u8>, bytes: &[u8], first: usize, count: usize) -> Result<()>
    requires { first + count ≤ 8 * length bytes.now }
    ensures { Appends result to.old.items to.new.items (bitmap_bytes (bits_of bytes.now first count)) }
{
    if first % 8 == 0 {
        append_aligned(to, &bytes[first / 8..], count)
    } else {
        append_moved(to, bytes, first, count)
    }
}

/// Adds the bytes of the first bits of some bytes: whole bytes as they stand, and the bits behind them by themselves.
fn append_aligned(to: &mut Vec<u8>, bytes: &[u8], count: usize) -> Result<()>
    requires { count ≤ 8 * length bytes.now }
    ensures { Appends result to.old.items to.new.items (bitmap_bytes (bits_of bytes.now 0 count)) }
{
    let whole = count / 8;
    append_packed(to, &bytes[..whole], 8 * whole)?;
    append_moved(to, bytes, 8 * whole, count % 8)
}

/// Adds the bytes of bits that stand anywhere among the bits of some bytes.
#[tactic(auto, using(crate::proofs::Added::begins_with_itself))]
fn append_moved(to: &mut Vec<u8>, bytes: &[u8], first: usize, count: usize) -> Result<()>
    requires { first + count ≤ 8 * length bytes.now }
    ensures { Appends result to.old.items to.new.items (bitmap_bytes (bits_of bytes.now first count)) }
{
    let mut packed = MutableBitmap::new(*to.allocator());
    packed.extend_from_slice(bytes, first, count)?;
    append_packed(to, packed.as_slice(), packed.len())
}

/// Adds the bytes of so many bits, which they are packed in.
#[tactic(auto, using(crate::proofs::Added::begins_with_itself))]
fn append_packed(to: &mut Vec<u8>, bytes: &[u8], len: usize) -> Result<()>
    requires { IsPacked bytes.now len }
    ensures { Appends result to.old.items to.new.items (bitmap_bytes (bits_of bytes.now 0 len)) }
{
    to.extend_from_slice(bytes)?;
    Ok(())
}
