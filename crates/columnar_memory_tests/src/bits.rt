ghost use Rattle.std.specs.Prelude.{◌≡◌, ◌*◌, ◌/◌, ◌%◌, ◌^◌, ◌<◌, bit_and, count_ones};
ghost use Rattle.std.specs.Int.{bit_not};

use crate::cases::{BYTES, LENGTHS, bit, marked, unset};
use columnar_memory_bits::{
    BitmapIter, ZipValidity, append_bits, append_constant, count_zeros, get_bit, keep_bits, set_bit,
};
use columnar_memory_kernels::{
    BitChunk, BitChunkIterExact, BitChunkOnes, BitChunks, BitChunksExact, BitChunksExactMut,
};
use std::alloc::{AllocError, Global};
use std::test::Fail;

/// Bits from bit `offset` on, behind bits that are set.
fn copied(alloc: Global, held: u8, offset: u8, len: u8) -> Result<Vec<u8>, AllocError> {
    let (held, offset, len) = (usize::from(held), usize::from(offset), usize::from(len));
    let mut to = Vec::new(alloc);
    keep_bits(&mut to, 0);
    append_constant(&mut to, 0, held, true)?;
    append_bits(&mut to, held, &BYTES, offset, len)?;
    append_constant(&mut to, held + len, 3, false)?;
    Ok(to)
}

/// Whether bytes are such bits, and zeros behind them.
fn is_copy(bytes: &[u8], held: u8, offset: u8, len: u8) -> bool {
    let held = usize::from(held);
    if bytes.len() != (held + usize::from(len) + 10) / 8 {
        return false;
    }
    for i in 0..held {
        if !bit(bytes, i) {
            return false;
        }
    }
    for i in 0..len {
        if bit(bytes, held + usize::from(i)) != marked(offset, i) {
            return false;
        }
    }
    (0..11).all(|i| !bit(bytes, held + usize::from(len) + i))
}

fn zeros(offset: u8, len: u8) -> usize {
    count_zeros(&BYTES, usize::from(offset), usize::from(len))
}

#[test]
fn copies_and_counts(rt: HostRuntime) -> Result<(), Fail> {
    for held in [0, 1, 5, 8, 9] {
        for offset in 0..16 {
            for len in LENGTHS {
                let bytes = copied(rt.alloc(), held, offset, len)?;
                assert!(rt; is_copy(&bytes, held, offset, len), "{held} {offset} {len}");
                assert!(rt; zeros(offset, len) == unset(offset, len), "{offset} {len}");
            }
        }
    }
    Ok(())
}

/// Whether a walk from both ends gives the last bit, then the others in order.
fn walks(offset: u8, len: u8) -> bool {
    let mut bits = BitmapIter::new(&BYTES, usize::from(offset), usize::from(len));
    if bits.len() != usize::from(len) {
        return false;
    }
    let Some(last) = len.checked_sub(1) else {
        return bits.next_back().is_none();
    };
    if bits.next_back() != Some(marked(offset, last)) {
        return false;
    }
    (0..last).all(|i| bits.next() == Some(marked(offset, i))) && bits.next().is_none()
}

/// Whether chunks of 16 bits are the bits in order.
fn walks_chunks(offset: u8, len: u8) -> bool {
    let mut chunks = BitChunks::<u16>::new(&BYTES, usize::from(offset), usize::from(len));
    for k in 0..len / 16 {
        let Some(chunk) = chunks.next() else {
            return false;
        };
        for i in 0..16 {
            if ((chunk >> i) & 1 == 1) != marked(offset, 16 * k + i) {
                return false;
            }
        }
    }
    chunks.next().is_none() && ends(&chunks, offset, len)
}

/// Whether the bits behind the chunks are the last ones.
fn ends(chunks: &BitChunks<'_, u16>, offset: u8, len: u8) -> bool {
    if chunks.remainder_len() != usize::from(len % 16) {
        return false;
    }
    let mut rest = chunks.remainder_iter();
    let first = len - len % 16;
    (first..len).all(|i| rest.next() == Some(marked(offset, i))) && rest.next().is_none()
}

#[test]
fn walks_at_every_offset(rt: HostRuntime) {
    for offset in 0..16 {
        for len in LENGTHS {
            assert!(rt; walks(offset, len), "{offset} {len}");
            assert!(rt; walks_chunks(offset, len), "{offset} {len}");
        }
    }
}

#[test]
fn a_window_of_eight_bits_is_one_chunk(rt: HostRuntime) {
    let mut chunks = BitChunks::<u8>::new(&[255, 1], 1, 8);
    assert!(rt; chunks.remainder_len() == 0);
    assert!(rt; chunks.next() == Some(255));
    assert!(rt; chunks.next().is_none());
}

#[test]
fn bits_behind_a_chunk_are_its_remainder(rt: HostRuntime) {
    let exact = BitChunksExact::<u8>::new(&[255, 1], 9);
    assert!(rt; exact.len() == 1);
    assert!(rt; exact.remainder() == 1 && exact.remainder_len() == 1);
}

#[test]
fn set_bits_of_a_chunk(rt: HostRuntime) {
    let mut ones = BitChunkOnes::new(0b1010_0001u8);
    for place in [0, 5, 7] {
        assert!(rt; ones.next() == Some(place));
    }
    assert!(rt; ones.next().is_none());
    assert!(rt; <u32 as BitChunk>::from_ne_bytes([1, 2, 0, 0]) == 513);
}

/// How many bits of a chunk are set that are not set in another, whatever the type of the chunks.
fn ones_apart<T: BitChunk>(chunk: T, other: T) -> u32
    ensures { result ≡ count_ones (bit_and (T.bits_of chunk) (bit_not T.width (T.bits_of other))) }
{
    (chunk & !other).count_ones()
}

/// The bits of a chunk one place further up; the last is let go.
fn moved_up<T: BitChunk>(chunk: T) -> T
    ensures { T.bits_of result ≡ T.bits_of chunk * 2 % 2 ^ T.bits }
{
    chunk << 1u32
}

/// The bits of a chunk some places further down.
fn moved_down<T: BitChunk>(chunk: T, places: u32) -> T
    requires { places < T.bits }
    ensures { T.bits_of result ≡ T.bits_of chunk / 2 ^ places }
{
    chunk >> places
}

#[test]
fn chunks_have_the_operators_of_integers(rt: HostRuntime) {
    assert!(rt; ones_apart(0b1110u8, 0b0100) == 2 && ones_apart(u64::MAX, 1) == 63);
    assert!(rt; moved_up(0b1000_0001u8) == 2 && moved_up(0b1000_0001u16) == 0b1_0000_0010);
    assert!(rt; moved_down(0b1000_0001u32, 7) == 1);
}

#[test]
fn a_bit_is_written(rt: HostRuntime) {
    let mut bytes = [0u8; 2];
    set_bit(&mut bytes, 9, true);
    assert!(rt; bytes == [0, 2]);
    assert!(rt; get_bit(&bytes, 9));
}

#[test]
fn values_beside_their_bits(rt: HostRuntime) -> Result<(), Fail> {
    let values = Vec::from_slice(rt.alloc(), &[1, 2, 3])?;
    let mut zipped = ZipValidity::new(values.into_iter(), Some(BitmapIter::new(&[0b101], 0, 3)));
    assert!(rt; zipped.next_back() == Some(Some(3)));
    for slot in [Some(1), None] {
        assert!(rt; zipped.next() == Some(slot));
    }
    assert!(rt; zipped.next().is_none());
    Ok(())
}

#[test]
fn values_without_bits_are_all_there(rt: HostRuntime) -> Result<(), Fail> {
    let values = Vec::from_slice(rt.alloc(), &[1, 2])?;
    let mut all = ZipValidity::new(values.into_iter(), None::<BitmapIter>);
    assert!(rt; all.next() == Some(Some(1)));
    Ok(())
}

/// Turns the bytes of each chunk of 16 bits.
fn turn_chunks(bytes: &mut [u8; 5]) {
    let chunks = BitChunksExactMut::<u16>::new(bytes, 37);
    for chunk in chunks {
        for byte in chunk {
            *byte = !*byte;
        }
    }
}

#[test]
fn chunks_are_lent(rt: HostRuntime) {
    let mut bytes = [1, 2, 3, 4, 5];
    turn_chunks(&mut bytes);
    assert!(rt; bytes == [254, 253, 252, 251, 5]);
}

#[test]
fn bytes_behind_the_chunks_are_lent(rt: HostRuntime) {
    let mut bytes = [1, 2, 3, 4, 5];
    let mut chunks = BitChunksExactMut::<u16>::new(&mut bytes, 37);
    assert!(rt; chunks.remainder_len() == 5);
    for byte in chunks.remainder() {
        *byte = 0;
    }
    assert!(rt; bytes == [1, 2, 3, 4, 0]);
}
