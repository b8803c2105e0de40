//! Bits at every offset and around each boundary of a word, against plain loops.
use std::hash::{DefaultHasher, Hash, Hasher};

pub(crate) const LENGTHS: [u8; 9] = [0, 1, 7, 8, 9, 63, 64, 65, 127];

/// Bytes with more bits than any offset and length below 256 reach.
pub(crate) const BYTES: [u8; 64] = [
    0x5b, 0x01, 0xff, 0x80, 0x00, 0xe7, 0x3c, 0xa5, 0x99, 0x12, 0xf0, 0x0f, 0xaa, 0x55, 0x81, 0x7e,
    0xc3, 0x24, 0xdb, 0x6d, 0xb6, 0x00, 0x00, 0x00, 0x00, 0x00, 0x00, 0x00, 0x00, 0x18, 0xff, 0xff,
    0xff, 0xff, 0xff, 0xff, 0xff, 0xff, 0xff, 0xfe, 0x92, 0x49, 0x11, 0x22, 0x44, 0x88, 0x07, 0xe0,
    0x31, 0x41, 0x59, 0x26, 0x53, 0x58, 0x97, 0x93, 0x23, 0x84, 0x62, 0x64, 0x33, 0x83, 0x27, 0x95,
];

/// Bit by bit, as the format says it; none is set behind the last byte.
pub(crate) fn bit(bytes: &[u8], place: usize) -> bool {
    match bytes.get(place / 8) {
        Some(byte) => (*byte >> (place % 8)) & 1 == 1,
        None => false,
    }
}

/// Bit `i` behind bit `offset` of the bytes.
pub(crate) fn marked(offset: u8, i: u8) -> bool {
    bit(&BYTES, usize::from(offset) + usize::from(i))
}

/// How many of the bits from bit `offset` on, `len` of them, are not set.
pub(crate) fn unset(offset: u8, len: u8) -> usize {
    (0..len).filter(|i| !marked(offset, *i)).count()
}

pub(crate) fn hash_of<T: Hash>(value: &T) -> u64 {
    let mut state = DefaultHasher::new();
    value.hash(&mut state);
    state.finish()
}
