//! Data that jobs of more than one program have, which follow from a place, and their checksum.
use columnar_memory_types::Result;
use std::alloc::Global;

/// The texts that columns of texts hold.
pub const WORDS: [&str; 8] = [
    "", "a", "north", "Zürich", "日本", "quick", "length", "columns",
];

/// The number at a place of a sequence that looks like chance (the mixing steps of SplitMix64).
pub fn mixed(place: u64) -> u64 {
    let number = place.wrapping_mul(0x9e37_79b9_7f4a_7c15);
    let number = (number ^ (number >> 30)).wrapping_mul(0xbf58_476d_1ce4_e5b9);
    let number = (number ^ (number >> 27)).wrapping_mul(0x94d0_49bb_1331_11eb);
    number ^ (number >> 31)
}

/// A number below 2^16.
pub fn number_at(place: u64) -> i32 {
    (mixed(place) % 0x1_0000) as i32
}

/// A null, or a number below 2^16: about one in eight is null.
pub fn slot_at(place: u64) -> Option<i32> {
    if mixed(place) % 8 == 0 {
        None
    } else {
        Some(number_at(place))
    }
}

/// So many short texts.
///
/// # Errors
/// `OutOfMemory`: the texts found no memory.
pub fn short_texts(alloc: Global, count: usize) -> Result<Vec<&'static str>> {
    Ok(
        (0..count)
            .map(|k| WORDS[(mixed(k as u64) % 8) as usize])
            .collect(alloc)?,
    )
}

/// A checksum of bytes in their order.
pub fn bytes_checksum(bytes: &[u8]) -> u64 {
    bytes.iter().fold(
        0u64,
        |sum, byte| sum.wrapping_mul(31).wrapping_add(u64::from(*byte)),
    )
}
