//! Lists of numbers that jobs of more than one program have.
use crate::data::mixed;
use columnar_memory_types::Result;
use std::alloc::Global;

/// Lists of numbers, one after another.
#[derive(Drop)]
pub struct Lists {
    /// The numbers of all lists.
    pub items: Vec<i32>,

    /// How many of them each list has.
    pub lengths: Vec<usize>,

    /// Whether there is a list, or a null.
    pub marks: Vec<bool>,
}

/// So many lists of up to three numbers, about one in eight of them null; under each null stand `unseen` numbers, which are not seen.
///
/// # Errors
/// `OutOfMemory`: the lists found no memory.
pub fn short_lists(alloc: Global, count: usize, unseen: usize) -> Result<Lists> {
    let (mut items, mut lengths, mut marks) = (Vec::new(alloc), Vec::new(alloc), Vec::new(alloc));
    for k in 0..count {
        let number = mixed(k as u64);
        let is_null = number % 8 == 0;
        let length = if is_null {
            unseen
        } else {
            (number / 8 % 4) as usize
        };
        for _ in 0..length {
            items.push((number % 0x1_0000) as i32)?;
        }
        lengths.push(length)?;
        marks.push(!is_null)?;
    }
    Ok(Lists {
        items,
        lengths,
        marks,
    })
}
