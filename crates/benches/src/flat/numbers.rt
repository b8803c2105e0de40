//! Work on columns of numbers.
use crate::flat::data::{numbers_checksum, slots};
use benches_timing::{Work, bytes_checksum};
use columnar_memory_types::{Error, Result};
use nested_arrays::columnar_memory::MutableBitmap;
use nested_arrays::flat_arrays::{Int32Array, MutablePrimitiveArray};
use std::alloc::Global;

/// How many slots a cut has.
const CUT: usize = 16;

/// How many slots the column has that is cut.
const COLUMN: usize = 1000;

/// `try_push` of slots.
#[derive(Drop)]
pub(crate) struct Push {
    alloc: Global,
    slots: Vec<Option<i32>>,
}

impl Push {
    pub(crate) fn of(alloc: Global, count: usize) -> Result<Push> {
        let slots = slots(alloc, count)?;
        Ok(Push { alloc, slots })
    }
}

impl Work for Push {
    type Made = MutablePrimitiveArray<i32>;

    fn make(&self) -> Result<MutablePrimitiveArray<i32>> {
        let mut builder = MutablePrimitiveArray::new(self.alloc);
        for slot in &self.slots {
            builder.try_push(*slot)?;
        }
        Ok(builder)
    }

    fn checksum(made: &MutablePrimitiveArray<i32>) -> u64 {
        builder_checksum(made)
    }
}

/// `from_iter` of slots.
#[derive(Drop)]
pub(crate) struct FromIter {
    alloc: Global,
    slots: Vec<Option<i32>>,
}

impl FromIter {
    pub(crate) fn of(alloc: Global, count: usize) -> Result<FromIter> {
        let slots = slots(alloc, count)?;
        Ok(FromIter { alloc, slots })
    }
}

impl Work for FromIter {
    type Made = Int32Array;

    fn make(&self) -> Result<Int32Array> {
        Int32Array::from_iter(self.alloc, self.slots.iter().copied())
    }

    fn checksum(made: &Int32Array) -> u64 {
        numbers_checksum(made.values().as_slice()).wrapping_add(made.null_count() as u64)
    }
}

/// The sum of the values of the slots, by `iter`.
#[derive(Drop)]
pub(crate) struct Sum {
    array: Int32Array,
}

impl Sum {
    pub(crate) fn of(alloc: Global, count: usize) -> Result<Sum> {
        let array = Int32Array::from(alloc, &slots(alloc, count)?)?;
        Ok(Sum { array })
    }
}

impl Work for Sum {
    type Made = u64;

    fn make(&self) -> Result<u64> {
        let mut sum = 0u64;
        for slot in self.array.iter() {
            if let Some(number) = slot {
                sum = sum.wrapping_add(u64::from(number.unsigned_abs()));
            }
        }
        Ok(sum)
    }

    fn checksum(made: &u64) -> u64 {
        *made
    }
}

/// Cuts of a few slots out of a column.
#[derive(Drop)]
pub(crate) struct Cut {
    array: Int32Array,
    cuts: usize,
}

impl Cut {
    pub(crate) fn of(alloc: Global, cuts: usize) -> Result<Cut> {
        let array = Int32Array::from(alloc, &slots(alloc, COLUMN)?)?;
        Ok(Cut { array, cuts })
    }
}

impl Work for Cut {
    type Made = u64;

    /// How many nulls all cuts have.
    fn make(&self) -> Result<u64> {
        let len = self.array.len();
        if len < CUT {
            return Err(Error::InvalidArgumentError("a column of too few slots"));
        }
        let places = len - CUT + 1;
        let mut nulls = 0u64;
        for k in 0..self.cuts {
            let cut = self.array.clone()?.sliced(k % places, CUT);
            nulls = nulls.wrapping_add(cut.null_count() as u64);
        }
        Ok(nulls)
    }

    fn checksum(made: &u64) -> u64 {
        *made
    }
}

/// `try_extend_from_self` of a column behind no slots.
#[derive(Drop)]
pub(crate) struct Copy {
    alloc: Global,
    builder: MutablePrimitiveArray<i32>,
}

impl Copy {
    pub(crate) fn of(alloc: Global, count: usize) -> Result<Copy> {
        let builder = MutablePrimitiveArray::from(alloc, &slots(alloc, count)?)?;
        Ok(Copy { alloc, builder })
    }
}

impl Work for Copy {
    type Made = MutablePrimitiveArray<i32>;

    fn make(&self) -> Result<MutablePrimitiveArray<i32>> {
        let mut copy = MutablePrimitiveArray::new(self.alloc);
        copy.try_extend_from_self(&self.builder)?;
        Ok(copy)
    }

    fn checksum(made: &MutablePrimitiveArray<i32>) -> u64 {
        builder_checksum(made)
    }
}

/// The values, the marks and how many marks are false, in one number.
fn builder_checksum(builder: &MutablePrimitiveArray<i32>) -> u64 {
    let marks = builder.validity().map_or(0, marks_checksum);
    numbers_checksum(builder.values()).wrapping_add(marks)
}

fn marks_checksum(mask: &MutableBitmap) -> u64 {
    bytes_checksum(mask.as_slice()).wrapping_add(mask.unset_bits() as u64)
}
