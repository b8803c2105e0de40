use crate::memory::bits::{And, CountZeros, ExtendFromSlice, Slices};
use crate::memory::data::{noise_bitmap, runs_bitmap};
use crate::memory::values::{FromIter, OffsetsFromLengths, ZippedSum};
use benches_timing::{Job, Named, Timed, time_rounds};
use columnar_memory_types::Result;
use std::rt::Clock;

/// A job that is timed.
#[derive(Clone, Copy)]
pub(crate) enum MemoryJob {
    /// `and` of two bitmaps that begin with a byte.
    AndAligned,

    /// `and` of two bitmaps that begin at bits 1 and 3 of a byte.
    AndOffsets,

    /// `count_zeros` from bit 3 on.
    CountZeros,

    /// `extend_from_slice` from bit 3 on, behind 5 bits.
    ExtendFromSlice,

    /// `SlicesIterator` over runs of 1 to 256 bits.
    SlicesRuns,

    /// `SlicesIterator` over bits that look like chance.
    SlicesNoise,

    /// `Bitmap::from_iter` of booleans.
    FromIter,

    /// `Offsets::try_from_iter` of lengths.
    Offsets,

    /// The sum of the values whose bits are set, by `ZipValidity`.
    ZipValidity,
}

pub(crate) const JOBS: [MemoryJob; 9] = [
    MemoryJob::AndAligned,
    MemoryJob::AndOffsets,
    MemoryJob::CountZeros,
    MemoryJob::ExtendFromSlice,
    MemoryJob::SlicesRuns,
    MemoryJob::SlicesNoise,
    MemoryJob::FromIter,
    MemoryJob::Offsets,
    MemoryJob::ZipValidity,
];

impl Named for MemoryJob {
    fn name(&self) -> &'static str {
        match self {
            MemoryJob::AndAligned => "and_aligned",
            MemoryJob::AndOffsets => "and_offsets",
            MemoryJob::CountZeros => "count_zeros",
            MemoryJob::ExtendFromSlice => "extend_from_slice",
            MemoryJob::SlicesRuns => "slices_runs",
            MemoryJob::SlicesNoise => "slices_noise",
            MemoryJob::FromIter => "from_iter",
            MemoryJob::Offsets => "offsets",
            MemoryJob::ZipValidity => "zip_validity",
        }
    }
}

impl Job for MemoryJob {
    const ROUNDS: u32 = 7;

    const SMALL: usize = 10_000;

    fn time<R: Clock + AllocGlobal>(self, rt: &R, size: usize, rounds: u32) -> Result<Timed> {
        let alloc = rt.alloc();
        match self {
            MemoryJob::AndAligned => time_rounds(rt, rounds, &And::at(alloc, 0, 0, size)?),
            MemoryJob::AndOffsets => time_rounds(rt, rounds, &And::at(alloc, 1, 3, size)?),
            MemoryJob::CountZeros => time_rounds(rt, rounds, &CountZeros::of(alloc, size)?),
            MemoryJob::ExtendFromSlice => time_rounds(
                rt,
                rounds,
                &ExtendFromSlice::of(alloc, size)?,
            ),
            MemoryJob::SlicesRuns => {
                let bitmap = runs_bitmap(alloc, size)?;
                time_rounds(rt, rounds, &Slices { bitmap })
            }
            MemoryJob::SlicesNoise => {
                let bitmap = noise_bitmap(alloc, 0, 0, size)?;
                time_rounds(rt, rounds, &Slices { bitmap })
            }
            MemoryJob::FromIter => time_rounds(rt, rounds, &FromIter::of(alloc, size)?),
            MemoryJob::Offsets => time_rounds(rt, rounds, &OffsetsFromLengths::of(alloc, size)?),
            MemoryJob::ZipValidity => time_rounds(rt, rounds, &ZippedSum::of(alloc, size)?),
        }
    }
}
