use crate::flat::{numbers, texts};
use benches_timing::{Job, Named, Timed, time_rounds};
use columnar_memory_types::Result;
use std::rt::Clock;

/// A job that is timed.
#[derive(Clone, Copy)]
pub(crate) enum FlatJob {
    /// `try_push` of numbers, about one in eight of them null.
    PushNumbers,

    /// `from_iter` of the same.
    FromIter,

    /// The sum of a column of the same, by `iter`.
    Sum,

    /// Cuts of 16 slots out of a column of the same.
    Cut,

    /// `try_extend_from_self` of a column of the same behind no slots.
    Copy,

    /// `push` of short texts.
    PushTexts,

    /// `from_slice` of short texts.
    FromSlice,

    /// `try_new` of a column of short texts.
    TryNew,
}

pub(crate) const JOBS: [FlatJob; 8] = [
    FlatJob::PushNumbers,
    FlatJob::FromIter,
    FlatJob::Sum,
    FlatJob::Cut,
    FlatJob::Copy,
    FlatJob::PushTexts,
    FlatJob::FromSlice,
    FlatJob::TryNew,
];

impl Named for FlatJob {
    fn name(&self) -> &'static str {
        match self {
            FlatJob::PushNumbers => "push_numbers",
            FlatJob::FromIter => "from_iter",
            FlatJob::Sum => "sum",
            FlatJob::Cut => "cut",
            FlatJob::Copy => "copy",
            FlatJob::PushTexts => "push_texts",
            FlatJob::FromSlice => "from_slice",
            FlatJob::TryNew => "try_new",
        }
    }
}

impl Job for FlatJob {
    const ROUNDS: u32 = 7;

    const SMALL: usize = 10_000;

    fn time<R: Clock + AllocGlobal>(self, rt: &R, size: usize, rounds: u32) -> Result<Timed> {
        let alloc = rt.alloc();
        match self {
            FlatJob::PushNumbers => time_rounds(rt, rounds, &numbers::Push::of(alloc, size)?),
            FlatJob::FromIter => time_rounds(rt, rounds, &numbers::FromIter::of(alloc, size)?),
            FlatJob::Sum => time_rounds(rt, rounds, &numbers::Sum::of(alloc, size)?),
            FlatJob::Cut => time_rounds(rt, rounds, &numbers::Cut::of(alloc, size)?),
            FlatJob::Copy => time_rounds(rt, rounds, &numbers::Copy::of(alloc, size)?),
            FlatJob::PushTexts => time_rounds(rt, rounds, &texts::Push::of(alloc, size)?),
            FlatJob::FromSlice => time_rounds(rt, rounds, &texts::FromSlice::of(alloc, size)?),
            FlatJob::TryNew => time_rounds(rt, rounds, &texts::TryNew::of(alloc, size)?),
        }
    }
}
