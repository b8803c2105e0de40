use crate::nested::data::{dictionaries, lists, numbers, slots, texts};
use crate::nested::equality::Equal;
use crate::nested::tables::Cut;
use benches_timing::{Job, Named, Timed, time_rounds};
use columnar_memory_types::Result;
use std::rt::Clock;

/// A job that is timed.
#[derive(Clone, Copy)]
pub(crate) enum NestedJob {
    /// `slice` of a struct of many columns, in place.
    Cut,

    /// `equal` of numbers.
    Numbers,

    /// `equal` of numbers, about one in eight of them null.
    Slots,

    /// `equal` of short texts.
    Texts,

    /// `equal` of lists that stand at other places of their items.
    Lists,

    /// `equal` of dictionaries whose values stand in another order.
    Dictionaries,
}

pub(crate) const JOBS: [NestedJob; 6] = [
    NestedJob::Cut,
    NestedJob::Numbers,
    NestedJob::Slots,
    NestedJob::Texts,
    NestedJob::Lists,
    NestedJob::Dictionaries,
];

impl Named for NestedJob {
    fn name(&self) -> &'static str {
        match self {
            NestedJob::Cut => "cut",
            NestedJob::Numbers => "numbers",
            NestedJob::Slots => "slots",
            NestedJob::Texts => "texts",
            NestedJob::Lists => "lists",
            NestedJob::Dictionaries => "dictionaries",
        }
    }
}

impl Job for NestedJob {
    const ROUNDS: u32 = 7;

    const SMALL: usize = 10_000;

    fn time<R: Clock + AllocGlobal>(self, rt: &R, size: usize, rounds: u32) -> Result<Timed> {
        let alloc = rt.alloc();
        match self {
            NestedJob::Cut => time_rounds(rt, rounds, &Cut::of(alloc, size)?),
            NestedJob::Numbers => {
                let pair = Equal::of(numbers(alloc, size)?, numbers(alloc, size)?);
                time_rounds(rt, rounds, &pair)
            }
            NestedJob::Slots => {
                let pair = Equal::of(slots(alloc, size)?, slots(alloc, size)?);
                time_rounds(rt, rounds, &pair)
            }
            NestedJob::Texts => {
                let pair = Equal::of(texts(alloc, size)?, texts(alloc, size)?);
                time_rounds(rt, rounds, &pair)
            }
            NestedJob::Lists => {
                let pair = Equal::of(lists(alloc, size, 0)?, lists(alloc, size, 3)?);
                time_rounds(rt, rounds, &pair)
            }
            NestedJob::Dictionaries => {
                let backwards = dictionaries(alloc, size, true)?;
                let pair = Equal::of(dictionaries(alloc, size, false)?, backwards);
                time_rounds(rt, rounds, &pair)
            }
        }
    }
}
