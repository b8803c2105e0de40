use columnar_memory_types::Result;
use std::time::{Clock, Duration, Instant};

/// What is done to be timed, with its data.
pub trait Work {
    /// What it makes.
    type Made: Drop;

    /// Makes it.
    ///
    /// # Errors
    /// `InvalidArgumentError`: the data do not fit.
    /// `OutOfMemory`: what it makes found no memory.
    /// `Overflow`: the offsets pass their type.
    fn make(&self) -> Result<Self::Made>;

    /// A checksum of what it made, which is not timed.
    fn checksum(made: &Self::Made) -> u64;
}

/// What the rounds of some work took and made.
#[derive(Drop)]
pub struct Timed {
    /// Of the quickest round.
    pub nanoseconds: u64,

    /// Of what the last round made.
    pub checksum: u64,
}

/// Does some work this many times.
///
/// # Errors
/// `Io`: the clock failed.
/// Else what the work answers.
pub fn time_rounds<W: Work>(clock: &impl Clock, rounds: u32, work: &W) -> Result<Timed> {
    let mut least = u64::MAX;
    let mut last = 0;
    for _ in 0..rounds {
        let start = Instant::now(clock)?;
        let made = work.make()?;
        least = least.min(nanoseconds_of(start.elapsed(clock)?));
        last = W::checksum(&made);
    }
    Ok(Timed {
        nanoseconds: least,
        checksum: last,
    })
}

fn nanoseconds_of(time: Duration) -> u64 {
    time.as_secs()
        .saturating_mul(1_000_000_000)
        .saturating_add(u64::from(time.subsec_nanos()))
}
