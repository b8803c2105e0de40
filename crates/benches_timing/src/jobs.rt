use crate::rounds::Timed;
use crate::words::{Named, choice_named};
use columnar_memory_types::Result;
use std::rt::Clock;

/// A job of a group that is timed.
pub trait Job: Named {
    /// How often a job of the group is done to time it.
    const ROUNDS: u32;

    /// The size at which the jobs of the group are done where none is asked for.
    const SMALL: usize;

    /// Does the job at this size some times.
    ///
    /// # Errors
    /// `InvalidArgumentError`: the job has no data of this size, or made what it should not.
    /// `Io`: the clock failed.
    /// `OutOfMemory`: the data or what the job makes found no memory.
    /// `Overflow`: the offsets pass their type.
    fn time<R: Clock + AllocGlobal>(self, rt: &R, size: usize, rounds: u32) -> Result<Timed>;
}

/// Shows the name of each job of a group, and the checksum of what it makes at the small size.
///
/// # Errors
/// `Io`: the names could not be written.
/// Else what a job answers.
pub fn show_checksums<J: Job, R: Clock + AllocGlobal + Print>(
    rt: &R,
    group: &str,
    jobs: &[J],
) -> Result<()> {
    for job in jobs {
        let timed = job.time(rt, J::SMALL, 1)?;
        println!(rt; "{} {} {}", group, job.name(), timed.checksum)?;
    }
    Ok(())
}

/// Times the job of a name at this size.
///
/// # Errors
/// `InvalidArgumentError`: no job has this name.
/// `Io`: the times could not be written.
/// Else what the job answers.
pub fn show_time<J: Job, R: Clock + AllocGlobal + Print>(
    rt: &R,
    jobs: &[J],
    name: &str,
    size: usize,
) -> Result<()> {
    let job = choice_named(jobs, name)?;
    let timed = job.time(rt, size, J::ROUNDS)?;
    println!(rt; "{} {} {}", job.name(), timed.nanoseconds, timed.checksum)?;
    Ok(())
}
