use crate::words::{Named, choice_named};
use columnar_memory_types::{Error, Result};
use std::rt::Clock;

/// A group of jobs.
pub trait JobGroup: Named {
    /// Shows the name of each of its jobs, and the checksum of what it makes at a small size.
    ///
    /// # Errors
    /// Those of its jobs.
    /// `Io`: the names could not be written.
    fn show_checksums<R: Clock + AllocGlobal + Print>(self, rt: &R) -> Result<()>;

    /// Times its job of a name at a size.
    ///
    /// # Errors
    /// `InvalidArgumentError`: no job has this name.
    /// `Io`: the times could not be written.
    /// Else what the job answers.
    fn show_time<R: Clock + AllocGlobal + Print>(
        self,
        rt: &R,
        job: &str,
        size: usize,
    ) -> Result<()>;
}

/// Does what the words of a program ask for: the job of a group at a size, which is timed, or the jobs of a group, or those of all groups, whose
/// checksums are shown.
///
/// # Errors
/// `InvalidArgumentError`: a name of no group or job, a size that is no number, or other words than these.
/// `Io`: the answers could not be written.
/// Else what a job answers.
pub fn show_asked<G: JobGroup, R: Clock + AllocGlobal + Print>(
    rt: &R,
    groups: &[G],
    words: &[String],
) -> Result<()> {
    match words {
        [] => show_all(rt, groups),
        [group] => choice_named(groups, group.as_str())?.show_checksums(rt),
        [group, job, size] => {
            let Ok(size) = size.parse::<usize>() else {
                return Err(Error::InvalidArgumentError("a size that is no number"));
            };
            choice_named(groups, group.as_str())?.show_time(rt, job.as_str(), size)
        }
        _ => Err(Error::InvalidArgumentError("other words than a group, a job and a size")),
    }
}

fn show_all<G: JobGroup, R: Clock + AllocGlobal + Print>(rt: &R, groups: &[G]) -> Result<()> {
    for group in groups {
        group.show_checksums(rt)?;
    }
    Ok(())
}
