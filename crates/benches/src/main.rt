//! Times jobs of the arrays and of the memory below them, and answers a checksum of what each made.
//!
//!     benches GROUP JOB SIZE     the job, the least nanoseconds of its rounds, and the checksum
//!     benches GROUP              each job of the group at a small size: the group, the job and the checksum alone
//!     benches                    the same of every group
//!
//! The groups are `memory`, `flat`, `nested` and `builders`; what the size counts is said at each.
#![tactic(auto)]

mod builders;
mod flat;
mod group;
mod memory;
mod nested;

use benches_timing::show_asked;
use columnar_memory_types::Result;
use group::GROUPS;
use std::env;

fn main(rt: HostRuntime) -> Result<()> {
    let words: Vec<String> = env::args(&rt)?.skip(1).collect(rt.alloc())?;
    show_asked(&rt, &GROUPS, words.as_slice())
}
