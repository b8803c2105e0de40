use crate::builders::rows::{Cells, Copied};
use crate::builders::typed::Typed;
use benches_timing::{Job, Named, Timed, time_rounds};
use columnar_memory_types::Result;
use std::rt::Clock;

/// A job that is timed.
#[derive(Clone, Copy)]
pub(crate) enum BuilderJob {
    /// Rows of cells by `try_push_scalar`.
    Cells,

    /// Rows of slots of arrays by `try_push_from`.
    Copied,

    /// Rows by the calls of a builder of each type.
    Typed,
}

pub(crate) const JOBS: [BuilderJob; 3] = [BuilderJob::Cells, BuilderJob::Copied, BuilderJob::Typed];

impl Named for BuilderJob {
    fn name(&self) -> &'static str {
        match self {
            BuilderJob::Cells => "cells",
            BuilderJob::Copied => "copied",
            BuilderJob::Typed => "typed",
        }
    }
}

impl Job for BuilderJob {
    const ROUNDS: u32 = 7;

    const SMALL: usize = 10_000;

    fn time<R: Clock + AllocGlobal>(self, rt: &R, size: usize, rounds: u32) -> Result<Timed> {
        let alloc = rt.alloc();
        match self {
            BuilderJob::Cells => time_rounds(rt, rounds, &Cells::of(alloc, size)?),
            BuilderJob::Copied => time_rounds(rt, rounds, &Copied::of(alloc, size)?),
            BuilderJob::Typed => time_rounds(rt, rounds, &Typed::of(alloc, size)?),
        }
    }
}
