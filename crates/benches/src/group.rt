use crate::{builders, flat, memory, nested};
use benches_timing::{JobGroup, Named, show_checksums, show_time};
use columnar_memory_types::Result;
use std::rt::Clock;

/// The jobs of a layer.
#[derive(Clone, Copy)]
pub(crate) enum Group {
    /// Those of the memory layer.
    Memory,

    /// Those of flat arrays.
    Flat,

    /// Those of nested arrays.
    Nested,

    /// Those of builders.
    Builders,
}

pub(crate) const GROUPS: [Group; 4] = [Group::Memory, Group::Flat, Group::Nested, Group::Builders];

impl Named for Group {
    fn name(&self) -> &'static str {
        match self {
            Group::Memory => "memory",
            Group::Flat => "flat",
            Group::Nested => "nested",
            Group::Builders => "builders",
        }
    }
}

impl JobGroup for Group {
    fn show_checksums<R: Clock + AllocGlobal + Print>(self, rt: &R) -> Result<()> {
        match self {
            Group::Memory => show_checksums(rt, self.name(), &memory::JOBS),
            Group::Flat => show_checksums(rt, self.name(), &flat::JOBS),
            Group::Nested => show_checksums(rt, self.name(), &nested::JOBS),
            Group::Builders => show_checksums(rt, self.name(), &builders::JOBS),
        }
    }

    fn show_time<R: Clock + AllocGlobal + Print>(
        self,
        rt: &R,
        job: &str,
        size: usize,
    ) -> Result<()> {
        match self {
            Group::Memory => show_time(rt, &memory::JOBS, job, size),
            Group::Flat => show_time(rt, &flat::JOBS, job, size),
            Group::Nested => show_time(rt, &nested::JOBS, job, size),
            Group::Builders => show_time(rt, &builders::JOBS, job, size),
        }
    }
}
