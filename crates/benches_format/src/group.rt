use crate::{columns, metadata};
use benches_timing::{JobGroup, Named, show_checksums, show_time};
use columnar_memory_types::Result;
use std::rt::Clock;

/// The jobs of a layer.
#[derive(Clone, Copy)]
pub(crate) enum Group {
    /// Those of schemas.
    Metadata,

    /// Those of columns, files and streams.
    Columns,
}

pub(crate) const GROUPS: [Group; 2] = [Group::Metadata, Group::Columns];

impl Named for Group {
    fn name(&self) -> &'static str {
        match self {
            Group::Metadata => "metadata",
            Group::Columns => "columns",
        }
    }
}

impl JobGroup for Group {
    fn show_checksums<R: Clock + AllocGlobal + Print>(self, rt: &R) -> Result<()> {
        match self {
            Group::Metadata => show_checksums(rt, self.name(), &metadata::JOBS),
            Group::Columns => show_checksums(rt, self.name(), &columns::JOBS),
        }
    }

    fn show_time<R: Clock + AllocGlobal + Print>(
        self,
        rt: &R,
        job: &str,
        size: usize,
    ) -> Result<()> {
        match self {
            Group::Metadata => show_time(rt, &metadata::JOBS, job, size),
            Group::Columns => show_time(rt, &columns::JOBS, job, size),
        }
    }
}
