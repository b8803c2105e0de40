use crate::metadata::data::Data;
use benches_timing::{Job, Named, Timed, Work, time_rounds};
use columnar_memory_types::{Error, Result};
use ipc_format::{deserialize_schema, schema_to_bytes};
use std::alloc::Global;
use std::rt::Clock;

/// A job that is timed.
#[derive(Clone, Copy)]
pub(crate) enum MetadataJob {
    /// `deserialize_schema` of the metadata.
    Read,

    /// `schema_to_bytes` of the schema.
    Write,

    /// A copy of the metadata.
    Copy,
}

pub(crate) const JOBS: [MetadataJob; 3] = [
    MetadataJob::Read,
    MetadataJob::Write,
    MetadataJob::Copy,
];

impl Named for MetadataJob {
    fn name(&self) -> &'static str {
        match self {
            MetadataJob::Read => "read",
            MetadataJob::Write => "write",
            MetadataJob::Copy => "copy",
        }
    }
}

impl MetadataJob {
    /// Does the job once, lets go of what it made, and answers how many bytes the metadata has.
    ///
    /// # Errors
    /// `OutOfMemory`: what the job makes found no memory.
    /// `InvalidArgumentError`: another number of fields was read than there are.
    fn make(self, alloc: Global, data: &Data) -> Result<usize> {
        match self {
            MetadataJob::Read => {
                let (schema, _beside) = deserialize_schema(alloc, &data.bytes)?;
                if schema.fields.len() != data.schema.fields.len() {
                    return Err(Error::InvalidArgumentError("another number of fields"));
                }
                Ok(data.bytes.len())
            }
            MetadataJob::Write => Ok(schema_to_bytes(alloc, &data.schema, &data.ids)?.len()),
            MetadataJob::Copy => {
                let mut copied = Vec::new(alloc);
                copied.extend_from_slice(&data.bytes)?;
                Ok(copied.len())
            }
        }
    }
}

impl Job for MetadataJob {
    const ROUNDS: u32 = 100;

    const SMALL: usize = 300;

    fn time<R: Clock + AllocGlobal>(self, rt: &R, size: usize, rounds: u32) -> Result<Timed> {
        let alloc = rt.alloc();
        let data = Data::of(alloc, size)?;
        let job = self;
        time_rounds(rt, rounds, &JobOn { job, alloc, data })
    }
}

/// A job with its data.
#[derive(Drop)]
struct JobOn {
    job: MetadataJob,
    alloc: Global,
    data: Data,
}

impl Work for JobOn {
    type Made = usize;

    /// The number of bytes of the metadata.
    fn make(&self) -> Result<usize> {
        self.job.make(self.alloc, &self.data)
    }

    fn checksum(made: &usize) -> u64 {
        *made as u64
    }
}
