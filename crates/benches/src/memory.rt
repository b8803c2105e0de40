//! Jobs of the memory layer, beside `tools/benches/plain_memory.rs`. Their size is the number of bits, of lengths where the job is `offsets`.
mod bits;
mod data;
mod job;
mod values;

pub(crate) use job::{JOBS, MemoryJob};
