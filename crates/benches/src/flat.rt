//! Jobs of flat arrays and their builders, beside `tools/benches/plain_flat.rs`. Their size is the number of slots, of cuts where the job is `cut`.
mod data;
mod job;
mod numbers;
mod texts;

pub(crate) use job::{FlatJob, JOBS};
