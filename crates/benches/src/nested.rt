//! Jobs of nested arrays, beside `tools/benches/plain_nested.rs`. Their size is the number of slots, of cuts where the job is `cut`.
mod data;
mod equality;
mod job;
mod tables;

pub(crate) use job::{JOBS, NestedJob};
