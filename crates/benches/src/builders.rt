//! Jobs of builders, beside `tools/benches/plain_builders.rs`. Their size is the number of rows, of a number, a short text, one of a thousand
//! texts and a list of up to three numbers.
mod bytes;
mod columns;
mod data;
mod job;
mod rows;
mod typed;

pub(crate) use job::{BuilderJob, JOBS};
