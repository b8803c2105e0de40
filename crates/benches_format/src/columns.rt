//! Jobs of columns, files and streams, beside `tools/benches/plain_columns.rs`: a column is read and written alone in its batch, files and streams
//! have a table of a hundred columns of numbers. The size is the number of slots of a column, and of a table the number of all its numbers.
mod column;
mod data;
mod files;
mod job;
mod streams;

pub(crate) use job::{ColumnsJob, JOBS};
