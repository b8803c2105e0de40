//! Jobs of the format: the metadata of a large schema is read, written, and its bytes copied. Their size is the number of fields, which stand
//! three deep: structs of structs of numbers, each with a pair of metadata. The checksum is the number of bytes of the metadata.
mod data;
mod job;

pub(crate) use job::{JOBS, MetadataJob};
