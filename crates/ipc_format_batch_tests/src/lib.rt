//! Tests of batches, their dictionaries, and streams of them, read and written. They stand here since a crate with tests is proved twice.
#![tactic(auto)]

#[cfg(test)]
mod answers;
#[cfg(test)]
mod batches;
#[cfg(test)]
mod cases;
#[cfg(test)]
mod devices;
#[cfg(test)]
mod dictionaries;
#[cfg(test)]
mod encoded;
#[cfg(test)]
mod projections;
#[cfg(test)]
mod records;
#[cfg(test)]
mod samples;
#[cfg(test)]
mod stream_reader;
#[cfg(test)]
mod stream_refusals;
#[cfg(test)]
mod stream_writer;
#[cfg(test)]
mod writers;
