//! Tests of messages that arrive and are written, of what is read of streams and batches before their columns, and of columns of any type that
//! are passed over, read and written. They stand here since a crate with tests is proved twice.
#![tactic(auto)]

#[cfg(test)]
mod arrays;
#[cfg(test)]
mod arriving;
#[cfg(test)]
mod buffers;
#[cfg(test)]
mod cases;
#[cfg(test)]
mod columns;
#[cfg(test)]
mod devices;
#[cfg(test)]
mod flat;
#[cfg(test)]
mod keyed;
#[cfg(test)]
mod queues;
#[cfg(test)]
mod sized;
#[cfg(test)]
mod skipping;
#[cfg(test)]
mod streams;
#[cfg(test)]
mod typed;
#[cfg(test)]
mod values;
#[cfg(test)]
mod written;
