//! Tests of the packages of the metadata's values, and of files that are written and read: worked values, each call once; and the definitions of
//! the format, computed on small values. They stand here since a crate with tests is proved twice.
#![tactic(auto)]

#[cfg(test)]
mod answers;
#[cfg(test)]
mod appended;
mod calling;
mod calling_owned;
#[cfg(test)]
mod cases;
#[cfg(test)]
mod devices;
#[cfg(test)]
mod file_reader;
#[cfg(test)]
mod file_refusals;
#[cfg(test)]
mod file_writer;
#[cfg(test)]
mod samples;
#[cfg(test)]
mod schemas;
#[cfg(test)]
mod taken;
#[cfg(test)]
mod worked;

pub use calling::message_of;
pub use calling_owned::whole_field;
