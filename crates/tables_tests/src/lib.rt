//! Tests of the program's commands and of the tables under them. They stand here since a crate with tests is proved twice.
#![tactic(auto)]

mod calling;
#[cfg(test)]
mod choices;
#[cfg(test)]
mod commands;
#[cfg(test)]
mod each_command;
#[cfg(test)]
mod parts;
#[cfg(test)]
mod reading;
#[cfg(test)]
mod refusals;
#[cfg(test)]
mod rows;
#[cfg(test)]
mod samples;
#[cfg(test)]
mod seals;
#[cfg(test)]
mod streams;

pub use calling::{head, push};
