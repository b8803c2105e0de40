//! How jobs that are asked for by name are timed: the least time of some rounds, and a checksum of what a job makes, by which it is compared
//! with another program's. And the data that jobs of more than one program have.
#![tactic(auto)]

mod data;
mod groups;
mod jobs;
mod lists;
mod rounds;
mod words;

pub use data::{WORDS, bytes_checksum, mixed, number_at, short_texts, slot_at};
pub use groups::{JobGroup, show_asked};
pub use jobs::{Job, show_checksums, show_time};
pub use lists::{Lists, short_lists};
pub use rounds::{Timed, Work, time_rounds};
pub use words::{Named, choice_named};
