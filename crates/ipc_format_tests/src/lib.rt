//! Tests of the packages of the format: worked values from outside, and each call that takes memory run once.
#![tactic(auto)]

#[cfg(test)]
mod columns;
#[cfg(test)]
mod given_batches;
#[cfg(test)]
mod laying;
#[cfg(test)]
mod messages;
#[cfg(test)]
mod reading;
#[cfg(test)]
mod samples;
#[cfg(test)]
mod schema_views;
#[cfg(test)]
mod schemas;
#[cfg(test)]
mod streams;
#[cfg(test)]
mod writable;
#[cfg(test)]
mod writing;
#[cfg(test)]
mod written_columns;
