//! Tests of the memory layer, apart from its packages since a package with tests is proved twice.
#![tactic(auto)]

#[cfg(test)]
mod bitmap;
#[cfg(test)]
mod bits;
#[cfg(test)]
mod booleans;
#[cfg(test)]
mod buffers;
#[cfg(test)]
mod cases;
#[cfg(test)]
mod content;
#[cfg(test)]
mod errors;
#[cfg(test)]
mod indices;
#[cfg(test)]
mod kernels;
#[cfg(test)]
mod native;
#[cfg(test)]
mod offsets;
#[cfg(test)]
mod schema;
#[cfg(test)]
mod shared_offsets;
