//! Tests of the flat arrays and their builders, apart from their packages since a package with tests is proved twice.
#![tactic(auto)]

#[cfg(test)]
mod binary;
#[cfg(test)]
mod binary_builders;
#[cfg(test)]
mod binary_values;
#[cfg(test)]
mod boolean_builders;
#[cfg(test)]
mod booleans;
#[cfg(test)]
mod cases;
#[cfg(test)]
mod indexes;
#[cfg(test)]
mod number_builders;
#[cfg(test)]
mod numbers;
#[cfg(test)]
mod owned;
#[cfg(test)]
mod utf8;
#[cfg(test)]
mod utf8_builders;
#[cfg(test)]
mod utf8_values;
#[cfg(test)]
mod walks;
