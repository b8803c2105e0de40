//! Tests of arrays of each layout, of what arrays of any type answer, of their copies, equality and nulls, apart from their packages since a
//! package with tests is proved twice.
#![tactic(auto)]

#[cfg(test)]
mod cases;
#[cfg(test)]
mod copies;
mod counts;
#[cfg(test)]
mod dictionaries;
#[cfg(test)]
mod downcasts;
#[cfg(test)]
mod fixed_sizes;
#[cfg(test)]
mod flat;
#[cfg(test)]
mod gathered;
#[cfg(test)]
mod generic;
#[cfg(test)]
mod kinds;
#[cfg(test)]
mod lists;
#[cfg(test)]
mod masks;
#[cfg(test)]
mod nested;
#[cfg(test)]
mod nulls;
#[cfg(test)]
mod numbers;
#[cfg(test)]
mod records;
#[cfg(test)]
mod typed;
#[cfg(test)]
mod unions;
