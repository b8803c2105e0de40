//! Tests of what builders of nested arrays are made of, apart from its package since a package with tests is proved twice.
#![tactic(auto)]

#[cfg(test)]
mod begun;
#[cfg(test)]
mod dictionaries;
#[cfg(test)]
mod dictionary_builders;
#[cfg(test)]
mod generic_lists;
#[cfg(test)]
mod lists;
#[cfg(test)]
mod marks;
#[cfg(test)]
mod nulls_alone;
#[cfg(test)]
mod sized_strings;
#[cfg(test)]
mod strings;
#[cfg(test)]
mod struct_builders;
