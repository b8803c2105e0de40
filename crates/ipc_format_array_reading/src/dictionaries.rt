//! The dictionaries that stand.

use ipc_format_column_writing::nested_arrays_core::AnyArray;
use std::collections::BTreeMap;

/// The dictionaries that stand where a batch is read: the array of each one's values, under its id (Arrow IPC, "Dictionary Messages").
pub type Dictionaries = BTreeMap<i64, AnyArray>;
