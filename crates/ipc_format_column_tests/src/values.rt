//! Values that the ids of dictionaries name.
use crate::cases::{id, keyed, list, no_id, pair};
use ipc_format_reading::columnar_memory::{DataType, Items};
use ipc_format_reading::dictionary_values;
use std::test::*;

/// Of a dictionary 7 of lists of a dictionary 3 of texts, beside the number x.
#[test]
fn the_values_of_an_id_at_any_depth(rt: HostRuntime) -> Result<(), Fail> {
    let alloc = rt.alloc();
    let lists = list(alloc, keyed(alloc, DataType::Utf8)?)?;
    let fields = pair(alloc, DataType::Int32, keyed(alloc, lists)?)?;
    let mut below = Items::new(alloc);
    below.push(id(3, Items::new(alloc)))?;
    let mut ids = Items::new(alloc);
    ids.push(no_id(Items::new(alloc)))?;
    ids.push(id(7, below))?;
    let outer = dictionary_values(fields.as_slice(), ids.as_slice(), 7).ok_or("no 7")?;
    assert!(rt; matches!(outer.data_type, DataType::List(_)));
    assert_eq!(rt; outer.ipc_fields.len(), 1);
    let inner = dictionary_values(fields.as_slice(), ids.as_slice(), 3).ok_or("no 3")?;
    assert!(rt; matches!(inner.data_type, DataType::Utf8));
    assert!(rt; dictionary_values(fields.as_slice(), ids.as_slice(), 5).is_none());
    Ok(())
}
