use crate::cases::hash_of;
use columnar_memory_types::{Boxed, Items, Metadata, Text};
use std::alloc::{AllocError, Global};
use std::collections::BTreeMap;
use std::test::Fail;

#[test]
fn a_box_equals_its_clone(rt: HostRuntime) -> Result<(), Fail> {
    let nine = Boxed::new(rt.alloc(), 9u64)?;
    assert!(rt; nine.clone()? == nine);
    assert!(rt; Boxed::new(nine.allocator(), 8u64)? != nine);
    assert!(rt; hash_of(&nine) == hash_of(&9u64));
    Ok(())
}

#[test]
fn a_box_gives_its_value_back(rt: HostRuntime) -> Result<(), Fail> {
    let nine = Boxed::new(rt.alloc(), 9u64)?;
    assert!(rt; *nine.get() == 9);
    let again = Boxed::from_box(nine.into_box());
    assert!(rt; again.into_inner() == 9);
    Ok(())
}

/// 3 and 4.
fn two_items(alloc: Global) -> Result<Items<u16>, AllocError> {
    let mut items = Items::new(alloc);
    items.push(3)?;
    items.push(4)?;
    Ok(items)
}

#[test]
fn items_are_their_elements(rt: HostRuntime) -> Result<(), Fail> {
    let items = two_items(rt.alloc())?;
    assert!(rt; items.len() == 2 && !items.is_empty());
    assert!(rt; items.as_slice() == [3, 4].as_slice());
    assert!(rt; items.get(1).copied() == Some(4));
    assert!(rt; items.iter().count() == 2);
    Ok(())
}

#[test]
fn items_equal_their_clone(rt: HostRuntime) -> Result<(), Fail> {
    let items = two_items(rt.alloc())?;
    let copied = items.clone()?;
    assert!(rt; copied == items);
    assert!(rt; hash_of(&copied) == hash_of(&items));
    assert!(rt; Items::new(rt.alloc()) != items);
    Ok(())
}

#[test]
fn items_are_made_of_vectors(rt: HostRuntime) -> Result<(), Fail> {
    let items = two_items(rt.alloc())?;
    let vector = vec![in items.allocator(); 3, 4]?;
    let moved = Items::from_vec(items.into_inner());
    assert!(rt; Items::from(vector) == moved);
    Ok(())
}

#[test]
fn a_text_equals_its_clone(rt: HostRuntime) -> Result<(), Fail> {
    let name = Text::from_str(rt.alloc(), "Zürich")?;
    assert!(rt; name.len() == 7 && !name.is_empty());
    assert!(rt; name.clone()? == name);
    assert!(rt; Text::from_str(rt.alloc(), "Zug")? < name);
    Ok(())
}

#[test]
fn a_text_is_its_bytes(rt: HostRuntime) -> Result<(), Fail> {
    let name = Text::from_str(rt.alloc(), "Zürich")?;
    assert!(rt; hash_of(&name) == hash_of(&"Zürich"));
    let again = Text::from(Text::new(name.into_inner()).into_inner());
    assert!(rt; again.as_str() == "Zürich");
    Ok(())
}

/// A unit, written twice, and a source.
fn three_pairs(alloc: Global) -> Result<Metadata, AllocError> {
    let mut pairs = Metadata::new(alloc);
    for (key, value) in [("unit", "m"), ("source", "survey"), ("unit", "km")] {
        pairs.insert(Text::from_str(alloc, key)?, Text::from_str(alloc, value)?)?;
    }
    Ok(pairs)
}

#[test]
fn pairs_stand_in_the_order_of_their_keys(rt: HostRuntime) -> Result<(), Fail> {
    let pairs = three_pairs(rt.alloc())?;
    let mut listed = String::new(rt.alloc());
    for (key, value) in pairs.iter() {
        listed.push_str(key.as_str())?;
        listed.push_str(value.as_str())?;
    }
    assert!(rt; listed.as_str() == "sourcesurveyunitkm");
    Ok(())
}

#[test]
fn a_value_is_found_by_its_key(rt: HostRuntime) -> Result<(), Fail> {
    let pairs = three_pairs(rt.alloc())?;
    assert!(rt; pairs.len() == 2 && !pairs.is_empty());
    assert!(rt; pairs.get_str("unit").map(|value| value.as_str()) == Some("km"));
    let none = Text::from_str(rt.alloc(), "none")?;
    assert!(rt; pairs.get(&none).is_none());
    Ok(())
}

#[test]
fn pairs_equal_their_clone(rt: HostRuntime) -> Result<(), Fail> {
    let pairs = three_pairs(rt.alloc())?;
    let copied = pairs.clone()?;
    assert!(rt; copied == pairs);
    assert!(rt; hash_of(&copied) == hash_of(&pairs));
    assert!(rt; Metadata::from_map(pairs.into_inner()) == copied);
    assert!(rt; Metadata::from(BTreeMap::new(rt.alloc())) != copied);
    Ok(())
}
