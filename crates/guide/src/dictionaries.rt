//! Dictionaries of texts: each text is held once.
use crate::callers::{Words, add_word};
use nested_arrays::columnar_memory::{Boxed, DataType, Error, IntegerType};
use nested_arrays::flat_arrays::{MutableUtf8Array, Utf8Array};
use nested_arrays::{AnyArray, DictionaryArray, Downcast, MutableArray, TryExtend};
use std::alloc::Global;
use std::test::Fail;

fn new_words(alloc: Global) -> Result<Words, Error> {
    let values = Boxed::new(alloc, DataType::Utf8)?;
    let data_type = DataType::Dictionary(IntegerType::Int32, values, false);
    Words::try_new(alloc, data_type, MutableUtf8Array::new(alloc)?)
}

/// Pushes a text.
fn push(words: &mut Words, alloc: Global, text: &str) -> Result<(), Error> {
    let text = String::from_str(alloc, text)?;
    add_word(words, &text)
}

/// Whether an array is of texts that are these one behind another.
fn are_texts(array: &AnyArray, count: usize, texts: &str) -> bool {
    match Utf8Array::<i32>::downcast_ref(array) {
        Some(found) => found.len() == count && found.values().as_slice() == texts.as_bytes(),
        None => false,
    }
}

/// Whether a dictionary has these keys, and so many texts that are these one behind another.
fn stores(array: &DictionaryArray<i32>, keys: &[i32], count: usize, texts: &str) -> bool {
    array.keys().values().as_slice() == keys && are_texts(array.values(), count, texts)
}

/// Whether an array is such a dictionary.
fn holds(array: AnyArray, keys: &[i32], count: usize, texts: &str) -> bool {
    match DictionaryArray::<i32>::try_from(array) {
        Ok(found) => {
            let same = stores(&found, keys, count, texts);
            drop(found);
            same
        }
        Err(other) => {
            drop(other);
            false
        }
    }
}

/// Keeps the first slots alone, where there are more.
fn keep(words: &mut Words, count: usize) {
    if count < words.len() {
        words.truncate(count);
    }
}

/// Pushes two texts, and another one in place of the second.
fn push_and_replace(words: &mut Words, alloc: Global) -> Result<(), Error> {
    push(words, alloc, "a")?;
    push(words, alloc, "b")?;
    keep(words, 1);
    push(words, alloc, "c")
}

#[test]
fn a_cut_forgets_a_text(rt: HostRuntime) -> Result<(), Fail> {
    let mut words = new_words(rt.alloc())?;
    let pushed = push_and_replace(&mut words, rt.alloc());
    let array = words.as_box(rt.alloc());
    drop(words);
    pushed?;
    let found = holds(array?, &[0, 1], 2, "ac");
    assert!(rt; found);
    Ok(())
}

/// Whether a dictionary of two texts is frozen, and whether one of the second text alone then.
fn freeze_twice(words: &mut Words, alloc: Global) -> Result<(bool, bool), Error> {
    push(words, alloc, "b")?;
    push(words, alloc, "a")?;
    let first = holds(words.as_box(alloc)?, &[0, 1], 2, "ba");
    push(words, alloc, "a")?;
    let second = holds(words.as_box(alloc)?, &[0], 1, "a");
    Ok((first, second))
}

#[test]
fn what_was_frozen_is_forgotten(rt: HostRuntime) -> Result<(), Fail> {
    let mut words = new_words(rt.alloc())?;
    let found = freeze_twice(&mut words, rt.alloc());
    drop(words);
    assert_eq!(rt; found?, (true, true));
    Ok(())
}

/// How many slots and how many texts there are where three are pushed of which two are the same.
fn extend(words: &mut Words, alloc: Global) -> Result<(usize, usize), Error> {
    let texts = [
        String::from_str(alloc, "a")?,
        String::from_str(alloc, "b")?,
        String::from_str(alloc, "a")?,
    ];
    words.try_extend(&texts)?;
    Ok((words.len(), words.values().len()))
}

#[test]
fn texts_that_are_the_same_are_held_once(rt: HostRuntime) -> Result<(), Fail> {
    let mut words = new_words(rt.alloc())?;
    let counts = extend(&mut words, rt.alloc());
    drop(words);
    assert_eq!(rt; counts?, (3, 2));
    Ok(())
}

/// The keys of two texts, of which one is there.
fn keys_of(words: &mut Words, alloc: Global) -> Result<(Option<i32>, Option<i32>), Error> {
    push(words, alloc, "a")?;
    words.push_null()?;
    let (known, other) = (String::from_str(alloc, "a")?, String::from_str(alloc, "b")?);
    Ok((words.key_of(&known), words.key_of(&other)))
}

#[test]
fn a_text_has_a_key(rt: HostRuntime) -> Result<(), Fail> {
    let mut words = new_words(rt.alloc())?;
    let keys = keys_of(&mut words, rt.alloc());
    drop(words);
    assert_eq!(rt; keys?, (Some(0), None));
    Ok(())
}
