//! The messages of batches.
use crate::answers::{Short, told};
use crate::cases::{id, letters, numbers, of_one, of_two, other_numbers};
use crate::samples::EXAMPLE;
use ipc_format::columnar_memory::Error;
use ipc_format::nested_arrays_core::AnyArray;
use ipc_format::{
    Compression, DictionaryTracker, EncodedData, WriteOptions, encode_chunk,
    encode_chunk_amortized, write_continuation, write_message,
};
use std::alloc::Global;
use std::test::*;

/// The messages of a batch of one column without dictionaries.
fn encode_one(
    alloc: Global,
    array: AnyArray,
    options: &WriteOptions,
) -> Result<(Vec<EncodedData>, EncodedData), Error> {
    let chunk = of_one(alloc, array)?;
    let mut tracker = DictionaryTracker::new(alloc, false);
    encode_chunk(alloc, &chunk, &[id(alloc, None)], &mut tracker, options)
}

/// Puts the message of such a batch in place of another, and answers how many dictionaries go before it.
fn encode_into(alloc: Global, array: AnyArray, encoded: &mut EncodedData) -> Result<usize, Error> {
    let chunk = of_one(alloc, array)?;
    let mut tracker = DictionaryTracker::new(alloc, false);
    let ids = [id(alloc, None)];
    let options = WriteOptions::new();
    let dictionaries = encode_chunk_amortized(
        alloc,
        &chunk,
        &ids,
        &mut tracker,
        &options,
        encoded,
    )?;
    Ok(dictionaries.len())
}

/// Whether a message is that of the example's batch.
fn is_example(encoded: &EncodedData) -> bool {
    encoded.ipc_message.as_slice() == &EXAMPLE[208..360]
        && encoded.arrow_data.as_slice() == &EXAMPLE[360..488]
}

#[test]
fn a_batch_without_dictionaries_is_one_message(rt: HostRuntime) -> Result<(), Fail> {
    let alloc = rt.alloc();
    let (dictionaries, own) = encode_one(alloc, numbers(alloc)?, &WriteOptions::new())?;
    let found = (dictionaries.len(), is_example(&own));
    drop(dictionaries);
    drop(own);
    assert_eq!(rt; found, (0, true));
    Ok(())
}

#[test]
fn a_message_takes_the_place_of_another(rt: HostRuntime) -> Result<(), Fail> {
    let alloc = rt.alloc();
    let mut encoded = EncodedData::new(alloc);
    let first = encode_into(alloc, other_numbers(alloc)?, &mut encoded)?;
    let is_other = !is_example(&encoded);
    let second = encode_into(alloc, numbers(alloc)?, &mut encoded)?;
    let is_so = is_example(&encoded);
    drop(encoded);
    assert_eq!(rt; (first, second), (0, 0));
    assert_eq!(rt; (is_other, is_so), (true, true));
    Ok(())
}

#[test]
fn a_message_and_the_end_are_written(rt: HostRuntime) -> Result<(), Fail> {
    let alloc = rt.alloc();
    let mut encoded = EncodedData::new(alloc);
    let _dictionaries = encode_into(alloc, numbers(alloc)?, &mut encoded)?;
    let mut bytes = Vec::new(alloc);
    let sizes = write_message(&mut bytes, &encoded).ok();
    let end = write_continuation(&mut bytes, 0).ok();
    drop(encoded);
    let is_so = bytes.as_slice() == &EXAMPLE[200..];
    drop(bytes);
    assert_eq!(rt; (sizes, end), (Some((160, 128)), Some(8)));
    assert!(rt; is_so);
    Ok(())
}

/// How many dictionaries go before a batch of letters, where the id is 5.
fn sent(
    alloc: Global,
    texts: &[&'static str],
    tracker: &mut DictionaryTracker,
) -> Result<usize, Error> {
    let chunk = of_one(alloc, letters(alloc, texts)?)?;
    let ids = [id(alloc, Some(5))];
    let (dictionaries, _own) = encode_chunk(alloc, &chunk, &ids, tracker, &WriteOptions::new())?;
    Ok(dictionaries.len())
}

#[test]
fn a_dictionary_is_sent_where_it_changes(rt: HostRuntime) -> Result<(), Fail> {
    let alloc = rt.alloc();
    let mut tracker = DictionaryTracker::new(alloc, false);
    let first = sent(alloc, &["a", "b"], &mut tracker).ok();
    let again = sent(alloc, &["a", "b"], &mut tracker).ok();
    let other = sent(alloc, &["a", "c"], &mut tracker).ok();
    drop(tracker);
    assert_eq!(rt; (first, again, other), (Some(1), Some(0), Some(1)));
    Ok(())
}

#[test]
fn a_tracker_may_refuse_another_dictionary(rt: HostRuntime) -> Result<(), Fail> {
    let alloc = rt.alloc();
    let mut tracker = DictionaryTracker::new(alloc, true);
    let first = sent(alloc, &["a", "b"], &mut tracker).ok();
    let refused = told(sent(alloc, &["a", "c"], &mut tracker));
    let again = sent(alloc, &["a", "b"], &mut tracker).ok();
    drop(tracker);
    assert_eq!(rt; (first, again), (Some(1), Some(0)));
    assert_eq!(rt; refused, Short::InvalidArgument);
    Ok(())
}

/// How many dictionaries go before a batch of two columns of letters, whose ids are both 0.
fn sent_of_two(
    alloc: Global,
    second: &[&'static str],
    tracker: &mut DictionaryTracker,
) -> Result<usize, Error> {
    let chunk = of_two(alloc, letters(alloc, &["a", "b"])?, letters(alloc, second)?)?;
    let ids = [id(alloc, Some(0)), id(alloc, Some(0))];
    let (dictionaries, _own) = encode_chunk(alloc, &chunk, &ids, tracker, &WriteOptions::new())?;
    Ok(dictionaries.len())
}

#[test]
fn two_dictionaries_of_one_id_are_refused(rt: HostRuntime) -> Result<(), Fail> {
    let alloc = rt.alloc();
    let mut tracker = DictionaryTracker::new(alloc, false);
    let refused = told(sent_of_two(alloc, &["c", "d"], &mut tracker));
    let count = tracker.dictionaries.len();
    let good = sent_of_two(alloc, &["a", "b"], &mut tracker).ok();
    drop(tracker);
    assert_eq!(rt; refused, Short::InvalidArgument);
    assert_eq!(rt; (count, good), (0, Some(1)));
    Ok(())
}

#[test]
fn ids_fit_the_columns(rt: HostRuntime) -> Result<(), Fail> {
    let alloc = rt.alloc();
    let chunk = of_one(alloc, numbers(alloc)?)?;
    let mut tracker = DictionaryTracker::new(alloc, false);
    let wrong = [id(alloc, Some(0))];
    let refused = told(encode_chunk(alloc, &chunk, &wrong, &mut tracker, &WriteOptions::new()));
    drop(tracker);
    drop(chunk);
    assert_eq!(rt; refused, Short::InvalidArgument);
    Ok(())
}

#[test]
fn nothing_is_compressed(rt: HostRuntime) -> Result<(), Fail> {
    let alloc = rt.alloc();
    let options = WriteOptions {
        compression: Some(Compression::ZSTD),
    };
    let refused = told(encode_one(alloc, numbers(alloc)?, &options));
    assert_eq!(rt; refused, Short::NotYetImplemented);
    Ok(())
}
