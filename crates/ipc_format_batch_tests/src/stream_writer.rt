//! Streams that are written, read back.
use crate::answers::{Short, read_back, told};
use crate::cases::{id, letters, letters_schema, numbers, numbers_schema, of_two, pairs_schema};
use crate::samples::EXAMPLE;
use crate::writers::{calls, start_numbers, started, to_memory, write_numbers, write_one};
use ipc_format::columnar_memory::Error;
use ipc_format::format::MessageHeaderRef;
use ipc_format::{NextMessage, StreamWriter, next_at};
use std::alloc::Global;
use std::test::*;

/// What stands at a place of a stream.
#[derive(Clone, Copy, Debug, PartialEq, Eq)]
enum Kind {
    Schema,
    Dictionary,
    Batch,
    End,
    Broken,
}

/// What stands at a place, and where the next message stands.
fn kind_at(bytes: &[u8], place: usize) -> (Kind, usize) {
    match next_at(bytes, place) {
        None | Some(NextMessage::Truncated) => (Kind::Broken, place),
        Some(NextMessage::End) => (Kind::End, place),
        Some(NextMessage::Message(framed, after)) => match framed.header {
            MessageHeaderRef::Schema(_) => (Kind::Schema, after),
            MessageHeaderRef::DictionaryBatch(_) => (Kind::Dictionary, after),
            MessageHeaderRef::RecordBatch(_) => (Kind::Batch, after),
        },
    }
}

/// What the first six messages of a stream are. Where it ends, the end stands for each that is not there.
fn kinds(bytes: &[u8]) -> [Kind; 6] {
    let (first, place) = kind_at(bytes, 0);
    let (second, place) = kind_at(bytes, place);
    let (third, place) = kind_at(bytes, place);
    let (fourth, place) = kind_at(bytes, place);
    let (fifth, place) = kind_at(bytes, place);
    let (sixth, _place) = kind_at(bytes, place);
    [first, second, third, fourth, fifth, sixth]
}

/// The stream of one batch of numbers.
fn numbers_stream(alloc: Global) -> Result<Vec<u8>, Error> {
    let mut writer = started(alloc, &numbers_schema(alloc)?, None)?;
    write_numbers(alloc, &mut writer)?;
    writer.finish()?;
    Ok(writer.into_inner())
}

#[test]
fn a_stream_of_one_batch(rt: HostRuntime) -> Result<(), Fail> {
    let bytes = numbers_stream(rt.alloc())?;
    let wanted = numbers(rt.alloc())?;
    let found = read_back(rt.alloc(), &bytes[..], &wanted, &wanted)?;
    let (length, is_example) = (bytes.len(), bytes.as_slice() == EXAMPLE.as_slice());
    drop(bytes);
    drop(wanted);
    assert_eq!(rt; found, [Short::Expected, Short::Nothing, Short::Nothing]);
    assert_eq!(rt; (length, is_example), (496, true));
    Ok(())
}

#[test]
fn calls_out_of_order(rt: HostRuntime) -> Result<(), Fail> {
    let alloc = rt.alloc();
    let mut writer = to_memory(alloc);
    let early = [
        told(write_numbers(alloc, &mut writer)),
        told(writer.finish()),
    ];
    let first = told(start_numbers(alloc, &mut writer));
    let again = calls(alloc, &mut writer);
    let late = calls(alloc, &mut writer);
    let bytes: Vec<u8> = writer.into_inner();
    let is_example = bytes.as_slice() == EXAMPLE.as_slice();
    drop(bytes);
    let (done, refused) = (Short::Done, Short::OutOfSpec);
    assert_eq!(rt; (early, first), ([refused, refused], done));
    assert_eq!(rt; again, [refused, done, done]);
    assert_eq!(rt; late, [refused, refused, refused]);
    assert!(rt; is_example);
    Ok(())
}

/// A writer to memory that has written the schema of two columns, whose dictionaries have both the id 0.
fn started_pairs(alloc: Global) -> Result<StreamWriter<Vec<u8>>, Error> {
    let mut ids = Vec::new(alloc);
    ids.push(id(alloc, Some(0)))?;
    ids.push(id(alloc, Some(0)))?;
    started(alloc, &pairs_schema(alloc)?, Some(ids))
}

/// Writes a batch of two columns of letters.
fn write_pair(
    alloc: Global,
    writer: &mut StreamWriter<Vec<u8>>,
    first: &[&'static str],
    second: &[&'static str],
) -> Result<(), Error> {
    let batch = of_two(alloc, letters(alloc, first)?, letters(alloc, second)?)?;
    writer.write(alloc, &batch, None)
}

/// What is written once a batch of two columns of the same letters and the end are.
fn finished_pairs(
    alloc: Global,
    mut writer: StreamWriter<Vec<u8>>,
    texts: &[&'static str],
) -> Result<Vec<u8>, Error> {
    write_pair(alloc, &mut writer, texts, texts)?;
    writer.finish()?;
    Ok(writer.into_inner())
}

#[test]
fn two_columns_share_a_dictionary(rt: HostRuntime) -> Result<(), Fail> {
    let alloc = rt.alloc();
    let bytes = finished_pairs(alloc, started_pairs(alloc)?, &["a", "b"])?;
    let kinds = kinds(&bytes);
    drop(bytes);
    let (schema, dictionary, batch, end) = (Kind::Schema, Kind::Dictionary, Kind::Batch, Kind::End);
    assert_eq!(rt; kinds, [schema, dictionary, batch, end, end, end]);
    Ok(())
}

/// What a batch of two dictionaries of one id gives, and whether a good one behind it is written as if the first had not been tried.
fn refused_pair(alloc: Global, texts: &[&'static str]) -> Result<(Short, bool), Error> {
    let mut writer = started_pairs(alloc)?;
    let refused = told(write_pair(alloc, &mut writer, &["a", "b"], &["c", "d"]));
    let bytes = finished_pairs(alloc, writer, texts)?;
    let wanted = finished_pairs(alloc, started_pairs(alloc)?, texts)?;
    Ok((refused, bytes == wanted))
}

#[test]
fn one_id_has_one_dictionary(rt: HostRuntime) -> Result<(), Fail> {
    let first = refused_pair(rt.alloc(), &["a", "b"])?;
    let second = refused_pair(rt.alloc(), &["c", "d"])?;
    assert_eq!(rt; first, (Short::InvalidArgument, true));
    assert_eq!(rt; second, (Short::InvalidArgument, true));
    Ok(())
}

/// The stream of two batches of letters.
fn letters_stream(
    alloc: Global,
    first: &[&'static str],
    second: &[&'static str],
) -> Result<Vec<u8>, Error> {
    let mut writer = started(alloc, &letters_schema(alloc)?, None)?;
    write_one(alloc, &mut writer, letters(alloc, first)?)?;
    write_one(alloc, &mut writer, letters(alloc, second)?)?;
    writer.finish()?;
    Ok(writer.into_inner())
}

/// What the messages of such a stream are, and what a reader of it answers beside the two columns.
fn of_letters(
    alloc: Global,
    first: &[&'static str],
    second: &[&'static str],
) -> Result<([Kind; 6], [Short; 3]), Error> {
    let bytes = letters_stream(alloc, first, second)?;
    let (first, second) = (letters(alloc, first)?, letters(alloc, second)?);
    let found = read_back(alloc, &bytes[..], &first, &second)?;
    Ok((kinds(&bytes), found))
}

#[test]
fn a_dictionary_is_replaced(rt: HostRuntime) -> Result<(), Fail> {
    let (kinds, found) = of_letters(rt.alloc(), &["a", "b"], &["a", "c"])?;
    let (schema, dictionary, batch, end) = (Kind::Schema, Kind::Dictionary, Kind::Batch, Kind::End);
    assert_eq!(rt; kinds, [schema, dictionary, batch, dictionary, batch, end]);
    assert_eq!(rt; found, [Short::Expected, Short::Expected, Short::Nothing]);
    Ok(())
}

#[test]
fn a_dictionary_is_sent_once(rt: HostRuntime) -> Result<(), Fail> {
    let (kinds, found) = of_letters(rt.alloc(), &["a", "b"], &["a", "b"])?;
    let (schema, dictionary, batch, end) = (Kind::Schema, Kind::Dictionary, Kind::Batch, Kind::End);
    assert_eq!(rt; kinds, [schema, dictionary, batch, batch, end, end]);
    assert_eq!(rt; found, [Short::Expected, Short::Expected, Short::Nothing]);
    Ok(())
}
