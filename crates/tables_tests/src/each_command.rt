//! Each command over places in memory: its status, the line that it prints and what then stands under the output's name.
use crate::commands::{BEFORE, USAGE, places_with, run_over, words_of};
use crate::samples::{EXAMPLE, EXAMPLE_FILE};
use crate::seals::{NO_FIELDS, THREE_AT_ONCE, THREE_BY_TWO};
use crate::streams::{NESTED, ROWS, TWO_BATCHES};
use std::alloc::Global;
use tables::columnar_memory::Result;
use tables::{MemoryPlaces, Places, run};

/// Whether words over `in`, which holds some bytes, answer a status and a line, and what then stands under `out`.
fn answers(
    alloc: Global,
    input: &[u8],
    words: &[&str],
    status: u8,
    line: &str,
    output: &[u8],
) -> Result<bool> {
    let outcome = run_over(alloc, input, words)?;
    Ok(outcome.is(status, line, output))
}

/// The status of words that print nothing over places, or 255 where they print a line.
fn quiet_status(alloc: Global, places: &mut MemoryPlaces, words: &[&str]) -> Result<u8> {
    let words = words_of(alloc, words)?;
    let mut line = Vec::new(alloc);
    let status = run(alloc, places, &words, &mut line);
    Ok(if line.is_empty() { status } else { 255 })
}

/// Places that hold bytes under `in` and under `other`.
fn places_of_two(alloc: Global, input: &[u8], other: &[u8]) -> Result<MemoryPlaces> {
    let mut places = places_with(alloc, input)?;
    places.put("other", Vec::from_slice(alloc, other)?)?;
    Ok(places)
}

/// Whether these bytes stand under a name.
fn holds(places: &mut MemoryPlaces, name: &str, bytes: &[u8]) -> Result<bool> {
    match places.get(name)? {
        Some(found) => Ok(found.as_slice() == bytes),
        None => Ok(false),
    }
}

/// The status of `same` over two inputs, and whether it left the output as it was.
fn compared(alloc: Global, input: &[u8], other: &[u8]) -> Result<(u8, bool)> {
    let mut places = places_of_two(alloc, input, other)?;
    let status = quiet_status(alloc, &mut places, &["same", "in", "other"])?;
    Ok((status, holds(&mut places, "out", BEFORE)?))
}

#[test]
fn tells_the_same_rows(rt: HostRuntime) -> Result<()> {
    let alloc = rt.alloc();
    let forms = compared(alloc, &EXAMPLE, &EXAMPLE_FILE)?;
    let batches = compared(alloc, &TWO_BATCHES, &THREE_AT_ONCE)?;
    assert_eq!(rt; forms, (0, true));
    assert_eq!(rt; batches, (0, true));
    Ok(())
}

#[test]
fn tells_other_rows(rt: HostRuntime) -> Result<()> {
    let alloc = rt.alloc();
    let rows = compared(alloc, &ROWS, &TWO_BATCHES)?;
    let schema = compared(alloc, &ROWS, &NESTED)?;
    assert_eq!(rt; rows, (1, true));
    assert_eq!(rt; schema, (1, true));
    Ok(())
}

#[test]
fn joins_two_streams(rt: HostRuntime) -> Result<()> {
    let alloc = rt.alloc();
    let mut places = places_of_two(alloc, &TWO_BATCHES, &THREE_AT_ONCE)?;
    let joined = quiet_status(alloc, &mut places, &["join", "out", "in", "other"])?;
    let first = quiet_status(alloc, &mut places, &["cut", "0", "3", "out", "first"])?;
    let second = quiet_status(alloc, &mut places, &["cut", "3", "3", "out", "second"])?;
    let is_first = holds(&mut places, "first", &TWO_BATCHES)?;
    let is_second = holds(&mut places, "second", &THREE_AT_ONCE)?;
    drop(places);
    assert_eq!(rt; (joined, first, second), (0, 0, 0));
    assert_eq!(rt; (is_first, is_second), (true, true));
    Ok(())
}

#[test]
fn joins_what_was_cut(rt: HostRuntime) -> Result<()> {
    let alloc = rt.alloc();
    let mut places = places_with(alloc, &TWO_BATCHES)?;
    let first = quiet_status(alloc, &mut places, &["cut", "0", "1", "in", "first"])?;
    let second = quiet_status(alloc, &mut places, &["cut", "1", "2", "in", "second"])?;
    let joined = quiet_status(alloc, &mut places, &["join", "out", "first", "second"])?;
    let is_whole = holds(&mut places, "out", &TWO_BATCHES)?;
    drop(places);
    assert_eq!(rt; (first, second, joined), (0, 0, 0));
    assert!(rt; is_whole);
    Ok(())
}

#[test]
fn joins_no_other_schema(rt: HostRuntime) -> Result<()> {
    let alloc = rt.alloc();
    let mut places = places_of_two(alloc, &ROWS, &NESTED)?;
    let words = words_of(alloc, &["join", "out", "in", "other"])?;
    let mut line = Vec::new(alloc);
    let status = run(alloc, &mut places, &words, &mut line);
    let is_line = line.as_slice() == "tables: schemas differ\n".as_bytes();
    let is_kept = holds(&mut places, "out", BEFORE)?;
    assert_eq!(rt; (status, is_line, is_kept), (2, true, true));
    Ok(())
}

#[test]
fn cuts_no_more_than_there_is(rt: HostRuntime) -> Result<()> {
    let line = "tables: range outside the rows\n";
    let words = ["cut", "2", "2", "in", "out"];
    let is_told = answers(rt.alloc(), &TWO_BATCHES, &words, 2, line, BEFORE)?;
    assert!(rt; is_told);
    Ok(())
}

#[test]
fn picks_no_column(rt: HostRuntime) -> Result<()> {
    let words = ["pick", "-", "-", "in", "out"];
    let is_empty = answers(rt.alloc(), &TWO_BATCHES, &words, 0, "", &NO_FIELDS)?;
    assert!(rt; is_empty);
    Ok(())
}

#[test]
fn picks_no_column_twice(rt: HostRuntime) -> Result<()> {
    let words = ["pick", "1,1", "-", "in", "out"];
    let is_misuse = answers(rt.alloc(), &TWO_BATCHES, &words, 3, USAGE, BEFORE)?;
    assert!(rt; is_misuse);
    Ok(())
}

#[test]
fn seals_rows(rt: HostRuntime) -> Result<()> {
    let alloc = rt.alloc();
    let by_two = ["seal", "2", "in", "out"];
    let at_once = ["seal", "3", "in", "out"];
    let is_divided = answers(alloc, &THREE_AT_ONCE, &by_two, 0, "", &THREE_BY_TWO)?;
    let is_whole = answers(alloc, &TWO_BATCHES, &at_once, 0, "", &THREE_AT_ONCE)?;
    assert_eq!(rt; (is_divided, is_whole), (true, true));
    Ok(())
}
