use crate::samples::{EXAMPLE, EXAMPLE_FILE};
use std::alloc::Global;
use std::io;
use std::io::{ErrorKind, Write};
use std::test::Fail;
use tables::columnar_memory::{Error, Result};
use tables::{MemoryPlaces, Places, number, run};

pub(crate) const BEFORE: &[u8] = b"before";

pub(crate) const USAGE: &str = "usage: tables seal|same|pick|cut|join\n";

const OUT_OF_SPEC: &str = "tables: ipc: out of specification\n";

const CUT: [&str; 5] = ["cut", "0", "2", "in", "out"];

// Places that hold the example under each name and take nothing.
#[derive(Drop)]
struct ReadOnly(Global);

impl Places for ReadOnly {
    fn get(&mut self, _name: &str) -> Result<Option<Vec<u8>>> {
        Ok(Some(Vec::from_slice(self.0, &EXAMPLE)?))
    }

    fn put(&mut self, _name: &str, _bytes: Vec<u8>) -> Result<bool> {
        Ok(false)
    }
}

// Places for which no memory is left.
#[derive(Drop)]
struct Full;

impl Places for Full {
    fn get(&mut self, _name: &str) -> Result<Option<Vec<u8>>> {
        Err(Error::OutOfMemory)
    }

    fn put(&mut self, _name: &str, _bytes: Vec<u8>) -> Result<bool> {
        Err(Error::OutOfMemory)
    }
}

// A writer that takes nothing.
#[derive(Drop)]
struct Closed;

impl Write for Closed {
    fn write(&mut self, _buf: &[u8]) -> io::Result<usize> {
        Err(io::Error::from(ErrorKind::BrokenPipe))
    }

    fn flush(&mut self) -> io::Result<()> {
        Ok(())
    }
}

// What a command answered and printed, and what then stood under `out`.
#[derive(Drop)]
pub(crate) struct Outcome {
    status: u8,
    line: Vec<u8>,
    output: Option<Vec<u8>>,
}

impl Outcome {
    pub(crate) fn is(&self, status: u8, line: &str, output: &[u8]) -> bool {
        let Some(bytes) = &self.output else {
            return false;
        };
        self.status == status
            && self.line.as_slice() == line.as_bytes()
            && bytes.as_slice() == output
    }
}

pub(crate) fn words_of(alloc: Global, words: &[&str]) -> Result<Vec<String>> {
    let mut owned = Vec::new(alloc);
    for word in words {
        owned.push(String::from_str(alloc, word)?)?;
    }
    Ok(owned)
}

pub(crate) fn places_with(alloc: Global, input: &[u8]) -> Result<MemoryPlaces> {
    let mut places = MemoryPlaces::new(alloc);
    places.put("in", Vec::from_slice(alloc, input)?)?;
    places.put("out", Vec::from_slice(alloc, BEFORE)?)?;
    Ok(places)
}

pub(crate) fn run_over(alloc: Global, input: &[u8], words: &[&str]) -> Result<Outcome> {
    let mut places = places_with(alloc, input)?;
    let words = words_of(alloc, words)?;
    let mut line = Vec::new(alloc);
    let status = run(alloc, &mut places, &words, &mut line);
    Ok(Outcome {
        status,
        line,
        output: places.get("out")?,
    })
}

#[test]
fn cuts_rows(rt: HostRuntime) -> Result<()> {
    let outcome = run_over(rt.alloc(), &EXAMPLE, &CUT)?;
    assert!(rt; outcome.is(0, "", &EXAMPLE));
    Ok(())
}

#[test]
fn cuts_rows_of_a_file(rt: HostRuntime) -> Result<()> {
    let outcome = run_over(rt.alloc(), &EXAMPLE_FILE, &CUT)?;
    assert!(rt; outcome.is(0, "", &EXAMPLE));
    Ok(())
}

#[test]
fn picks_columns(rt: HostRuntime) -> Result<()> {
    for input in [EXAMPLE.as_slice(), EXAMPLE_FILE.as_slice()] {
        let outcome = run_over(rt.alloc(), input, &["pick", "0", "2", "in", "out"])?;
        assert!(rt; outcome.is(0, "", &EXAMPLE));
        let outcome = run_over(rt.alloc(), input, &["pick", "1", "-", "in", "out"])?;
        assert!(rt; outcome.is(2, "tables: no such column\n", BEFORE));
    }
    Ok(())
}

#[test]
fn names_each_failure(rt: HostRuntime) -> Result<()> {
    let cases: [(&[u8], [&str; 2], &str); 6] = [
        (&EXAMPLE, ["1", "in"], "tables: range outside the rows\n"),
        (&EXAMPLE[..488], ["1", "in"], "tables: unfinished stream\n"),
        (&EXAMPLE[..492], ["1", "in"], OUT_OF_SPEC),
        (&[], ["0", "in"], OUT_OF_SPEC),
        (b"ARROW1\0\0", ["0", "in"], OUT_OF_SPEC),
        (&EXAMPLE, ["1", "no"], "tables: cannot read the input\n"),
    ];
    for (input, [length, name], line) in cases {
        let outcome = run_over(rt.alloc(), input, &["cut", "2", length, name, "out"])?;
        assert!(rt; outcome.is(2, line, BEFORE), "{line}");
    }
    Ok(())
}

#[test]
fn refuses_words_that_state_no_command(rt: HostRuntime) -> Result<()> {
    let lines: [&[&str]; 14] = [
        &[],
        &["cut"],
        &["cut", "0", "1", "in"],
        &["cut", "0", "1", "in", "out", "more"],
        &["cat", "0", "1", "in", "out"],
        &["pick", "0", "in", "out"],
        &["pick", "0,0", "-", "in", "out"],
        &["pick", "0,", "-", "in", "out"],
        &["pick", "-", "x", "in", "out"],
        &["seal", "0", "in", "out"],
        &["seal", "65537", "in", "out"],
        &["seal", "1", "in"],
        &["cut", "", "1", "in", "out"],
        &["cut", "0", "18446744073709551616", "no", "out"],
    ];
    for words in lines {
        let outcome = run_over(rt.alloc(), &EXAMPLE, words)?;
        assert!(rt; outcome.is(3, USAGE, BEFORE), "the words {words:?}");
    }
    Ok(())
}

#[test]
fn reads_decimal_digits_alone(rt: HostRuntime) {
    for word in ["18446744073709551616", "", "+1", "1a", "1 ", "٣"] {
        assert!(rt; number(word).is_none(), "the number {word:?}");
    }
    assert_eq!(rt; number("007"), Some(7));
    assert_eq!(rt;
        number("0018446744073709551615"),
        Some(18_446_744_073_709_551_615)
    );
}

#[test]
fn fails_without_places(rt: HostRuntime) -> std::result::Result<(), Fail> {
    let alloc = rt.alloc();
    let words = words_of(alloc, &CUT)?;
    let mut lines = Vec::new(alloc);
    assert_eq!(rt; run(alloc, &mut ReadOnly(alloc), &words, &mut lines), 2);
    assert_eq!(rt; run(alloc, &mut Full, &words, &mut lines), 2);
    let want = "tables: cannot write the output\ntables: out of memory\n";
    assert!(rt; lines.as_slice() == want.as_bytes());
    Ok(())
}

#[test]
fn goes_on_without_a_line(rt: HostRuntime) -> std::result::Result<(), Fail> {
    let alloc = rt.alloc();
    let words = words_of(alloc, &CUT)?;
    let mut places = places_with(alloc, &EXAMPLE)?;
    assert_eq!(rt; run(alloc, &mut places, &words, &mut Closed), 0);
    assert_eq!(rt; run(alloc, &mut places, &[], &mut Closed), 3);
    Ok(())
}

// Holds wherever one request for memory is refused: the command is done, or nothing changes and the
// line says why. A refusal before or after the command ends the test.
#[test]
fn is_done_or_out_of_memory(rt: HostRuntime) {
    let Ok(outcome) = run_over(rt.alloc(), &EXAMPLE, &CUT) else {
        return;
    };
    assert!(rt; outcome.is(0, "", &EXAMPLE) || outcome.is(2, "tables: out of memory\n", BEFORE));
}
