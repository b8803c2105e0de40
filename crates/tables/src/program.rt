//! The program: what its words ask for is carried out over named places, and what went wrong is told in one line.
ghost use Rattle.std.specs.Prelude.{◌≡◌, ◌<◌, map, Err};
ghost use Rattle.std.specs.String.{string_bytes};
ghost use Rattle.tables.specs.Command.{command_of};
ghost use Rattle.tables.specs.Failure.{failure_line, failure_text, line_of};
ghost use Rattle.tables.specs.Outcome.{Answers, status_of};
ghost use Rattle.tables_rows.specs.chunks.ipc_format.streams.Devices.{AppendsBeginning, Puts};

use crate::carried::execute;
use crate::commands::Command;
use crate::places::Places;
use std::alloc::Global;
use std::fmt;
use std::io::Write;
use tables_rows::tables_chunks::columnar_memory::Error;
use tables_rows::tables_chunks::{Fault, put};

const DONE: u8 = 0;

const DIFFERENT: u8 = 1;

const FAILED: u8 = 2;

const MISUSED: u8 = 3;

const USAGE: &str = "usage: tables seal|same|pick|cut|join\n";

/// What came of a command that did not fail.
#[derive(Clone, Copy, Debug, PartialEq, Eq)]
pub enum Outcome {
    /// It is done; two tables that were compared are the same.
    Done,
    /// Two tables that were compared differ.
    Different,
}

/// Why a command wrote nothing.
#[derive(Debug, Drop)]
pub enum Failure {
    /// An input was refused, rows could not be written, or there was no memory.
    Fault(Fault),
    /// An input's name holds nothing that can be read.
    UnreadableInput,
    /// Nothing could be put under the output's name.
    UnwritableOutput,
    /// The input has fewer rows.
    RangeOutsideRows,
    /// The inputs have not all one schema.
    SchemasDiffer,
    /// A column is named twice, which is told as words that state no command are.
    RepeatedColumn,
}

impl Failure {
    /// The line that the program prints, without its beginning `tables: `.
    pub fn text(&self) -> &'static str
        ensures { result.now ≡ failure_text self.now }
    {
        match self {
            Failure::Fault(fault) => fault.text(),
            Failure::UnreadableInput => "cannot read the input",
            Failure::UnwritableOutput => "cannot write the output",
            Failure::RangeOutsideRows => "range outside the rows",
            Failure::SchemasDiffer => "schemas differ",
            Failure::RepeatedColumn => "column named twice",
        }
    }
}

/// Prints a failure's text.
impl fmt::Display for Failure {
    ghost use Rattle.std.specs.Prelude.{Some};
    ghost use Rattle.tables.specs.Failure.{failure_text};

    ghost output = { λ failure. Some (failure_text failure) };

    fn fmt<W: fmt::Write>(&self, f: &mut fmt::Formatter<W>) -> fmt::Result {
        f.write_str(self.text())
    }
}

impl std::error::Error for Failure {}

/// Runs the command that `words`, those after the program's name, state, over the named `places`.
///
/// The answer is the exit status: 0 for done or the same, 1 for different, 2 for a failure and 3 for words that state no command or name a
/// column twice. A failure writes one line to `err`, and so do such words; where `err` refuses, a beginning of the line stands there, and the
/// status is the same. A command is carried out whole or not at all.
pub fn run<P: Places, E: Write>(alloc: Global, places: &mut P, words: &[String], err: &mut E) -> u8
    ensures answer { Answers result (command_of (map string_bytes words.now)) (P.contents places.old) (P.contents places.new)
        (E.contents err.old) (E.contents err.new) }
    ensures quiet { result ≡ 0 → err.new ≡ err.old }
{
    let Some(command) = Command::parse(words) else {
        let _ = put(err, USAGE.as_bytes());
        return MISUSED;
    };
    match execute(alloc, places, &command) {
        Ok(Outcome::Done) => DONE,
        Ok(Outcome::Different) => DIFFERENT,
        Err(failure) => tell(err, &failure),
    }
}

/// Writes the line that tells a failure, or a beginning of it, and answers the exit status.
fn tell<E: Write>(err: &mut E, failure: &Failure) -> u8
    ensures status { result ≡ status_of (Err failure.now) }
    ensures failed { 0 < result }
    ensures line { AppendsBeginning (E.contents err.old) (E.contents err.new) (line_of failure.now) }
{
    match failure {
        Failure::RepeatedColumn => {
            let _ = put(err, USAGE.as_bytes());
            MISUSED
        }
        _ => {
            let _ = report(err, failure);
            FAILED
        }
    }
}

/// Writes a failure's line.
fn report<E: Write>(err: &mut E, failure: &Failure) -> Result<(), Error>
    ensures { Puts result (E.contents err.old) (E.contents err.new) (failure_line failure.now) }
{
    put(err, b"tables: ")?;
    put(err, failure.text().as_bytes())?;
    put(err, b"\n")
}
