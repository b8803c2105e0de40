//! The inputs of a command, each read whole and taken for a table before the next is opened.
ghost use Rattle.std.specs.Prelude.{◌≡◌, map, true};
ghost use Rattle.std.specs.String.{string_bytes};
ghost use Rattle.tables.specs.Contents.{Keeps};
ghost use Rattle.tables.specs.Forms.{form_in};
ghost use Rattle.tables.specs.Inputs.{ReadsBytes, ReadsInput, ReadsInputs, ReadsPicked};
ghost use Rattle.tables_rows.specs.chunks.Choices.{are_distinct};

use crate::places::Places;
use crate::program::Failure;
use std::alloc::Global;
use tables_rows::ReadChoice;
use tables_rows::tables_chunks::{Fault, Form, Table};

/// The bytes that stand under a name.
fn read_bytes<P: Places>(places: &mut P, name: &str) -> Result<Vec<u8>, Failure>
    ensures kept { Keeps (P.contents places.old) (P.contents places.new) }
    ensures read { ReadsBytes result (P.contents places.old) name.now }
{
    match places.get(name) {
        Ok(Some(bytes)) => Ok(bytes),
        Ok(None) => Err(Failure::UnreadableInput),
        Err(_) => Err(Failure::Fault(Fault::Memory)),
    }
}

/// A file begins with its mark, and all else is taken for a stream.
fn form_of(bytes: &[u8]) -> Form
    ensures { result ≡ form_in bytes.now }
{
    if bytes.starts_with(b"ARROW1") {
        Form::File
    } else {
        Form::Stream
    }
}

/// The table under a name.
pub(crate) fn read_input<P: Places>(
    alloc: Global,
    places: &mut P,
    name: &str,
) -> Result<Table, Failure>
    ensures kept { Keeps (P.contents places.old) (P.contents places.new) }
    ensures read { ReadsInput result (P.contents places.old) name.now }
{
    let bytes = read_bytes(places, name)?;
    Table::read(alloc, form_of(&bytes), &bytes).map_err(Failure::Fault)
}

/// The table of chosen columns of the first rows under a name.
pub(crate) fn read_picked<P: Places>(
    alloc: Global,
    places: &mut P,
    name: &str,
    columns: &[usize],
    limit: Option<usize>,
) -> Result<Table, Failure>
    requires { are_distinct columns.now ≡ true }
    ensures kept { Keeps (P.contents places.old) (P.contents places.new) }
    ensures read { ReadsPicked columns.now limit result (P.contents places.old) name.now }
{
    let bytes = read_bytes(places, name)?;
    Table::read_choice(alloc, form_of(&bytes), &bytes, columns, limit).map_err(Failure::Fault)
}

/// The tables under some names, in order.
pub(crate) fn read_inputs<P: Places>(
    alloc: Global,
    places: &mut P,
    names: &[String],
) -> Result<Vec<Table>, Failure>
    ensures kept { Keeps (P.contents places.old) (P.contents places.new) }
    ensures read { ReadsInputs result (P.contents places.old) (map string_bytes names.now) }
{
    let mut tables = Vec::new(alloc);
    for name in names {
        let table = read_input(alloc, places, name.as_str())?;
        if tables.push(table).is_err() {
            return Err(Failure::Fault(Fault::Memory));
        }
    }
    Ok(tables)
}
