//! Commands carried out: all of each, or nothing where it fails.
ghost use Rattle.std.specs.Prelude.{◌≡◌, map, true};
ghost use Rattle.std.specs.String.{string_bytes};
ghost use Rattle.tables_rows.specs.chunks.ipc_format.Seals.{is_batch_size};
ghost use Rattle.tables.specs.Command.{Cut, Join, Pick, Same, Seal, asked_by, has_batch_size};
ghost use Rattle.tables.specs.Columns.{columns_in};
ghost use Rattle.tables.specs.Made.{AddsBatches, MakesCut, MakesJoin, MakesSeal};
ghost use Rattle.tables.specs.Outcome.{CarriesOut, PutsBytes, PutsTable, Streams};

use crate::commands::{Command, columns_of};
use crate::inputs::{read_input, read_inputs, read_picked};
use crate::places::Places;
use crate::program::{Failure, Outcome};
use std::alloc::Global;
use tables_rows::Seal;
use tables_rows::tables_chunks::columnar_memory::Error;
use tables_rows::tables_chunks::{Fault, GrowingTable, Table, distinct};

/// Carries a command out.
pub(crate) fn execute<P: Places>(
    alloc: Global,
    places: &mut P,
    command: &Command<'_>,
) -> Result<Outcome, Failure>
    requires { has_batch_size (asked_by command.now) ≡ true }
    ensures { CarriesOut result (asked_by command.now) (P.contents places.old) (P.contents places.new) }
{
    match *command {
        Command::Seal {
            size,
            input,
            output,
        } => seal(alloc, places, size, input, output),
        Command::Pick {
            columns,
            limit,
            input,
            output,
        } => pick(alloc, places, columns, limit, input, output),
        Command::Cut {
            offset,
            length,
            input,
            output,
        } => cut(alloc, places, offset, length, input, output),
        Command::Join {
            output,
            first,
            others,
        } => join(alloc, places, output, first, others),
        Command::Same { left, right } => same(alloc, places, left, right),
    }
}

/// Puts the seal of `input`, in batches of `size` rows, under the name `output`.
fn seal<P: Places>(
    alloc: Global,
    places: &mut P,
    size: usize,
    input: &str,
    output: &str,
) -> Result<Outcome, Failure>
    requires { is_batch_size size ≡ true }
    ensures { CarriesOut result (Seal size input.now output.now) (P.contents places.old) (P.contents places.new) }
{
    let rows = read_input(alloc, places, input)?;
    let bytes = seal_of(alloc, &rows, size)?;
    put_bytes(places, output, bytes)
}

/// The seal of a table, in batches of `size` rows.
fn seal_of(alloc: Global, table: &Table, size: usize) -> Result<Vec<u8>, Failure>
    requires { is_batch_size size ≡ true }
    ensures { MakesSeal result size table.now }
{
    table.seal(alloc, size).map_err(Failure::Fault)
}

/// Puts the stream of the columns of the first rows of `input` that words name under the name `output`.
#[tactic(auto, using(crate::proofs::Picking::no_memory))]
fn pick<P: Places>(
    alloc: Global,
    places: &mut P,
    columns: &str,
    limit: Option<usize>,
    input: &str,
    output: &str,
) -> Result<Outcome, Failure>
    ensures { CarriesOut result (Pick (columns_in columns.now) limit input.now output.now) (P.contents places.old) (P.contents places.new) }
{
    let Ok(columns) = columns_of(alloc, columns) else {
        return Err(Failure::Fault(Fault::Memory));
    };
    pick_columns(alloc, places, &columns, limit, input, output)
}

/// Puts the stream of some columns of the first rows of `input` under the name `output`.
#[tactic(auto, using(crate::proofs::Picking::named_twice))]
fn pick_columns<P: Places>(
    alloc: Global,
    places: &mut P,
    columns: &[usize],
    limit: Option<usize>,
    input: &str,
    output: &str,
) -> Result<Outcome, Failure>
    ensures { CarriesOut result (Pick columns.now limit input.now output.now) (P.contents places.old) (P.contents places.new) }
{
    if !distinct(columns) {
        return Err(Failure::RepeatedColumn);
    }
    let table = read_picked(alloc, places, input, columns, limit)?;
    put_table(alloc, places, output, &table)
}

/// Puts the stream of `length` rows of `input` from row `offset` on under the name `output`.
fn cut<P: Places>(
    alloc: Global,
    places: &mut P,
    offset: usize,
    length: usize,
    input: &str,
    output: &str,
) -> Result<Outcome, Failure>
    ensures { CarriesOut result (Cut offset length input.now output.now) (P.contents places.old) (P.contents places.new) }
{
    let table = read_input(alloc, places, input)?;
    let window = cut_of(alloc, &table, offset, length)?;
    put_table(alloc, places, output, &window)
}

/// `length` rows of a table from row `offset` on.
fn cut_of(alloc: Global, table: &Table, offset: usize, length: usize) -> Result<Table, Failure>
    ensures { MakesCut result offset length table.now }
{
    if !table.in_range(offset, length) {
        return Err(Failure::RangeOutsideRows);
    }
    table.cut(alloc, offset, length).map_err(Failure::Fault)
}

/// Puts the stream of the rows of all inputs under the name `output`.
fn join<P: Places>(
    alloc: Global,
    places: &mut P,
    output: &str,
    first: &str,
    others: &[String],
) -> Result<Outcome, Failure>
    ensures { CarriesOut result (Join output.now first.now (map string_bytes others.now)) (P.contents places.old)
        (P.contents places.new) }
{
    let table = read_input(alloc, places, first)?;
    let tables = read_inputs(alloc, places, others)?;
    let joined = join_of(alloc, &table, &tables)?;
    put_table(alloc, places, output, &joined)
}

/// The rows of some tables, one table behind another.
fn join_of(alloc: Global, first: &Table, others: &[Table]) -> Result<Table, Failure>
    ensures { MakesJoin result first.now others.now }
{
    first.whole();
    let Ok(schema) = first.schema().clone() else {
        return Err(Failure::Fault(Fault::Memory));
    };
    let mut joined = GrowingTable::new(alloc, schema);
    add_batches(&mut joined, first).map_err(Failure::Fault)?;
    for table in others {
        if table.schema() != first.schema() {
            return Err(Failure::SchemasDiffer);
        }
        add_batches(&mut joined, table).map_err(Failure::Fault)?;
    }
    Ok(joined.finish())
}

/// Puts the batches of a table behind others, under one schema.
fn add_batches(joined: &mut GrowingTable, table: &Table) -> Result<(), Fault>
    requires { table.now.schema ≡ joined.old.schema }
    ensures { AddsBatches joined.old table.now.batches result joined.new }
{
    // A proof then has that the rows so far fit 64 bits.
    let _rows = joined.rows();
    table.whole();
    for batch in table.batches() {
        joined.push(batch.clone()?)?;
    }
    Ok(())
}

/// Tells whether two inputs have one schema and the same rows.
fn same<P: Places>(
    alloc: Global,
    places: &mut P,
    left: &str,
    right: &str,
) -> Result<Outcome, Failure>
    ensures { CarriesOut result (Same left.now right.now) (P.contents places.old) (P.contents places.new) }
{
    let first = read_input(alloc, places, left)?;
    let second = read_input(alloc, places, right)?;
    match Table::same(&first, &second) {
        Ok(true) => Ok(Outcome::Done),
        Ok(false) => Ok(Outcome::Different),
        Err(fault) => Err(Failure::Fault(fault)),
    }
}

/// Puts the stream of a table under a name. It is made in memory before.
fn put_table<P: Places>(
    alloc: Global,
    places: &mut P,
    output: &str,
    table: &Table,
) -> Result<Outcome, Failure>
    ensures { PutsTable result (P.contents places.old) (P.contents places.new) output.now table.now }
{
    let stream = stream_of(alloc, table)?;
    put_bytes(places, output, stream)
}

/// Puts bytes under a name.
fn put_bytes<P: Places>(places: &mut P, output: &str, bytes: Vec<u8>) -> Result<Outcome, Failure>
    ensures { PutsBytes result (P.contents places.old) (P.contents places.new) output.now bytes.items }
{
    match places.put(output, bytes) {
        Ok(true) => Ok(Outcome::Done),
        Ok(false) => Err(Failure::UnwritableOutput),
        Err(_) => Err(Failure::Fault(Fault::Memory)),
    }
}

/// The stream of a table.
fn stream_of(alloc: Global, table: &Table) -> Result<Vec<u8>, Failure>
    ensures { Streams result table.now }
{
    let mut bytes = Vec::new(alloc);
    match table.write_stream(alloc, &mut bytes) {
        Ok(()) => Ok(bytes),
        Err(Fault::Ipc(Error::Overflow)) => Err(Failure::Fault(Fault::Ipc(Error::Overflow))),
        // A vector refuses a write only where it cannot grow.
        Err(_) => Err(Failure::Fault(Fault::Memory)),
    }
}
