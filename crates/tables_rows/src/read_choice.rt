//! Tables of chosen columns read from bytes.
ghost use Rattle.std.specs.Prelude.{◌≡◌, length, true};
ghost use Rattle.tables_chunks.specs.Choices.{are_below, are_distinct};
ghost use Rattle.tables_chunks.specs.Messages.{layout_by};
ghost use Rattle.tables_chunks.specs.TableSchemas.{IsTableSchema};
ghost use Rattle.tables_chunks.specs.ipc_format.FileEntries.{entries_of};
ghost use Rattle.tables_chunks.specs.ipc_format.Readable.{HasArrays};
ghost use Rattle.tables_chunks.specs.ipc_format.grammar.Tables.{file, stream};
ghost use Rattle.tables_rows.specs.Gathered.{GathersTable};
ghost use Rattle.tables_rows.specs.ReadChoices.{ReadsChoice, form_of};

use crate::chosen::gather_batches;
use crate::order::order_of;
use crate::stream_entries::stream_entries;
use columnar_memory_types::Schema;
use std::alloc::Global;
use tables_chunks::{
    Entry, Fault, Form, IpcSchema, Table, are_all_below, choose_fields, file_entries,
    metadata_of_file, normalised, schemas_have_arrays, stream_start,
};

/// What is read of chosen columns alone.
pub trait ReadChoice: Sized {
    ghost use Rattle.tables_chunks.specs.StoredTables.{Stored};

    // The schema and the batches that are read.
    ghost content: { Self → Stored };

    /// The table of the columns of these places, in this order, of an Arrow file or an Arrow stream (Arrow IPC, "IPC File Format", "IPC Streaming
    /// Format"), of its first `limit` rows, or all: where the whole reads, the choice of its columns and then its first rows. What isn't chosen is
    /// passed over by how many nodes and buffers it has and never decoded, so that whatever stands there refuses nothing and changes nothing.
    /// Batches without a row are left out, and without a column there is no row. `distinct` tests whether no column is named twice.
    ///
    /// # Errors
    /// - `NoSuchColumn`: one of the columns is not below the number of fields.
    /// - `Ipc(OutOfSpec)`: the bytes break a rule of the format in their schema, in a dictionary, or in a column that is chosen.
    /// - `Ipc(NotYetImplemented)`: a float field, a compressed batch, or a dictionary that adds to an earlier one.
    /// - `Unfinished`: a stream ends within the first four bytes of a message after the first, where its end mark may be missing.
    /// - `TooManyRows`: the number of rows doesn't fit 64 bits.
    /// - `Memory`: there was no memory.
    fn read_choice(
        alloc: Global,
        form: Form,
        bytes: &[u8],
        columns: &[usize],
        limit: Option<usize>,
    ) -> Result<Self, Fault>
        requires { are_distinct columns.now ≡ true }
        ensures { ReadsChoice content (form_of form) bytes.now columns.now limit result };
}

impl ReadChoice for Table {
    ghost content = { λ table. table };

    fn read_choice(
        alloc: Global,
        form: Form,
        bytes: &[u8],
        columns: &[usize],
        limit: Option<usize>,
    ) -> Result<Table, Fault> {
        match form {
            Form::File => choice_of_file(alloc, bytes, columns, limit),
            Form::Stream => choice_of_stream(alloc, bytes, columns, limit),
        }
    }
}

/// Chosen columns of the first rows of a stream.
///
/// # Errors
/// As of `read_choice`.
fn choice_of_stream(
    alloc: Global,
    bytes: &[u8],
    columns: &[usize],
    limit: Option<usize>,
) -> Result<Table, Fault>
    requires { are_distinct columns.now ≡ true }
    ensures { ReadsChoice (λ table. table) stream bytes.now columns.now limit result }
{
    let (metadata, place) = stream_start(alloc, bytes)?;
    metadata.schema.whole();
    let schema = normalised(alloc, &metadata.schema)?;
    schemas_have_arrays();
    if !are_all_below(schema.fields.len(), columns) {
        return Err(Fault::NoSuchColumn);
    }
    let entries = stream_entries(alloc, bytes, place, metadata.version)?;
    gather_table(
        alloc,
        &entries,
        &schema,
        &metadata.ipc_schema,
        columns,
        limit,
    )
}

/// Chosen columns of the first rows of a file.
///
/// # Errors
/// As of `read_choice`.
fn choice_of_file(
    alloc: Global,
    bytes: &[u8],
    columns: &[usize],
    limit: Option<usize>,
) -> Result<Table, Fault>
    requires { are_distinct columns.now ≡ true }
    ensures { ReadsChoice (λ table. table) file bytes.now columns.now limit result }
{
    let start = metadata_of_file(alloc, bytes)?;
    start.schema.whole();
    let schema = normalised(alloc, &start.schema)?;
    schemas_have_arrays();
    if !are_all_below(schema.fields.len(), columns) {
        return Err(Fault::NoSuchColumn);
    }
    let entries = file_entries(alloc, bytes, &start.dictionaries, &start.blocks)?;
    gather_table(alloc, &entries, &schema, &start.ipc_schema, columns, limit)
}

/// The table of the chosen columns of some messages, under a schema in its one form.
///
/// # Errors
/// - `Ipc(OutOfSpec)`: the format gives no dictionary or no chosen columns of a message, or a schema stands among them.
/// - `Ipc(NotYetImplemented)`: a message is compressed, or adds to an earlier dictionary.
/// - `TooManyRows`: the number of rows doesn't fit 64 bits.
/// - `Memory`: there was no memory.
fn gather_table(
    alloc: Global,
    entries: &[Entry<'_>],
    schema: &Schema,
    ipc_schema: &IpcSchema,
    columns: &[usize],
    limit: Option<usize>,
) -> Result<Table, Fault>
    requires arrays { HasArrays (layout_by schema.now.fields ipc_schema.now) }
    requires form { IsTableSchema schema.now }
    requires distinct { are_distinct columns.now ≡ true }
    requires below { are_below (length schema.now.fields) columns.now ≡ true }
    ensures { GathersTable schema.now (layout_by schema.now.fields ipc_schema.now) columns.now limit (entries_of entries.now) result }
{
    let order = order_of(alloc, schema.fields.len(), columns)?;
    let picked = choose_fields(alloc, schema, columns)?;
    let chunks = gather_batches(
        alloc,
        entries,
        schema.fields.as_slice(),
        ipc_schema,
        &order,
        limit,
    )?;
    Table::of_batches(picked, chunks)
}
