//! What a file's footer says (Arrow IPC, "IPC File Format"; File.fbs).
ghost use Rattle.std.specs.Prelude.{◌≡◌, true};
ghost use Rattle.ipc_format_chunk_writing.specs.Readable.{HasArrays};
ghost use Rattle.ipc_format_chunk_writing.specs.grammar.Tables.{layout_of};
ghost use Rattle.ipc_format_chunk_writing.specs.grammar.Writable.{normalised};
ghost use Rattle.ipc_format_chunk_writing.specs.grammar.WrittenStreams.{is_written_with};
ghost use Rattle.ipc_format_chunk_writing.specs.metadata.SchemaViews.{schema_view};
ghost use Rattle.ipc_format_chunk_writing.specs.metadata.Views.{ids_views};
ghost use Rattle.ipc_format_readers.specs.OneProof.{HasArrays-prop};

use crate::blocks::MessageBlock;
use ipc_format_chunk_writing::streams::columnar_memory::Schema;
use ipc_format_chunk_writing::streams::metadata::IpcSchema;

/// What a file's footer says, and the file's size.
#[derive(Debug, Drop)]
pub struct FileMetadata {
    /// The schema, as it is read.
    pub schema: Schema,
    /// The ids of dictionaries beside the fields, and the byte order of the batches.
    pub ipc_schema: IpcSchema,
    /// Where the messages of record batches stand.
    pub blocks: Vec<MessageBlock>,
    /// Where the messages of dictionaries stand.
    pub dictionaries: Vec<MessageBlock>,
    /// How many bytes the file has.
    pub size: u64,
    /// The schema in its one form, by which columns are read.
    pub(crate) one_form: Schema,
    ghost is_form: { one_form ≡ normalised schema },
    ghost has_arrays: { HasArrays (layout_of (schema_view (schema, ipc_schema))) } by { HasArrays-prop },
    ghost is_written: { is_written_with schema (ids_views ipc_schema.fields) ≡ true },
}
