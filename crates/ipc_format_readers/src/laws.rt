//! Laws of streams and files that are read batch by batch.
//!
//! The functions here do nothing: their contracts are the laws, which a caller has by calling them. The statements are in `specs/`.

ghost use Rattle.ipc_format_readers.specs.BlockRuns.{FilesAreReadByBlocks};
ghost use Rattle.ipc_format_readers.specs.Laws.{StreamsAreReadByTurns};
ghost use Rattle.ipc_format_readers.specs.TurnTables.{TablesAreReadByTurns};

use ipc_format_chunk_writing::schemas_have_arrays;

/// The batches that the format gives of a stream are what a reader finds, one turn after another, of all columns or of those that it is asked for:
/// nothing where the stream is cut off or refused, and at the end mark no more (Arrow IPC, "IPC Streaming Format").
#[tactic(auto, using(crate::proofs::TurnLaws::streams_are_read_by_turns))]
pub fn streams_are_read_by_turns()
    ensures { StreamsAreReadByTurns }
{}

/// The table of a stream, and each choice of its columns, are those of the batches behind its first message, which are its turns'; a choice under a
/// limit is the first rows of the choice (Arrow IPC, "IPC Streaming Format").
pub fn tables_are_read_by_turns()
    ensures { TablesAreReadByTurns }
{
    schemas_have_arrays();
}

/// The batches that the format gives of a file are those at its blocks, one after another, under its dictionaries; and so are those of chosen columns
/// under a limit of rows (Arrow IPC, "IPC File Format").
pub fn files_are_read_by_blocks()
    ensures { FilesAreReadByBlocks }
{
    schemas_have_arrays();
}
