//! Laws of files to which batches were appended.
//!
//! Each function here does nothing: its contract is the law, which a caller has by calling it. The statements are in `specs/`.

ghost use Rattle.ipc_format_reading_laws.specs.AppendLaws.{AppendedFilesReadBack, StatedEndsAreEnough, GrownFilesReadBack};

/// A file to which batches of stored columns were appended reads as its old table joined with their rows (Arrow IPC, "IPC File Format"): of
/// every type, with the file's own dictionaries and new ones, where the old file reads and nothing of it is taken behind its last message,
/// and the rows of both fit 64 bits.
pub fn appended_files_read_back()
    ensures { AppendedFilesReadBack }
{}

/// Nothing of a file is taken behind the ends that its messages state, where it reads: so a file appends soundly whose blocks hold the
/// buffers that their metadata states (Arrow IPC, "IPC File Format", "RecordBatch message").
pub fn stated_ends_are_enough()
    ensures { StatedEndsAreEnough }
{}

/// A file that was written, and to which batches were appended in any number of turns, holds the batches of all turns, one after another:
/// of every type, with the dictionaries that it had and new ones, where the rows fit 64 bits.
pub fn grown_files_read_back()
    ensures { GrownFilesReadBack }
{}
