//! Laws of files that are written batch by batch.
//!
//! The functions here do nothing: their contracts are the laws, which a caller has by calling them. The statements are in `specs/`.

ghost use Rattle.ipc_format.specs.Resuming.{FilesGrow};
ghost use Rattle.ipc_format.specs.FileRuns.{FilesAreWritten};
ghost use Rattle.ipc_format.specs.WholeRuns.{RunsAreFiles};

use crate::writer::FileWriter;
use ipc_format_readers::streams::Faults;
use std::io::Write;

impl<W: Write + Faults> FileWriter<W> {
    /// What a start, writes and a finish have written, leaving out the writes that were refused, is the file of the schema and the batches (Arrow
    /// IPC, "IPC File Format").
    pub fn files_are_written()
        ensures { FilesAreWritten W.contents W.failures W.in_memory }
    {}

    /// What a start, writes with the writer's ids and a finish have written, leaving out the writes that were refused, is a whole file of the schema
    /// and the batches: they belong to it, no dictionary is replaced, and all is within its limits (Arrow IPC, "IPC File Format").
    pub fn runs_are_files()
        ensures { RunsAreFiles W.contents W.failures W.in_memory }
    {}

    /// What writes and a finish add to a file, leaving out the writes that were refused, are the messages of the batches, and an end whose footer
    /// places them behind the file's own (Arrow IPC, "IPC File Format").
    pub fn files_grow()
        ensures { FilesGrow W.contents W.failures W.in_memory }
    {}
}
