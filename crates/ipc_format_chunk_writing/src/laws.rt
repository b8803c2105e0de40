//! A law of streams that are written batch by batch.
//!
//! The function here does nothing: its contract is the law, which a caller has by calling it. The statement is in `specs/`.

ghost use Rattle.ipc_format_chunk_writing.specs.Runs.{StreamsAreWritten};

use crate::writer::StreamWriter;
use ipc_format_batch_reading::streams::Faults;
use std::io::Write;

impl<W: Write + Faults> StreamWriter<W> {
    /// What a start, writes with its ids and a finish have written, leaving out the writes that were refused, is the stream of the schema and the
    /// batches (Arrow IPC, "IPC Streaming Format").
    pub fn streams_are_written()
        ensures { StreamsAreWritten W.contents W.failures W.in_memory }
    {}
}
