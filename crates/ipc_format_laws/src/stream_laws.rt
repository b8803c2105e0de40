//! What is written as a stream reads back: theorems over all streams.
//!
//! The statements are in `specs/`. Each function here does nothing: its contract is the theorem, which a caller has by calling it.

ghost use Rattle.ipc_format_laws.specs.Contents.{StreamsReadBack};
ghost use Rattle.ipc_format_laws.specs.Messages.{MessagesReadBack};
ghost use Rattle.ipc_format_laws.specs.Runs.{RunsAreStreams, RunsAreFiles};
ghost use Rattle.ipc_format_laws.specs.Tables.{NoDictionariesGiven};

/// The messages of a stream that is written are its messages, whatever stands behind the end mark (Arrow IPC, "IPC Streaming Format").
pub fn messages_read_back()
    ensures { MessagesReadBack }
{}

/// A stream that is written of a schema and of batches has the messages that were written: the schema's, one for each dictionary that is
/// written, and one a batch. It holds the schema in its one form, with its dictionaries' ids, and an entry a message. This is so for columns
/// of any type, from slots and from what arrays store, where names, keys and values are UTF-8, the keys of metadata ascend, and no batch
/// brings more than 65,536 dictionaries.
pub fn streams_read_back()
    ensures { StreamsReadBack }
{}

/// Under a schema whose types have no dictionaries, no batch brings one, whatever its columns.
pub fn no_dictionaries_given()
    ensures { NoDictionariesGiven }
{}

/// A run of a writer's calls, start, writes and finish, stands for what is written of the chunks that were not refused: its messages, those
/// of the dictionaries among them, are those of that stream, and of that file where it and its footer are within their limits.
pub fn runs_stand_for_their_messages()
    ensures streams { RunsAreStreams }
    ensures files { RunsAreFiles }
{}
