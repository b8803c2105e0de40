//! What a reader of a stream answers.
ghost use Rattle.ipc_format_readers.specs.States.{HasBatch, IsBatch};

use ipc_format_chunk_writing::Chunk;
use ipc_format_chunk_writing::nested_arrays_core::AnyArray;

/// What comes next of a stream.
#[derive(Drop)]
pub enum StreamState {
    /// The bytes end within the first four of a message. More may come.
    Waiting,
    /// The columns of a record batch.
    Some(Chunk<AnyArray>),
}

impl StreamState {
    /// The columns of a batch, which has to be there.
    pub fn unwrap(self) -> Chunk<AnyArray>
        requires { HasBatch self }
        ensures { IsBatch self result }
    {
        match self {
            StreamState::Some(chunk) => chunk,
            StreamState::Waiting => unreachable!(),
        }
    }
}
