//! Vectors of structs, laid from their bytes (FlatBuffers, "Internals").
ghost use Rattle.std.specs.Prelude.{◌≤◌, length};
ghost use Rattle.ipc_format_messages.specs.flatbuffers.Laying as layout;
ghost use Rattle.ipc_format_messages.specs.flatbuffers.Views.{Lays};

use ipc_format_messages::flatbuffers::{Laid, LayError, lay_elements};
use std::alloc::Global;

/// A vector of `count` structs by their bytes, of which each has one at least.
pub fn lay_structs(alloc: Global, count: usize, bytes: &[u8]) -> Result<Laid, LayError>
    requires { count ≤ length bytes.now }
    ensures { Lays result (layout.elements_piece count bytes.now) }
{
    match u32::try_from(count) {
        Ok(count) => lay_elements(alloc, count, bytes),
        Err(_) => Err(LayError::TooLong),
    }
}
