//! Footers of files (Arrow IPC, "IPC File Format"; File.fbs), in version V5.
ghost use Rattle.std.specs.Prelude.{◌≡◌, ◌++◌, true, OnOk, IfOk, map};
ghost use Rattle.std.specs.List.{flat_map};
ghost use Rattle.ipc_format_messages.specs.flatbuffers.Objects.{piece_of};
ghost use Rattle.ipc_format_messages.specs.flatbuffers.Views.{Lays};
ghost use Rattle.ipc_format_messages.specs.grammar.Writable.{is_writable};
ghost use Rattle.ipc_format_messages.specs.grammar.WrittenFiles as files;
ghost use Rattle.ipc_format_messages.specs.metadata.Views.{ids_views};
ghost use Rattle.ipc_format_writing.specs.FooterWriting.{WritesFooter, FinishesFooter, blocks_view, block_view, laid_block};

use crate::structs::lay_structs;
use crate::{lay_schema, refuse_unwritten};
use ipc_format_messages::Block;
use ipc_format_messages::columnar_memory::{Error, Result as Answer, Schema};
use ipc_format_messages::flatbuffers::{Laid, LayError, Slot, lay_table, message_bytes};
use ipc_format_messages::metadata::IpcField;
use ipc_format_messages::metadata::sizes::V5;
use std::alloc::{AllocError, Global};

/// The most bytes of a footer's object: with the 8 bytes before it 2^31 - 1.
const MOST_BYTES: usize = 2_147_483_639;

/// The padding of a block, behind the length of its metadata.
const PADDING: u32 = 0;

/// Writes a block.
fn put_block(out: &mut Vec<u8>, block: &Block) -> Result<(), AllocError>
    ensures { OnOk result (out.new.items ≡ out.old.items ++ laid_block block.now) }
{
    out.extend_from_slice(&block.offset.cast_unsigned().to_le_bytes())?;
    out.extend_from_slice(&block.meta_data_length.cast_unsigned().to_le_bytes())?;
    out.extend_from_slice(&PADDING.to_le_bytes())?;
    out.extend_from_slice(&block.body_length.cast_unsigned().to_le_bytes())?;
    Ok(())
}

/// The bytes of some blocks.
fn bytes_of_blocks(alloc: Global, blocks: &[Block]) -> Result<Vec<u8>, AllocError>
    ensures { IfOk result (λ bytes. bytes.items ≡ flat_map laid_block blocks.now) }
{
    let mut bytes = Vec::new(alloc);
    for block in blocks {
        put_block(&mut bytes, block)?;
    }
    Ok(bytes)
}

/// A vector of blocks.
fn lay_blocks(alloc: Global, blocks: &[Block]) -> Result<Laid, LayError>
    ensures { Lays result (piece_of (files.blocks_object (map block_view blocks.now))) }
{
    let bytes = bytes_of_blocks(alloc, blocks)?;
    lay_structs(alloc, blocks.len(), &bytes)
}

/// A Footer table.
fn lay_footer(
    alloc: Global,
    schema: &Schema,
    ipc_fields: &[IpcField],
    dictionaries: &[Block],
    record_batches: &[Block],
) -> Result<Laid, LayError>
    requires { is_writable schema.now ≡ true }
    ensures { Lays result (piece_of (files.footer_object schema.now (ids_views ipc_fields.now) (blocks_view dictionaries.now record_batches.now))) }
{
    let header = lay_schema(alloc, schema, ipc_fields)?;
    let dictionaries = lay_blocks(alloc, dictionaries)?;
    let record_batches = lay_blocks(alloc, record_batches)?;
    let slots = [
        Slot::Short(V5),
        Slot::Refers(&header),
        Slot::Refers(&dictionaries),
        Slot::Refers(&record_batches),
        Slot::Absent,
    ];
    lay_table(alloc, &slots)
}

/// The bytes of a footer, where its object was laid and is not too long.
fn finish(alloc: Global, laid: Result<Laid, LayError>) -> Answer<Vec<u8>>
    ensures { FinishesFooter result laid }
{
    match laid {
        Err(LayError::Memory) => Err(Error::OutOfMemory),
        Err(LayError::TooLong) => Err(Error::Overflow),
        Ok(root) => {
            if root.bytes.len() > MOST_BYTES {
                return Err(Error::Overflow);
            }
            Ok(message_bytes(alloc, &root)?)
        }
    }
}

/// The footer of a file: its schema with the ids of its dictionaries, and where its messages stand (Arrow IPC, "IPC File Format"). The
/// blocks are written as they are given, in their order.
///
/// # Errors
/// - `NotYetImplemented`: a field of floating-point numbers stands in the schema.
/// - `InvalidArgumentError`: the schema is none that is written, or the ids are not those of its dictionaries.
/// - `Overflow`: the footer would have 2^31 bytes or more.
/// - `OutOfMemory`: there was no memory for the footer.
pub fn footer_to_bytes(
    alloc: Global,
    schema: &Schema,
    ipc_fields: &[IpcField],
    dictionaries: &[Block],
    record_batches: &[Block],
) -> Answer<Vec<u8>>
    ensures { WritesFooter result schema.now (ids_views ipc_fields.now) (blocks_view dictionaries.now record_batches.now) }
{
    refuse_unwritten(schema, ipc_fields)?;
    let laid = lay_footer(alloc, schema, ipc_fields, dictionaries, record_batches);
    finish(alloc, laid)
}
