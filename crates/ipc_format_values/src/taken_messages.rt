//! Messages and footers, taken of their views (Message.fbs, File.fbs).
ghost use Rattle.std.specs.Prelude.{◌≡◌, IfOk, false};
ghost use Rattle.std.specs.Option.{option_map};
ghost use Rattle.std.specs.Result.{result_ok};
ghost use Rattle.ipc_format_writing.specs.messages.MessageViews.{message_view, footer_view, header_view, table_view};
ghost use Rattle.ipc_format_writing.specs.messages.SchemaRefs.{pairs_view};
ghost use Rattle.ipc_format_values.specs.OwnedMessages as owned;
ghost use Rattle.ipc_format_values.specs.Taken.{Takes};

use crate::taken::taken;
use crate::taken_batches::{
    batch_in, blocks_if, blocks_in, dictionary_in, dictionary_is_compressed, is_compressed,
};
use crate::taken_fields::schema_in;
use crate::taken_pairs::pairs_in;
use crate::{Footer, Message, MessageHeader};
use ipc_format_writing::columnar_memory::{Result as Answer, Steps};
use ipc_format_writing::messages::{
    Error, FooterRef, KeyValuesRef, MessageHeaderRef, MessageRef, TableRef,
};
use std::alloc::{AllocError, Global};

/// The slot of `Message` and of `Footer`.
const CUSTOM_METADATA: u8 = 4;

/// The custom metadata of a message or a footer, if there is any.
fn metadata_of<'a>(table: &TableRef<'a>) -> Result<Option<KeyValuesRef<'a>>, Error>
    ensures { option_map (option_map pairs_view) (result_ok result) ≡ owned.metadata_in (table_view table.now) }
{
    match table.tables(CUSTOM_METADATA)? {
        Some(tables) => Ok(Some(KeyValuesRef { tables })),
        None => Ok(None),
    }
}

/// A header; nothing where the header's view refuses, or a batch is compressed.
fn header_in(
    alloc: Global,
    header: &MessageHeaderRef<'_>,
) -> Result<Option<MessageHeader>, AllocError>
    ensures { IfOk result (λ found. found ≡ owned.header_in (header_view header.now)) }
{
    match header {
        MessageHeaderRef::Schema(schema) => {
            match schema_in(alloc, schema, &mut Steps::new())? {
                Some(schema) => Ok(Some(MessageHeader::Schema(schema))),
                None => Ok(None),
            }
        }
        MessageHeaderRef::DictionaryBatch(batch) => match dictionary_in(alloc, batch)? {
            Some(batch) => Ok(Some(MessageHeader::DictionaryBatch(batch))),
            None => Ok(None),
        },
        MessageHeaderRef::RecordBatch(batch) => match batch_in(alloc, batch)? {
            Some(batch) => Ok(Some(MessageHeader::RecordBatch(batch))),
            None => Ok(None),
        },
    }
}

fn header_is_compressed(header: &MessageHeaderRef<'_>) -> bool
    ensures { result ≡ owned.header_is_compressed (header_view header.now) }
{
    match header {
        MessageHeaderRef::Schema(_) => false,
        MessageHeaderRef::DictionaryBatch(batch) => dictionary_is_compressed(batch),
        MessageHeaderRef::RecordBatch(batch) => is_compressed(batch),
    }
}

fn message_is_compressed(message: &MessageRef<'_>) -> bool
    ensures { result ≡ owned.message_is_compressed (message_view message.now) }
{
    match message.header() {
        Ok(Some(header)) => header_is_compressed(&header),
        Ok(None) | Err(_) => false,
    }
}

/// A message; nothing where a view refuses, there is no header, or a batch is compressed.
#[tactic(auto, using(crate::proofs::Taking::version_is))]
fn message_in(alloc: Global, message: &MessageRef<'_>) -> Result<Option<Message>, AllocError>
    ensures { IfOk result (λ found. found ≡ owned.message_in (message_view message.now)) }
{
    let Ok(version) = message.version() else {
        return Ok(None);
    };
    let Ok(Some(header)) = message.header() else {
        return Ok(None);
    };
    let Some(header) = header_in(alloc, &header)? else {
        return Ok(None);
    };
    let Ok(body_length) = message.body_length() else {
        return Ok(None);
    };
    let Ok(pairs) = metadata_of(&message.table) else {
        return Ok(None);
    };
    let Some(custom_metadata) = pairs_in(alloc, &pairs)? else {
        return Ok(None);
    };
    Ok(Some(Message {
        version,
        header,
        body_length,
        custom_metadata,
    }))
}

/// A footer; nothing where a view refuses, or the schema or the blocks of record batches are absent.
#[tactic(auto, using(crate::proofs::Taking::version_is))]
fn footer_in(alloc: Global, footer: &FooterRef<'_>) -> Result<Option<Footer>, AllocError>
    ensures { IfOk result (λ found. found ≡ owned.footer_in (footer_view footer.now)) }
{
    let Ok(version) = footer.version() else {
        return Ok(None);
    };
    let Ok(Some(schema)) = footer.schema() else {
        return Ok(None);
    };
    let Some(schema) = schema_in(alloc, &schema, &mut Steps::new())? else {
        return Ok(None);
    };
    let Ok(dictionaries) = footer.dictionaries() else {
        return Ok(None);
    };
    let Some(dictionaries) = blocks_if(alloc, &dictionaries)? else {
        return Ok(None);
    };
    let Ok(Some(batches)) = footer.record_batches() else {
        return Ok(None);
    };
    let Some(record_batches) = blocks_in(alloc, &batches)? else {
        return Ok(None);
    };
    let Ok(pairs) = metadata_of(&footer.table) else {
        return Ok(None);
    };
    let Some(custom_metadata) = pairs_in(alloc, &pairs)? else {
        return Ok(None);
    };
    Ok(Some(Footer {
        version,
        schema,
        dictionaries,
        record_batches,
        custom_metadata,
    }))
}

/// The header of a view.
///
/// # Errors
/// - `NotYetImplemented`: the buffers of a batch are compressed.
/// - `OutOfSpec`: a view refuses a slot, or what the header must have is absent.
/// - `OutOfMemory`: there was no memory for what stands in it.
pub fn message_header_of(alloc: Global, header: MessageHeaderRef<'_>) -> Answer<MessageHeader>
    ensures { Takes (owned.header_is_compressed (header_view header.entry)) result (owned.header_in (header_view header.entry)) }
{
    let found = header_in(alloc, &header)?;
    taken(found, header_is_compressed(&header))
}

/// The message of a view.
///
/// # Errors
/// - `NotYetImplemented`: the buffers of a batch are compressed.
/// - `OutOfSpec`: a view refuses a slot, or the header or what it must have is absent.
/// - `OutOfMemory`: there was no memory for what stands in it.
pub fn message_of(alloc: Global, message: MessageRef<'_>) -> Answer<Message>
    ensures { Takes (owned.message_is_compressed (message_view message.entry)) result (owned.message_in (message_view message.entry)) }
{
    let found = message_in(alloc, &message)?;
    taken(found, message_is_compressed(&message))
}

/// The footer of a view.
///
/// # Errors
/// - `OutOfSpec`: a view refuses a slot, or the schema, what it must have, or the blocks of record batches are absent.
/// - `OutOfMemory`: there was no memory for what stands in it.
pub fn footer_of(alloc: Global, footer: FooterRef<'_>) -> Answer<Footer>
    ensures { Takes false result (owned.footer_in (footer_view footer.entry)) }
{
    taken(footer_in(alloc, &footer)?, false)
}
