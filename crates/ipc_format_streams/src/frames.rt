//! What stands at a place of a stream.
ghost use Rattle.std.specs.Prelude.{◌≡◌};
ghost use Rattle.ipc_format_values.specs.messages.MessageViews.{header_view};

use ipc_format_values::messages::MessageHeaderRef;

/// What stands at a message's place.
#[derive(Clone, Copy, Debug)]
pub enum Frame<'a> {
    /// Fewer than four bytes are left.
    Truncated,
    /// A length of 0, which ends the stream.
    End,
    /// A message's metadata, and where its body begins.
    Metadata(&'a [u8], usize),
}

/// A message: its metadata, what it carries, and its body.
#[derive(Clone, Copy, Debug)]
pub struct Framed<'a> {
    pub metadata: &'a [u8],
    pub header: MessageHeaderRef<'a>,
    pub body: &'a [u8],
    pub ghost of_metadata: { (header_view header).bytes ≡ metadata.now },
}

/// What stands at a place of a stream.
#[derive(Clone, Copy, Debug)]
pub enum NextMessage<'a> {
    /// Fewer than four bytes are left.
    Truncated,
    End,
    /// A message, and where the next one stands.
    Message(Framed<'a>, usize),
}
