//! Whether bytes between offsets are texts.
ghost use Rattle.std.specs.Prelude.{◌↔◌, ◌≤◌, IsTrue, drop, length, sum};
ghost use Rattle.std.specs.Str.{IsCharBoundary};
ghost use Rattle.flat_arrays_values.specs.columnar_memory.Spans.{last_of};
ghost use Rattle.flat_arrays_bytes.specs.ByteStrings.{cut_by};
ghost use Rattle.flat_arrays_bytes.specs.Texts.{AllTexts, CutsBetweenChars};

use crate::column::{end_of, start_of};
use flat_arrays_values::columnar_memory::{Offset, OffsetsBuffer};
use simdutf8::is_utf8;

/// Whether no character is cut in two before these bytes.
fn begins_between_chars(bytes: &[u8]) -> bool
    ensures { IsTrue result ↔ IsCharBoundary bytes.now 0 }
{
    match bytes.first() {
        Some(byte) => *byte < 0x80 || *byte >= 0xc0,
        None => true,
    }
}

/// Whether no span begins inside a character, where the first begins with these bytes.
fn cuts_between_chars<O: Offset>(offsets: &OffsetsBuffer<O>, window: &[u8]) -> bool
    requires { sum offsets.now.lengths ≤ length window.now }
    ensures { IsTrue result ↔ CutsBetweenChars offsets.now.lengths window.now }
{
    let mut rest = window;
    for length in offsets.lengths() {
        if !begins_between_chars(rest) {
            return false;
        }
        rest = &rest[length..];
    }
    true
}

/// Whether the bytes of each span are UTF-8 by themselves. The bytes from the first offset to the last are tested once, and each offset for
/// where a character begins: a text that is cut between its characters is cut into texts.
#[tactic(auto, using(crate::proofs::TextCuts::texts_between))]
pub fn are_texts<O: Offset>(offsets: &OffsetsBuffer<O>, bytes: &[u8]) -> bool
    requires { last_of offsets.now ≤ length bytes.now }
    ensures { IsTrue result ↔ AllTexts (cut_by offsets.now.lengths (drop offsets.now.start bytes.now)) }
{
    let window = &bytes[start_of(offsets)..end_of(offsets)];
    is_utf8(window) && cuts_between_chars(offsets, window)
}
