//! What the columns of flat arrays are: sound ones. Each function here reads an array, and hands that to a caller's proof.
ghost use Rattle.std.specs.Prelude.{◌≡◌, ◌≤◌, true};
ghost use Rattle.nested_arrays_flat.specs.columnar_memory.Spans.{last_of};
ghost use Rattle.nested_arrays_flat.specs.columns.SoundColumns.{is_sound};
ghost use Rattle.nested_arrays_flat.specs.FlatColumns.{binary_column, boolean_column, text_column};

use nested_arrays_flat::columnar_memory::{Offset, OffsetsBuffer};
use nested_arrays_flat::flat_arrays::{BinaryArray, BooleanArray, Utf8Array};
use nested_arrays_flat::read_bytes;

/// The column of an array of booleans is sound.
#[tactic(auto, using(nested_arrays_flat::proofs::SoundFlats::boolean_sound))]
pub fn boolean_is_sound(array: &BooleanArray)
    ensures { is_sound (boolean_column array.now) ≡ true }
{
    let _slots = array.len();
}

/// The column of an array of byte strings is sound.
pub fn binary_is_sound<O: Offset>(array: &BinaryArray<O>)
    ensures { is_sound (binary_column array.now) ≡ true }
{
    let _slots = array.len();
    read_bytes(array.values().as_slice());
    end_fits(array.offsets());
}

/// The column of an array of texts is sound.
pub fn text_is_sound<O: Offset>(array: &Utf8Array<O>)
    ensures { is_sound (text_column array.now) ≡ true }
{
    let _slots = array.len();
    read_bytes(array.values().as_slice());
    end_fits(array.offsets());
}

/// Where the last string ends is a number that offsets have.
#[tactic(auto, using(nested_arrays_flat::proofs::SoundStrings::end_fitting))]
fn end_fits<O: Offset>(offsets: &OffsetsBuffer<O>)
    ensures { last_of offsets.now ≤ O.greatest }
{
    let _end = offsets.last().to_usize();
}
