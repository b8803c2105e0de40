//! Masks and offsets that have to fit.
ghost use Rattle.std.specs.Prelude.{◌≡◌, ◌≤◌};
ghost use Rattle.nested_arrays_flat.specs.columnar_memory.Spans.{last_of};
ghost use Rattle.nested_arrays_flat.specs.columns.SoundColumns.{mask_fits};

use nested_arrays_flat::columnar_memory::{Bitmap, Index, Offset, OffsetsBuffer};

/// Whether a mask, if there is one, has a mark for each of so many slots.
pub fn fits(validity: &Option<Bitmap>, length: usize) -> bool
    ensures { result ≡ mask_fits validity.now length }
{
    match validity {
        Some(mask) => mask.len() == length,
        None => true,
    }
}

/// Where the last span ends, as a number.
pub fn last_of<O: Offset>(offsets: &OffsetsBuffer<O>) -> usize
    ensures value { result ≡ last_of offsets.now }
    ensures bound { result ≤ O.greatest }
{
    offsets.last().to_usize()
}
