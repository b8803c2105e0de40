//! Masks of arrays: none where no slot is null, else a bit for each slot, which is set where the slot has a value (Arrow columnar format,
//! "Validity bitmaps").
ghost use Rattle.std.specs.Prelude.{◌≡◌, ◌+◌, ◌<◌, ◌≤◌, ◌↔◌, IsTrue, length, option_copied, true};
ghost use Rattle.std.specs.Option.{ForSome};
ghost use Rattle.nested_arrays_columns.specs.SoundColumns.{mask_fits};
ghost use Rattle.nested_arrays_columns.specs.StoredColumns.{cut_mask, is_valid_at};
ghost use Rattle.nested_arrays_flat.specs.ColumnMasks.{unset_in};

use flat_arrays_core::columnar_memory::Bitmap;

/// Narrows a mask, if there is one, to the `count` marks from `offset` on.
#[tactic(auto, using(crate::proofs::CutMasks::cut_window))]
pub fn slice_mask(validity: &mut Option<Bitmap>, offset: usize, count: usize)
    requires { ForSome validity.old (λ mask. offset + count ≤ length mask) }
    ensures { validity.new ≡ cut_mask validity.old offset count }
{
    if let Some(mask) = validity {
        mask.slice(offset, count);
    }
}

/// Whether a mask, if there is one, has `len` marks.
#[tactic(auto, using(crate::proofs::CutMasks::fitting))]
pub fn is_mask_of(validity: &Option<Bitmap>, len: usize) -> bool
    ensures { IsTrue result ↔ (mask_fits validity.now len ≡ true) }
{
    match validity {
        Some(mask) => mask.len() == len,
        None => true,
    }
}

/// Whether a mask, if there is one, says that there is a value at a place.
#[tactic(auto, using(crate::proofs::CutMasks::marked))]
pub fn mark_at(validity: Option<&Bitmap>, i: usize) -> bool
    requires { ForSome (option_copied validity) (λ mask. i < length mask) }
    ensures { result ≡ is_valid_at (option_copied validity.entry) i }
{
    match validity {
        Some(mask) => mask.get_bit(i),
        None => true,
    }
}

/// How many marks of a mask are unset, none where there is no mask.
pub fn unset_marks(validity: Option<&Bitmap>) -> usize
    ensures { result ≡ unset_in (option_copied validity.entry) }
{
    match validity {
        Some(mask) => mask.unset_bits(),
        None => 0,
    }
}
