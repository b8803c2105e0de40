//! Masks of arrays: none where no slot is null, else a bit for each slot, which is set where the slot has a value (Arrow columnar format,
//! "Validity bitmaps").
ghost use Rattle.std.specs.Prelude.{◌≡◌, ◌+◌, ◌<◌, ◌≤◌, ℕ, Bool, List, length, slice_get, ◌↔◌, IsTrue, IfOk, Some};
ghost use Rattle.std.specs.Option.{ForSome};
ghost use Rattle.columnar_memory_core.specs.Bits.{unset_count};
ghost use Rattle.columnar_memory_core.specs.Results.{OrOutOfMemory};
ghost use Rattle.flat_arrays_values.specs.Results.{AppliesTo};
ghost use Rattle.flat_arrays_values.specs.Flat.{cut_mask, marks, mask_of, IsMaskOf};

use columnar_memory_core::{Bitmap, MutableBitmap, Result};

/// Whether a mask, if there is one, has `len` marks.
pub fn is_mask_of(validity: &Option<Bitmap>, len: usize) -> bool
    ensures { IsTrue result ↔ IsMaskOf len validity.now }
{
    match validity {
        Some(mask) => mask.len() == len,
        None => true,
    }
}

/// The mark at a place.
#[tactic(auto, using(crate::proofs::MarkPlaces::mask_lemmas))]
pub fn mark_at(validity: &Option<Bitmap>, i: usize) -> bool
    requires { ForSome validity.now (λ mask. i < length mask) }
    ensures { (n : ℕ) → i < n → slice_get (marks n validity.now) i ≡ Some result }
{
    match validity {
        Some(mask) => mask.get_bit(i),
        None => true,
    }
}

/// How many marks are false.
#[tactic(auto, using(crate::proofs::MarkPlaces::mask_lemmas))]
pub fn unset_marks(validity: &Option<Bitmap>) -> usize
    ensures { (n : ℕ) → result ≡ unset_count (marks n validity.now) }
{
    match validity {
        Some(mask) => mask.unset_bits(),
        None => 0,
    }
}

/// Narrows a mask, if there is one, to the `count` marks from `offset` on.
#[tactic(auto, using(crate::proofs::MarkPlaces::windows))]
pub fn slice_mask(validity: &mut Option<Bitmap>, offset: usize, count: usize)
    requires { ForSome validity.old (λ mask. offset + count ≤ length mask) }
    ensures { validity.new ≡ cut_mask validity.old offset count }
{
    if let Some(mask) = validity {
        mask.slice(offset, count);
    }
}

/// The mask of some marks, or no mask where each is true.
///
/// # Errors
/// `OutOfMemory`: the count of owners found no memory.
pub fn mask_from(bits: MutableBitmap) -> Result<Option<Bitmap>>
    ensures value { OrOutOfMemory result (λ validity. validity ≡ mask_of bits) }
    ensures masked { IfOk result (λ validity. IsMaskOf (length bits) validity) }
{
    if bits.unset_bits() == 0 {
        return Ok(None);
    }
    Ok(Some(bits.freeze()?))
}

/// Replaces a mask, if there is one, by what a function gives for it, which has as many marks.
#[tactic(auto, using(crate::proofs::MarkPlaces::applied))]
pub fn apply_to_mask<F: FnOnce(Bitmap) -> Bitmap + Drop>(validity: &mut Option<Bitmap>, f: F)
    requires callable { ForSome validity.old (F.pre f) }
    requires keeps { ForSome validity.old (λ mask. (made : List Bool) → F.post f mask made → length made ≡ length mask) }
    ensures applied { AppliesTo (F.post f) validity.old validity.new }
    ensures masked { (n : ℕ) → IsMaskOf n validity.old → IsMaskOf n validity.new }
{
    if let Some(mask) = validity.take() {
        *validity = Some(f(mask));
    }
}
