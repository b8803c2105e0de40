//! Masks of builders: none where no slot is null, else a bit for each slot, which is set where the slot has a value (Arrow columnar format,
//! "Validity bitmaps").
ghost use Rattle.std.specs.Prelude.{◌≡◌, ◌<◌, ◌≤◌, ℕ, Bool, List, [], ◌∷◌, ◌++◌, false, length, replicate, true, slice_get, take, ◌↔◌, IsTrue, Some};
ghost use Rattle.std.specs.Option.{ForSome};
ghost use Rattle.columnar_memory_core.specs.Results.{OrOutOfMemory};
ghost use Rattle.flat_arrays_values.specs.Flat.{cut_mask, marks, needed_mask, IsMaskOf};
ghost use Rattle.either.specs.Either.{MatchEither};
ghost use Rattle.flat_arrays_values.specs.Results.{AppliesTo};
ghost use Rattle.flat_arrays_values.specs.Growth.{with_mark, with_marks};
ghost use Rattle.flat_arrays_values.specs.Changes.{Changes};

use columnar_memory_core::{Bitmap, MutableBitmap, Result};
use either::Either;
use std::alloc::Global;
use std::mem;

/// Whether a mask, if there is one, has `len` marks.
pub fn is_mask_of(validity: &Option<MutableBitmap>, len: usize) -> bool
    ensures { IsTrue result ↔ IsMaskOf len validity.now }
{
    match validity {
        Some(mask) => mask.len() == len,
        None => true,
    }
}

/// The mark at a place.
#[tactic(auto, using(crate::proofs::MarkPlaces::mask_lemmas))]
pub fn mark_at(validity: &Option<MutableBitmap>, i: usize) -> bool
    requires { ForSome validity.now (λ mask. i < length mask) }
    ensures { (n : ℕ) → i < n → slice_get (marks n validity.now) i ≡ Some result }
{
    match validity {
        Some(mask) => mask.get(i),
        None => true,
    }
}

/// Drops the bits from `len` on.
pub fn truncate_bits(bits: &mut MutableBitmap, len: usize)
    requires { len ≤ length bits.old }
    ensures { bits.new ≡ take len bits.old }
{
    let alloc = bits.allocator();
    let held = mem::replace(bits, MutableBitmap::new(alloc));
    let parts = held.into_inner();
    *bits = MutableBitmap::from_vec(parts.0, len);
}

/// Drops the marks from `len` on, if there is a mask.
pub fn truncate_mask(validity: &mut Option<MutableBitmap>, len: usize)
    requires { ForSome validity.old (λ mask. len ≤ length mask) }
    ensures { validity.new ≡ cut_mask validity.old 0 len }
{
    if let Some(mask) = validity {
        truncate_bits(mask, len);
    }
}

/// Lets a mask go where no slot is null.
#[tactic(auto, using(crate::proofs::Marked::needed_masked))]
pub fn tidy_mask(validity: &mut Option<MutableBitmap>)
    ensures value { validity.new ≡ needed_mask validity.old }
    ensures masked { (n : ℕ) → IsMaskOf n validity.old → IsMaskOf n validity.new }
{
    let is_needless = match validity {
        Some(mask) => mask.unset_bits() == 0,
        None => false,
    };
    if is_needless {
        *validity = None;
    }
}

/// Adds a mark behind those of `held` values.
///
/// # Errors
/// `OutOfMemory`: the mark, or the mask that it makes, found no memory.
#[inline(always)]
pub fn push_mark(
    alloc: Global,
    validity: &mut Option<MutableBitmap>,
    held: usize,
    mark: bool,
) -> Result<()>
    ensures { Changes result validity.old validity.new (with_marks held validity.old (mark ∷ [])) }
{
    match validity {
        Some(mask) => mask.push(mark),
        None => {
            if !mark {
                *validity = Some(first_null(alloc, held)?);
            }
            Ok(())
        }
    }
}

/// The mask of `held` values and a null behind them.
///
/// # Errors
/// `OutOfMemory`: the mask found no memory.
#[cold]
#[inline(never)]
fn first_null(alloc: Global, held: usize) -> Result<MutableBitmap>
    ensures { OrOutOfMemory result (λ mask. mask ≡ replicate held true ++ false ∷ []) }
{
    let mut mask = MutableBitmap::from_len_set(alloc, held)?;
    mask.push(false)?;
    Ok(mask)
}

/// Replaces the mark of one of `held` values.
///
/// # Errors
/// `OutOfMemory`: the mask that it makes found no memory.
pub fn set_mark(
    alloc: Global,
    validity: &mut Option<MutableBitmap>,
    held: usize,
    i: usize,
    mark: bool,
) -> Result<()>
    requires inside { i < held }
    requires masked { IsMaskOf held validity.old }
    ensures { Changes result validity.old validity.new (with_mark held validity.old i mark) }
{
    match validity {
        Some(mask) => mask.set(i, mark),
        None => {
            if !mark {
                let mut mask = MutableBitmap::from_len_set(alloc, held)?;
                mask.set(i, false);
                *validity = Some(mask);
            }
        }
    }
    Ok(())
}

/// Makes room for some more marks, if there is a mask.
///
/// # Errors
/// `OutOfMemory`: the room found no memory.
pub fn reserve_marks(validity: &mut Option<MutableBitmap>, additional: usize) -> Result<()>
    ensures { Changes result validity.old validity.new validity.old }
{
    match validity {
        Some(mask) => mask.reserve(additional),
        None => Ok(()),
    }
}

/// Gives back memory that no mark needs, as far as the allocator takes it.
pub fn shrink_marks(validity: &mut Option<MutableBitmap>)
    ensures { validity.new ≡ validity.old }
{
    if let Some(mask) = validity {
        mask.shrink_to_fit();
    }
}

/// The mask of an array, with no copy.
///
/// # Errors
/// `OutOfMemory`: the count of owners found no memory.
pub fn freeze_mask(validity: Option<MutableBitmap>) -> Result<Option<Bitmap>>
    ensures { OrOutOfMemory result (λ mask. mask ≡ validity) }
{
    match validity {
        Some(mask) => Ok(Some(mask.freeze()?)),
        None => Ok(None),
    }
}

/// The mask of an array, with no copy; none where no slot is null.
///
/// # Errors
/// `OutOfMemory`: the count of owners found no memory.
pub fn freeze_needed_mask(validity: Option<MutableBitmap>) -> Result<Option<Bitmap>>
    ensures value { OrOutOfMemory result (λ mask. mask ≡ needed_mask validity) }
    ensures masked { (n : ℕ) → IsMaskOf n validity → OrOutOfMemory result (IsMaskOf n) }
{
    let mut validity = validity;
    tidy_mask(&mut validity);
    freeze_mask(validity)
}

/// Adds `count` equal marks behind those of `held` values.
///
/// # Errors
/// `OutOfMemory`: the marks, or the mask that they make, found no memory.
#[tactic(auto, using(crate::proofs::Marked::counted))]
pub fn extend_constant_marks(
    alloc: Global,
    validity: &mut Option<MutableBitmap>,
    held: usize,
    count: usize,
    mark: bool,
) -> Result<()>
    ensures { Changes result validity.old validity.new (with_marks held validity.old (replicate count mark)) }
{
    match validity {
        Some(mask) => mask.extend_constant(count, mark),
        None => {
            if count > 0 && !mark {
                let mut mask = MutableBitmap::from_len_set(alloc, held)?;
                mask.extend_constant(count, false)?;
                *validity = Some(mask);
            }
            Ok(())
        }
    }
}

/// Adds the marks of `count` further values behind those of `held` values.
///
/// # Errors
/// `OutOfMemory`: the marks, or the mask that they make, found no memory.
#[tactic(auto, using(crate::proofs::Marked::counted))]
pub fn extend_marks(
    alloc: Global,
    validity: &mut Option<MutableBitmap>,
    held: usize,
    more: &Option<MutableBitmap>,
    count: usize,
) -> Result<()>
    requires { IsMaskOf count more.now }
    ensures { Changes result validity.old validity.new (with_marks held validity.old (marks count more.now)) }
{
    let Some(bits) = more else {
        return extend_constant_marks(alloc, validity, held, count, true);
    };
    match validity {
        Some(mask) => append(mask, bits),
        None => {
            if bits.unset_bits() > 0 {
                let mut mask = MutableBitmap::from_len_set(alloc, held)?;
                append(&mut mask, bits)?;
                *validity = Some(mask);
            }
            Ok(())
        }
    }
}

/// Adds the bits of another bitmap at the end.
///
/// # Errors
/// `OutOfMemory`: the growth found no memory.
pub fn append(bits: &mut MutableBitmap, more: &MutableBitmap) -> Result<()>
    ensures { Changes result bits.old bits.new (bits.old ++ more.now) }
{
    bits.extend_from_slice(more.as_slice(), 0, more.len())
}

/// Replaces a mask, if there is one, by what a function gives for it, which has as many marks.
#[tactic(auto, using(crate::proofs::MarkPlaces::applied))]
pub fn apply_to_mask<F: FnOnce(MutableBitmap) -> MutableBitmap + Drop>(
    validity: &mut Option<MutableBitmap>,
    f: F,
)
    requires callable { ForSome validity.old (F.pre f) }
    requires keeps { ForSome validity.old (λ mask. (made : List Bool) → F.post f mask made → length made ≡ length mask) }
    ensures applied { AppliesTo (F.post f) validity.old validity.new }
    ensures masked { (n : ℕ) → IsMaskOf n validity.old → IsMaskOf n validity.new }
{
    if let Some(mask) = validity.take() {
        *validity = Some(f(mask));
    }
}

/// The marks to change, on the right, where the mask is its own or there is none; else the mask. Takes no memory.
pub fn mask_into_mut(validity: Option<Bitmap>) -> Either<Option<Bitmap>, Option<MutableBitmap>>
    ensures { MatchEither result (λ mask. mask ≡ validity) (λ mask. mask ≡ validity) }
{
    let Some(mask) = validity else {
        return Either::Right(None);
    };
    match mask.into_mut() {
        Either::Left(mask) => Either::Left(Some(mask)),
        Either::Right(mask) => Either::Right(Some(mask)),
    }
}
