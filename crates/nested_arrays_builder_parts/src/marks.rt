//! Validity marks that grow: no bitmap while no slot is null (Arrow columnar format, "Validity bitmaps").
ghost use Rattle.std.specs.Prelude.{◌≡◌, ◌+◌, ◌<◌, ◌≤◌, [], length, take, slice_get, Some, IfErr, ◌↔◌, IsTrue, ◌++◌, ◌∷◌, replicate, true, false};
ghost use Rattle.std.specs.Option.{option_copied};
ghost use Rattle.nested_arrays_core.specs.arrays.columnar_memory.Bits.{unset_count};
ghost use Rattle.nested_arrays_core.specs.arrays.columnar_memory.Results.{OrOutOfMemory};
ghost use Rattle.nested_arrays_core.specs.arrays.columnar_memory.Error.{IsOutOfMemory};
ghost use Rattle.nested_arrays_builder_parts.specs.Marks.{marks, mask_of_marks, AreKept, TakesMark};
ghost use Rattle.nested_arrays_core.specs.arrays.columns.Kinds.{most_slots};

use nested_arrays_core::arrays::columnar_memory::{
    Bitmap, Error, MutableBitmap, Result, count_zeros,
};
use std::alloc::Global;
use std::marker::Model;
use std::mem;

/// As many slots as an array may have.
const MOST_SLOTS: usize = 9_223_372_036_854_775_807;

/// Which slots of a growing column have a value: a mark for each slot, true where it has one and false where it is null. A contract sees the
/// list of the marks.
///
/// While no slot is null there is no bitmap; the first null makes one. A call that is refused changes nothing.
#[derive(Drop)]
pub struct Marks {
    alloc: Global,
    len: usize,
    nulls: usize,
    bitmap: Option<MutableBitmap>,
}

impl Model for Marks {
    ghost use Rattle.std.specs.Prelude.{Bool, List};
    ghost use Rattle.nested_arrays_builder_parts.specs.Marks.{marks, AreKept};

    ghost Value = { List Bool };

    ghost view = { λ m. marks m.len m.bitmap };

    ghost invariant = { λ m. AreKept m.len m.nulls m.bitmap };
}

impl Marks {
    /// No marks, which take no memory.
    pub fn new(alloc: Global) -> Self
        ensures { result ≡ [] }
    {
        Marks {
            alloc,
            len: 0,
            nulls: 0,
            bitmap: None,
        }
    }

    /// How many slots there are.
    pub fn len(&self) -> usize
        ensures value { result ≡ length self.now }
        ensures within { result ≤ most_slots }
    {
        self.len
    }

    pub fn is_empty(&self) -> bool
        ensures { IsTrue result ↔ (self.now ≡ []) }
    {
        self.len == 0
    }

    /// How many slots are null.
    pub fn null_count(&self) -> usize
        ensures { result ≡ unset_count self.now }
    {
        self.nulls
    }

    /// The bitmap, which is there exactly where a slot is null.
    pub fn validity(&self) -> Option<&MutableBitmap>
        ensures { option_copied result ≡ mask_of_marks self.now }
    {
        self.bitmap.as_ref()
    }

    /// Whether the slot at a place has a value.
    pub fn is_valid(&self, i: usize) -> bool
        requires { i < length self.now }
        ensures { slice_get self.now i ≡ Some result }
    {
        match &self.bitmap {
            Some(bits) => bits.get(i),
            None => true,
        }
    }

    /// Adds a mark behind the others, or changes nothing.
    ///
    /// # Errors
    /// `Overflow`: there are as many slots as an array may have.
    /// `OutOfMemory`: the mark, or the bitmap that it makes, found no memory.
    #[inline(always)]
    pub fn push(&mut self, mark: bool) -> Result<()>
        ensures { TakesMark self.old mark self.new result }
    {
        if self.len == MOST_SLOTS {
            return Err(Error::Overflow);
        }
        match &mut self.bitmap {
            Some(bits) => {
                if bits.push(mark).is_err() {
                    return Err(Error::OutOfMemory);
                }
            }
            None => {
                if !mark {
                    self.bitmap = Some(first_null(self.alloc, self.len)?);
                }
            }
        }
        self.len += 1;
        if !mark {
            self.nulls += 1;
        }
        Ok(())
    }

    /// Adds the mark of a null, or changes nothing.
    ///
    /// # Errors
    /// `Overflow`: there are as many slots as an array may have.
    /// `OutOfMemory`: the mark, or the bitmap that it makes, found no memory.
    pub fn push_null(&mut self) -> Result<()>
        ensures { TakesMark self.old false self.new result }
    {
        self.push(false)
    }

    /// Drops the marks from `len` on, and the bitmap where no slot before is null. Only the marks that go are counted.
    pub fn truncate(&mut self, len: usize)
        requires { len ≤ length self.old }
        ensures { self.new ≡ take len self.old }
    {
        let bitmap = self.bitmap.take();
        let (nulls, bitmap) = first_marks(bitmap, self.len, self.nulls, len);
        self.bitmap = bitmap;
        self.nulls = nulls;
        self.len = len;
    }

    /// Makes room for some more marks, where there is a bitmap.
    ///
    /// # Errors
    /// `OutOfMemory`: the room found no memory.
    pub fn reserve(&mut self, additional: usize) -> Result<()>
        ensures same { self.new ≡ self.old }
        ensures error { IfErr result IsOutOfMemory }
    {
        match &mut self.bitmap {
            Some(bits) => bits.reserve(additional),
            None => Ok(()),
        }
    }

    /// Gives back memory that no mark needs, as far as the allocator takes it.
    pub fn shrink_to_fit(&mut self)
        ensures { self.new ≡ self.old }
    {
        if let Some(bits) = &mut self.bitmap {
            bits.shrink_to_fit();
        }
    }

    /// The mask of an array, with no copy: none where no slot is null.
    ///
    /// # Errors
    /// `OutOfMemory`: the count of owners found no memory.
    pub fn freeze(self) -> Result<Option<Bitmap>>
        ensures { OrOutOfMemory result (λ mask. mask ≡ mask_of_marks self) }
    {
        match self.bitmap {
            Some(bits) => Ok(Some(bits.freeze()?)),
            None => Ok(None),
        }
    }
}

/// The marks of `held` values and a null behind them.
#[cold]
#[inline(never)]
fn first_null(alloc: Global, held: usize) -> Result<MutableBitmap>
    ensures { OrOutOfMemory result (λ bits. bits ≡ replicate held true ++ false ∷ []) }
{
    let mut bits = MutableBitmap::from_len_set(alloc, held)?;
    bits.push(false)?;
    Ok(bits)
}

/// How many of the first `len` of `held` marks are false, and the bitmap of these where one is.
#[tactic(auto, using(crate::proofs::MarkLists::cut_marks))]
fn first_marks(
    bitmap: Option<MutableBitmap>,
    held: usize,
    nulls: usize,
    len: usize,
) -> (usize, Option<MutableBitmap>)
    requires kept { AreKept held nulls bitmap }
    requires within { len ≤ held }
    ensures counted { result.0 ≡ unset_count (take len (marks held bitmap)) }
    ensures made { result.1 ≡ mask_of_marks (take len (marks held bitmap)) }
{
    let Some(bits) = bitmap else {
        return (0, None);
    };
    let gone = unset_behind(&bits, len);
    if gone == nulls {
        return (0, None);
    }
    (nulls - gone, Some(first_bits(bits, len)))
}

/// How many bits from place `len` on are false.
fn unset_behind(bits: &MutableBitmap, len: usize) -> usize
    requires { len ≤ length bits.now }
    ensures { unset_count bits.now ≡ unset_count (take len bits.now) + result }
{
    let held = bits.len();
    count_zeros(bits.as_slice(), len, held - len)
}

/// The first `len` of some bits, in their memory.
fn first_bits(bits: MutableBitmap, len: usize) -> MutableBitmap
    requires { len ≤ length bits }
    ensures { result ≡ take len bits }
{
    let (bytes, _) = bits.into_inner();
    MutableBitmap::from_vec(bytes, len)
}

/// Drops the bits from `len` on.
pub(crate) fn truncate_bits(bits: &mut MutableBitmap, len: usize)
    requires { len ≤ length bits.old }
    ensures { bits.new ≡ take len bits.old }
{
    let alloc = bits.allocator();
    let held = mem::replace(bits, MutableBitmap::new(alloc));
    *bits = first_bits(held, len);
}
