//! Changed parts of builders of primitive arrays.
ghost use Rattle.std.specs.Prelude.{◌≡◌, ◌<◌, Bool, List, length};
ghost use Rattle.std.specs.Option.{ForSome};
ghost use Rattle.std.specs.declared.alloc.Global.{Global};
ghost use Rattle.std.specs.declared.vec.Vec.{Vec};
ghost use Rattle.flat_arrays_values.specs.columnar_memory.Layouts.{physical_type};
ghost use Rattle.flat_arrays_values.specs.columnar_memory.declared.PhysicalType.TheVariants as layouts;
ghost use Rattle.flat_arrays_values.specs.Flat.{flat, IsMaskOf};
ghost use Rattle.flat_arrays_values.specs.Results.{AppliesTo, ForZero};
ghost use Rattle.flat_arrays_values.specs.Growth.{with_slot};
ghost use Rattle.flat_arrays_values.specs.Changes.{Changes};

use crate::primitive::MutablePrimitiveArray;
use flat_arrays_values::columnar_memory::{DataType, MutableBitmap, NativeType, Result};
use flat_arrays_values::marks::{apply_to_mask, set_mark};
use std::mem;

impl<T: NativeType> MutablePrimitiveArray<T> {
    /// Replaces the slot at a place. A null stores zeros, and the first one makes the mask.
    ///
    /// # Errors
    /// `OutOfMemory`: the mask found no memory.
    #[tactic(auto, using(flat_arrays_values::proofs::Marked::masked))]
    pub fn set(&mut self, i: usize, slot: Option<T>) -> Result<()>
        requires { i < length self.old.values }
        ensures { ForZero T.numbers T.PRIMITIVE (λ zero. Changes result self.old self.new (with_slot zero self.old i slot)) }
    {
        let zero = T::default();
        let alloc = *self.values.allocator();
        let held = self.values.len();
        set_mark(alloc, &mut self.validity, held, i, slot.is_some())?;
        self.values[i] = slot.unwrap_or(zero);
        Ok(())
    }

    /// Replaces the values by as many others.
    pub fn set_values(&mut self, values: Vec<T>)
        requires { length values.items ≡ length self.old.values }
        ensures { self.new ≡ flat self.old.data_type values.items self.old.validity }
    {
        self.values = values;
    }

    /// Replaces the mask.
    pub fn set_validity(&mut self, validity: Option<MutableBitmap>)
        requires { IsMaskOf (length self.old.values) validity }
        ensures { self.new ≡ flat self.old.data_type self.old.values validity }
    {
        self.validity = validity;
    }

    /// The same slots under another data type whose arrays store values of `T`.
    pub fn to(self, data_type: DataType) -> Self
        requires { physical_type data_type ≡ layouts.Primitive T.PRIMITIVE }
        ensures { result ≡ flat data_type self.values self.validity }
    {
        let (_, values, validity) = self.into_inner();
        MutablePrimitiveArray {
            data_type,
            values,
            validity,
        }
    }

    /// Replaces the values by what a function gives for them, as many.
    pub fn apply_values<F: FnOnce(Vec<T>) -> Vec<T> + Drop>(&mut self, f: F)
        requires callable { (held : Vec T Global) → held.items ≡ self.old.values → F.pre f held }
        requires keeps { (held made : Vec T Global) → held.items ≡ self.old.values → F.post f held made
            → length made.items ≡ length self.old.values }
        ensures { (held : Vec T Global) × (made : Vec T Global) × (held.items ≡ self.old.values) × F.post f held made
            × (self.new ≡ flat self.old.data_type made.items self.old.validity) }
    {
        let alloc = *self.values.allocator();
        let held = mem::replace(&mut self.values, Vec::new(alloc));
        let made = f(held);
        self.values = made;
    }

    /// Replaces the mask, if there is one, by what a function gives for it, which has as many marks.
    pub fn apply_validity<F: FnOnce(MutableBitmap) -> MutableBitmap + Drop>(&mut self, f: F)
        requires callable { ForSome self.old.validity (F.pre f) }
        requires keeps { ForSome self.old.validity (λ mask. (made : List Bool) → F.post f mask made → length made ≡ length mask) }
        ensures applied { AppliesTo (F.post f) self.old.validity self.new.validity }
        ensures rest { self.new ≡ flat self.old.data_type self.old.values self.new.validity }
    {
        apply_to_mask(&mut self.validity, f);
    }
}
