//! Slots added to builders of boolean arrays, many at once.
ghost use Rattle.std.specs.Prelude.{replicate, false};
ghost use Rattle.std.specs.Iterator.{IsFinite};
ghost use Rattle.flat_arrays_values.specs.Flat.{marks_of};
ghost use Rattle.flat_arrays_values.specs.Growth.{grown, with_slots, with_values};
ghost use Rattle.flat_arrays_values.specs.Changes.{Changes, ChangesAlong};

use crate::boolean::MutableBooleanArray;
use flat_arrays_values::columnar_memory::Result;
use flat_arrays_values::marks::{append, extend_constant_marks, extend_marks, truncate_bits};

impl MutableBooleanArray {
    /// Adds the slots of an iterator that ends, one after another, until one finds no memory: the slots before it stay. A null stores
    /// false, and the first one makes the mask.
    ///
    /// # Errors
    /// `OutOfMemory`: a slot found no memory.
    pub fn extend<I: Iterator<Item = Option<bool>> + Drop>(&mut self, slots: I) -> Result<()>
        requires can { I.can_next slots }
        requires ends { IsFinite (I.remaining slots) }
        ensures { ChangesAlong I.next_gives (with_slots false self.old) slots self.new result }
    {
        // An iterator that promises more slots than there is memory for may give fewer.
        let _ = self.reserve(slots.size_hint().0);
        for slot in slots {
            self.push_marked(slot.unwrap_or(false), slot.is_some())?;
        }
        Ok(())
    }

    /// The same as `extend`.
    ///
    /// # Errors
    /// `OutOfMemory`: a slot found no memory.
    pub fn try_extend<I: Iterator<Item = Option<bool>> + Drop>(&mut self, slots: I) -> Result<()>
        requires can { I.can_next slots }
        requires ends { IsFinite (I.remaining slots) }
        ensures { ChangesAlong I.next_gives (with_slots false self.old) slots self.new result }
    {
        self.extend(slots)
    }

    /// Adds the values of an iterator that ends, none of them null, one after another, until one finds no memory: those before it stay.
    ///
    /// # Errors
    /// `OutOfMemory`: a value found no memory.
    pub fn extend_values<I: Iterator<Item = bool> + Drop>(&mut self, values: I) -> Result<()>
        requires can { I.can_next values }
        requires ends { IsFinite (I.remaining values) }
        ensures { ChangesAlong I.next_gives (with_values self.old) values self.new result }
    {
        // An iterator that promises more values than there is memory for may give fewer.
        let _ = self.reserve(values.size_hint().0);
        for value in values {
            self.push_marked(value, true)?;
        }
        Ok(())
    }

    /// Adds `additional` equal slots at the end. A null stores false, and the first one makes the mask.
    ///
    /// # Errors
    /// `OutOfMemory`: the slots found no memory.
    pub fn extend_constant(&mut self, additional: usize, slot: Option<bool>) -> Result<()>
        ensures { Changes result self.old self.new (with_slots false self.old (replicate additional slot)) }
    {
        self.extend_equal(additional, slot.unwrap_or(false), slot.is_some())
    }

    /// Adds `additional` equal values with equal marks at the end.
    fn extend_equal(&mut self, additional: usize, value: bool, mark: bool) -> Result<()>
        ensures { Changes result self.old self.new (grown self.old (replicate additional value) (replicate additional mark)) }
    {
        let alloc = self.values.allocator();
        let held = self.values.len();
        self.values.extend_constant(additional, value)?;
        let marked = extend_constant_marks(alloc, &mut self.validity, held, additional, mark);
        if marked.is_err() {
            truncate_bits(&mut self.values, held);
        }
        marked
    }

    /// Adds the slots of another builder at the end, whatever its data type.
    ///
    /// # Errors
    /// `OutOfMemory`: the slots found no memory.
    #[tactic(auto, using(flat_arrays_values::proofs::Marked::cut_back, flat_arrays_values::proofs::Marked::masked))]
    pub fn try_extend_from_self(&mut self, other: &Self) -> Result<()>
        ensures { Changes result self.old self.new (grown self.old other.now.values (marks_of other.now)) }
    {
        let alloc = self.values.allocator();
        let held = self.values.len();
        append(&mut self.values, &other.values)?;
        let marked = extend_marks(
            alloc,
            &mut self.validity,
            held,
            &other.validity,
            other.len(),
        );
        if marked.is_err() {
            truncate_bits(&mut self.values, held);
        }
        marked
    }
}
