//! Builders of lists of one size.
ghost use Rattle.std.specs.Prelude.{◌≡◌, ◌+◌, ◌*◌, ◌<◌, ◌≤◌, [], length, not, option_copied, take, IfErr, IsTrue, ◌↔◌};
ghost use Rattle.nested_arrays_generic_builders.specs.nulls.access.Nulls.{is_null_at};
ghost use Rattle.nested_arrays_generic_builders.specs.nulls.arrays.ItemTypes.{fixed_list_type};
ghost use Rattle.nested_arrays_generic_builders.specs.nulls.arrays.Lengths.{size_of};
ghost use Rattle.nested_arrays_generic_builders.specs.nulls.columnar_memory.Error.{IsOutOfMemory};
ghost use Rattle.nested_arrays_generic_builders.specs.nulls.columnar_memory.Results.{OrOutOfMemory};
ghost use Rattle.nested_arrays_generic_builders.specs.nulls.columns.StoredColumns.{column_len, column_type};
ghost use Rattle.nested_arrays_generic_builders.specs.cells.parts.Marks.{mask_of_marks};
ghost use Rattle.nested_arrays_generic_builders.specs.cells.taken.OpenColumns.{AddsNull, IsFrozen, KeepsFirst, TakesColumn};
ghost use Rattle.nested_arrays_sized_builders.specs.FixedListBuilders.{fixed_lists_column, fixed_lists_of, items_with_one, lists_over};
ghost use Rattle.nested_arrays_sized_builders.specs.FixedListBuilders.{no_fixed_lists, with_items, AddsNullFixedList, AddsNulls, ClosesFixedColumn};
ghost use Rattle.nested_arrays_sized_builders.specs.FixedListBuilders.{ClosesFixedList, FillsMarks, FreezesLists, KeepsMarks, LeavesNoLists, MarksBehind};
ghost use Rattle.nested_arrays_sized_builders.specs.FixedListBuilders.{JoinsFixedLists};

use crate::filled_marks::join_filled;
use nested_arrays_generic_builders::MutValues;
use nested_arrays_generic_builders::cells::parts::Marks;
use nested_arrays_generic_builders::cells::taken::MutableArray;
use nested_arrays_generic_builders::nulls::arrays::{AnyArray, FixedSizeListArray};
use nested_arrays_generic_builders::nulls::columnar_memory::{
    Boxed, DataType, Error, Field, MutableBitmap, Result, Text,
};
use std::alloc::Global;
use std::marker::Model;
use std::mem;
use std::rc::Rc;

/// A builder of lists of one size over a builder of their items (Arrow columnar format, "Fixed-Size List Layout"). A contract sees the data type, a
/// mark for each list that was closed, and the builder of the items.
///
/// Items are pushed into the builder that `mut_values` lends, and `try_push_valid` closes a list over them. There are as many lists as the items
/// make, also before they are closed.
#[derive(Drop)]
pub struct MutableFixedSizeListArray<M: MutableArray> {
    data_type: DataType,
    size: usize,
    marks: Marks,
    values: M,
}

impl<M: MutableArray> Model for MutableFixedSizeListArray<M> {
    ghost use Rattle.nested_arrays_sized_builders.specs.FixedListBuilders.{fixed_list_parts, fixed_list_parts_code, AreFixedLists, FixedListParts};

    ghost Value = { FixedListParts M };

    ghost coded = { fixed_list_parts_code M.code };

    ghost view = { λ it. fixed_list_parts it.data_type it.marks it.values };

    ghost invariant = { λ it. AreFixedLists it.data_type it.size };
}

impl<M: MutableArray> MutableFixedSizeListArray<M> {
    /// A builder of which no list was closed, of a type of lists of a size, of one item at least. Items that stand in `values` already are the first
    /// lists'. Takes no memory.
    pub fn new_from(alloc: Global, values: M, data_type: DataType, size: usize) -> Self
        requires sized { size_of data_type ≡ size }
        requires some { 0 < size }
        ensures { result ≡ no_fixed_lists data_type values }
    {
        MutableFixedSizeListArray {
            data_type,
            size,
            marks: Marks::new(alloc),
            values,
        }
    }

    /// A builder of which no list was closed, of a size of one item at least, whose items are named "item" and may be null.
    ///
    /// # Errors
    /// `OutOfMemory`: the data type found no memory.
    pub fn new(alloc: Global, values: M, size: usize) -> Result<Self>
        requires { 0 < size }
        ensures { OrOutOfMemory result (λ builder. builder ≡ no_fixed_lists (fixed_list_type (column_type (M.column values)) size) values) }
    {
        let item_type = values.data_type().clone()?;
        let data_type = FixedSizeListArray::default_datatype(alloc, item_type, size)?;
        Ok(MutableFixedSizeListArray::new_from(alloc, values, data_type, size))
    }

    /// A builder of which no list was closed, of a size of one item at least, whose items have a name and may or may not be null.
    ///
    /// # Errors
    /// `OutOfMemory`: the data type found no memory.
    pub fn new_with_field(
        alloc: Global,
        values: M,
        name: Text,
        is_nullable: bool,
        size: usize,
    ) -> Result<Self>
        requires { 0 < size }
        ensures { OrOutOfMemory result (λ builder. builder ≡ no_fixed_lists (fixed_lists_of
            (record { name = name; data_type = column_type (M.column values); is_nullable = is_nullable; metadata = [] }) size) values) }
    {
        let item_type = values.data_type().clone()?;
        let field = Boxed::new(alloc, Field::new(alloc, name, item_type, is_nullable))?;
        let data_type = DataType::FixedSizeList(field, size);
        Ok(MutableFixedSizeListArray::new_from(alloc, values, data_type, size))
    }

    /// Closes a list over the items that stand behind those of the closed lists, which are as many as a list has.
    ///
    /// # Errors
    /// `InvalidArgumentError`: the items are of another number than the closed lists and one more have.
    /// `Overflow`: there are as many lists as a column may have.
    /// `OutOfMemory`: the mark found no memory.
    ///
    /// The builder is as it was then.
    pub fn try_push_valid(&mut self) -> Result<()>
        ensures list { ClosesFixedList (column_len (M.column self.old.values)) self.old self.new result }
        ensures column { ClosesFixedColumn M.column self.old (fixed_lists_column M.column self.new) result }
    {
        if !self.has_one_list() {
            return Err(Error::InvalidArgumentError("items of another number than a list has"));
        }
        self.marks.push(true)
    }

    /// Closes a list over the items that stand behind those of the closed lists.
    ///
    /// # Errors
    /// `Overflow`: there are as many lists as a column may have.
    /// `OutOfMemory`: the mark found no memory.
    ///
    /// The builder is as it was then.
    pub fn push_valid(&mut self) -> Result<()>
        requires { column_len (M.column self.old.values) ≡ items_with_one self.old }
        ensures list { ClosesFixedList (column_len (M.column self.old.values)) self.old self.new result }
        ensures column { ClosesFixedColumn M.column self.old (fixed_lists_column M.column self.new) result }
    {
        self.try_push_valid()
    }

    /// Whether the items are those of the closed lists and of one more.
    fn has_one_list(&self) -> bool
        ensures { IsTrue result ↔ (column_len (M.column self.now.values) ≡ items_with_one self.now) }
    {
        let items = self.values.len();
        match self.size.checked_mul(self.marks.len() + 1) {
            Some(count) => items == count,
            None => false,
        }
    }

    /// Whether the items are those of lists, and none stands behind them.
    pub fn has_whole_lists(&self) -> bool
        ensures { IsTrue result ↔ (column_len (M.column self.now.values)
            ≡ size_of self.now.data_type * column_len (fixed_lists_column M.column self.now)) }
    {
        self.values.len() % self.size == 0
    }

    /// Closes the lists that were not closed, and adds the marks of the lists of another builder behind theirs. They are over items that are yet to
    /// be pushed.
    ///
    /// # Errors
    /// `Overflow`: the lists of both are more than a column may have.
    /// `OutOfMemory`: a mark found no memory.
    ///
    /// Slots and items are as they were then.
    pub fn try_extend_marks(&mut self, other: &Self) -> Result<()>
        ensures { JoinsFixedLists M.column self.old other.now self.new result }
    {
        let items = self.values.len();
        let lists = items / self.size;
        let more_items = other.values.len();
        let more = more_items / other.size;
        keep_marks(&mut self.marks, lists);
        join_filled(&mut self.marks, lists, &other.marks, more)
    }

    /// The builder of the items.
    pub fn values(&self) -> &M
        ensures { result.now ≡ self.now.values }
    {
        &self.values
    }

    /// How many items each list has, one at least.
    pub fn size(&self) -> usize
        ensures value { result ≡ size_of self.now.data_type }
        ensures some { 0 < result }
    {
        self.size
    }
}

/// After the loan there may be items of no list until more of them make one; no array is made of the lists then, nor where items are of another
/// type, or where one of the lists is null and others were not closed.
impl<M: MutableArray> MutValues for MutableFixedSizeListArray<M> {
    type Values = M;

    ghost values = { λ p. p.values };

    ghost with_values = { with_items };

    fn mut_values(&mut self) -> &mut M {
        &mut self.values
    }
}

impl<M: MutableArray> MutableFixedSizeListArray<M> {
    /// How many lists the items make, whether they were closed or not.
    pub fn len(&self) -> usize
        ensures { result ≡ column_len (fixed_lists_column M.column self.now) }
    {
        self.values.len() / self.size
    }

    pub fn data_type(&self) -> &DataType
        ensures { result.now ≡ self.now.data_type }
    {
        &self.data_type
    }

    /// The mask, which is there exactly where a list is null.
    pub fn validity(&self) -> Option<&MutableBitmap>
        ensures { option_copied result ≡ mask_of_marks self.now.marks }
    {
        self.marks.validity()
    }

    /// Whether the slot at a place has a list. One that was not closed has where no list is null.
    pub fn is_valid(&self, i: usize) -> bool
        requires { i < column_len (fixed_lists_column M.column self.now) }
        ensures { result ≡ not (is_null_at (fixed_lists_column M.column self.now) i) }
    {
        match self.marks.validity() {
            Some(bits) => i < bits.len() && bits.get(i),
            None => true,
        }
    }

    /// Pushes a null, over as many nulls below as a list has items. Lists that were not closed are closed by it.
    ///
    /// # Errors
    /// `Overflow`: the lists or the items with the nulls are more than a column may have, at some depth.
    /// `OutOfMemory`: the nulls found no memory.
    ///
    /// Slots and items are as they were then.
    pub fn push_null(&mut self) -> Result<()>
        ensures list { AddsNullFixedList M.column self.old self.new result }
        ensures column { AddsNull (fixed_lists_column M.column self.old) (fixed_lists_column M.column self.new) result }
    {
        let items = self.values.len();
        let lists = items / self.size;
        keep_marks(&mut self.marks, lists);
        match push_nulls(&mut self.values, self.size) {
            Ok(()) => {}
            Err(error) => return Err(error),
        }
        match mark_behind(&mut self.marks, lists, false) {
            Ok(()) => Ok(()),
            Err(error) => {
                self.values.truncate(items);
                Err(error)
            }
        }
    }

    /// Makes room for some more lists, and for their items.
    ///
    /// # Errors
    /// `OutOfMemory`: the room found no memory.
    pub fn reserve(&mut self, additional: usize) -> Result<()>
        ensures same { fixed_lists_column M.column self.new ≡ fixed_lists_column M.column self.old }
        ensures error { IfErr result IsOutOfMemory }
    {
        let Some(room) = self.size.checked_mul(additional) else {
            return Err(Error::OutOfMemory);
        };
        self.marks.reserve(additional)?;
        self.values.reserve(room)
    }

    /// Gives back memory that no list needs, as far as the allocator takes it.
    pub fn shrink_to_fit(&mut self)
        ensures { fixed_lists_column M.column self.new ≡ fixed_lists_column M.column self.old }
    {
        self.values.shrink_to_fit();
        self.marks.shrink_to_fit();
    }

    /// Keeps the first `len` lists alone, and their items.
    pub fn truncate(&mut self, len: usize)
        requires { len ≤ column_len (fixed_lists_column M.column self.old) }
        ensures list { KeepsMarks self.old len self.new }
        ensures items { KeepsFirst (M.column self.old.values) (size_of self.old.data_type * len) (M.column self.new.values) }
        ensures column { KeepsFirst (fixed_lists_column M.column self.old) len (fixed_lists_column M.column self.new) }
    {
        let _items = self.values.len();
        self.values.truncate(self.size * len);
        keep_marks(&mut self.marks, len);
    }

    /// The array of the lists; this is left empty.
    fn take(&mut self, alloc: Global) -> Result<FixedSizeListArray>
        ensures left { LeavesNoLists M.column self.old self.new }
        ensures column { TakesColumn (fixed_lists_column M.column self.old) (fixed_lists_column M.column self.new) (λ array. array) result }
    {
        let marks = mem::replace(&mut self.marks, Marks::new(alloc));
        let values = self.values.as_box(alloc);
        freeze_parts(alloc, &self.data_type, marks, values)
    }

    /// The array of the lists.
    ///
    /// # Errors
    /// `OutOfMemory`: the array, or what is left of the builder, found no memory.
    /// `OutOfSpec`: the column is not sound, as where items of no list stand below, or items of another type, or where one of the lists is null and
    /// others were not closed.
    pub fn freeze(self, alloc: Global) -> Result<FixedSizeListArray>
        ensures { IsFrozen (λ array. array) (fixed_lists_column M.column self) result }
    {
        let mut builder = self;
        builder.take(alloc)
    }
}

impl<M: MutableArray> MutableArray for MutableFixedSizeListArray<M> {
    ghost column = { fixed_lists_column M.column };

    fn len(&self) -> usize {
        MutableFixedSizeListArray::len(self)
    }

    fn data_type(&self) -> &DataType {
        MutableFixedSizeListArray::data_type(self)
    }

    fn validity(&self) -> Option<&MutableBitmap> {
        MutableFixedSizeListArray::validity(self)
    }

    fn is_valid(&self, i: usize) -> bool {
        MutableFixedSizeListArray::is_valid(self, i)
    }

    fn as_box(&mut self, alloc: Global) -> Result<AnyArray>
        ensures left { LeavesNoLists M.column self.old self.new }
        ensures column { TakesColumn (fixed_lists_column M.column self.old) (fixed_lists_column M.column self.new) (λ array. array) result }
    {
        let array = self.take(alloc)?;
        Ok(AnyArray::from(array))
    }

    fn as_arc(&mut self, alloc: Global) -> Result<Rc<AnyArray>>
        ensures left { LeavesNoLists M.column self.old self.new }
        ensures column { TakesColumn (fixed_lists_column M.column self.old) (fixed_lists_column M.column self.new) (λ counted. counted.value) result }
    {
        let array = self.take(alloc)?;
        Ok(Rc::new(alloc, AnyArray::from(array))?)
    }

    fn push_null(&mut self) -> Result<()> {
        MutableFixedSizeListArray::push_null(self)
    }

    fn reserve(&mut self, additional: usize) -> Result<()> {
        MutableFixedSizeListArray::reserve(self, additional)
    }

    fn shrink_to_fit(&mut self) {
        MutableFixedSizeListArray::shrink_to_fit(self);
    }

    fn truncate(&mut self, len: usize) {
        MutableFixedSizeListArray::truncate(self, len);
    }
}

/// Pushes so many nulls behind the slots of a builder, or leaves the slots as they were.
fn push_nulls<M: MutableArray>(values: &mut M, count: usize) -> Result<()>
    ensures { AddsNulls (M.column values.old) count (M.column values.new) result }
{
    let held = values.len();
    for _ in 0..count {
        match values.push_null() {
            Ok(()) => {}
            Err(error) => {
                values.truncate(held);
                return Err(error);
            }
        }
    }
    Ok(())
}

/// Keeps the first marks alone, where there are more.
fn keep_marks(marks: &mut Marks, len: usize)
    ensures { marks.new ≡ take len marks.old }
{
    if len < marks.len() {
        marks.truncate(len);
    }
}

/// Fills marks of values up to those of so many lists, and adds a mark behind them; or changes nothing.
fn mark_behind(marks: &mut Marks, lists: usize, mark: bool) -> Result<()>
    requires { length marks.old ≤ lists }
    ensures { MarksBehind marks.old lists mark marks.new result }
{
    let held = marks.len();
    match fill_marks(marks, lists, mark) {
        Ok(()) => Ok(()),
        Err(error) => {
            marks.truncate(held);
            Err(error)
        }
    }
}

/// Fills marks of values up to those of so many lists, and adds a mark behind them, or adds some of the marks.
fn fill_marks(marks: &mut Marks, lists: usize, mark: bool) -> Result<()>
    requires { length marks.old ≤ lists }
    ensures { FillsMarks marks.old lists mark marks.new result }
{
    let missing = lists - marks.len();
    for _ in 0..missing {
        match marks.push(true) {
            Ok(()) => {}
            Err(error) => return Err(error),
        }
    }
    marks.push(mark)
}

/// The array of lists with these parts, or why the items could not be had.
fn freeze_parts(
    alloc: Global,
    data_type: &DataType,
    marks: Marks,
    values: Result<AnyArray>,
) -> Result<FixedSizeListArray>
    ensures { FreezesLists data_type.now marks values result }
{
    match values {
        Ok(values) => freeze_lists(alloc, data_type, marks, values),
        Err(error) => Err(error),
    }
}

/// The array of lists with these parts.
#[tactic(auto, using(crate::proofs::FixedPushes::lists_frozen))]
fn freeze_lists(
    alloc: Global,
    data_type: &DataType,
    marks: Marks,
    values: AnyArray,
) -> Result<FixedSizeListArray>
    ensures { IsFrozen (λ array. array) (lists_over data_type.now marks values) result }
{
    let data_type = data_type.clone()?;
    let validity = marks.freeze()?;
    let values = Box::new(alloc, values)?;
    FixedSizeListArray::try_new(data_type, values, validity)
}
