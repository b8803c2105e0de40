//! Builders of lists of any length.
ghost use Rattle.std.specs.Prelude.{◌≡◌, ◌↔◌, ◌<◌, ◌≤◌, [], IsTrue, is_some, length, not, option_copied, true, ◌⊎◌, IfErr, MatchResult, slice_index_or, false};
ghost use Rattle.nested_arrays_nulls.specs.columnar_memory.Error.{IsOutOfMemory, IsOverflow};
ghost use Rattle.nested_arrays_nulls.specs.access.Nulls.{is_null_at};
ghost use Rattle.nested_arrays_nulls.specs.columnar_memory.Results.{OrOutOfMemory};
ghost use Rattle.nested_arrays_nulls.specs.columnar_memory.Spans.{first_spans, last_of, no_spans, offsets_of, shortened};
ghost use Rattle.nested_arrays_nulls.specs.columns.Kinds.{most_slots};
ghost use Rattle.nested_arrays_nulls.specs.columns.SoundColumns.{mask_fits};
ghost use Rattle.nested_arrays_nulls.specs.columns.StoredColumns.{column_len, column_type, lists, type_layer};
ghost use Rattle.nested_arrays_nulls.specs.generic.ListTypes.{items_field, list_type};
ghost use Rattle.nested_arrays_cells.specs.parts.Marks.{marks, mask_of_marks};
ghost use Rattle.nested_arrays_cells.specs.taken.OpenColumns.{AddsNull, IsFrozen, KeepsFirst, TakesColumn};
ghost use Rattle.nested_arrays_generic_builders.specs.ListBuilders.{list_parts, lists_column, lists_of, no_lists, with_values};
ghost use Rattle.nested_arrays_generic_builders.specs.ListBuilders.{AreLists, JoinsLists, JoinsMarks, JoinsSpans};
ghost use Rattle.nested_arrays_generic_builders.specs.ListBuilders.{AddsNullList, AddsSpan, ClosesColumn, ClosesList, FreezesParts, KeepsParts, LeavesNone};

use crate::lending::MutValues;
use nested_arrays_cells::parts::Marks;
use nested_arrays_cells::taken::MutableArray;
use nested_arrays_nulls::arrays::AnyArray;
use nested_arrays_nulls::columnar_memory::{
    Boxed, DataType, Error, Field, MutableBitmap, Offset, Offsets, Result, Text,
};
use nested_arrays_nulls::generic::{ListArray, ToBoxed};
use std::alloc::Global;
use std::marker::Model;
use std::mem;
use std::rc::Rc;

/// As many slots as an array may have.
const MOST_SLOTS: usize = 9_223_372_036_854_775_807;

/// A builder of lists of any length over a builder of their items (Arrow columnar format, "Variable-size List Layout"). A contract sees the data
/// type, a mark for each list, the spans of the lists among the items, and the builder of these.
///
/// Items are pushed into the builder that `mut_values` lends, and `try_push_valid` closes a list over them. A call that is refused changes nothing.
#[derive(Drop)]
pub struct MutableListArray<O: Offset, M: MutableArray> {
    data_type: DataType,
    pub(crate) marks: Marks,
    pub(crate) offsets: Offsets<O>,
    pub(crate) values: M,
}

impl<O: Offset, M: MutableArray> Model for MutableListArray<O, M> {
    ghost use Rattle.nested_arrays_generic_builders.specs.ListBuilders.{list_parts, list_parts_code, AreLists, ListParts};

    ghost Value = { ListParts M };

    ghost coded = { list_parts_code M.code };

    ghost view = { λ it. list_parts it.data_type it.marks it.offsets it.values };

    ghost invariant = { λ it. AreLists O.IS_LARGE it.data_type it.marks it.offsets };
}

impl<O: Offset, M: MutableArray> MutableListArray<O, M> {
    /// A builder without lists, with room for `capacity` of them. Items that stand in `values` already are the first list's.
    ///
    /// # Errors
    /// `OutOfMemory`: the offsets found no memory.
    pub fn new_from(alloc: Global, values: M, data_type: DataType, capacity: usize) -> Result<Self>
        requires { is_some (items_field O.IS_LARGE (type_layer data_type)) ≡ true }
        ensures { OrOutOfMemory result (λ builder. builder ≡ no_lists data_type values) }
    {
        let offsets = Offsets::with_capacity(alloc, capacity)?;
        Ok(MutableListArray {
            data_type,
            marks: Marks::new(alloc),
            offsets,
            values,
        })
    }

    /// A builder without lists, with room for `capacity` of them, whose items are named "item" and may be null.
    ///
    /// # Errors
    /// `OutOfMemory`: the data type or the offsets found no memory.
    pub fn new_with_capacity(alloc: Global, values: M, capacity: usize) -> Result<Self>
        ensures { OrOutOfMemory result (λ builder. builder ≡ no_lists (list_type O.IS_LARGE (column_type (M.column values))) values) }
    {
        let item_type = values.data_type().clone()?;
        let data_type = ListArray::<O>::default_datatype(alloc, item_type)?;
        MutableListArray::new_from(alloc, values, data_type, capacity)
    }

    /// A builder without lists, whose items have a name and may or may not be null.
    ///
    /// # Errors
    /// `OutOfMemory`: the data type or the offsets found no memory.
    pub fn new_with_field(alloc: Global, values: M, name: Text, is_nullable: bool) -> Result<Self>
        ensures { OrOutOfMemory result (λ builder. builder ≡ no_lists
            (lists_of O.IS_LARGE (record { name = name; data_type = column_type (M.column values); is_nullable = is_nullable; metadata = [] }))
            values) }
    {
        let item_type = values.data_type().clone()?;
        let field = Boxed::new(alloc, Field::new(alloc, name, item_type, is_nullable))?;
        MutableListArray::new_from(alloc, values, lists_of::<O>(field), 0)
    }

    /// A builder of lists whose items stand in a builder already: where each of them begins, from 0 on, and a mask, which is let go where it has no
    /// null. The items are named "item" and may be null.
    ///
    /// # Errors
    /// `Overflow`: there are more lists than a column may have.
    /// `OutOfMemory`: the data type or the marks found no memory.
    pub fn new_from_mutable(
        alloc: Global,
        mutable: M,
        offsets: Offsets<O>,
        validity: Option<MutableBitmap>,
    ) -> Result<Self>
        requires first { offsets.start ≡ 0 }
        requires masked { mask_fits validity (length offsets.lengths) ≡ true }
        ensures { MatchResult result
            (λ builder. builder ≡ list_parts (list_type O.IS_LARGE (column_type (M.column mutable))) (marks (length offsets.lengths) validity) offsets
            mutable)
            (λ e. IsOutOfMemory e ⊎ (IsOverflow e × (most_slots < length offsets.lengths))) }
    {
        let item_type = mutable.data_type().clone()?;
        let data_type = ListArray::<O>::default_datatype(alloc, item_type)?;
        let marks = marks_of(alloc, &validity, offsets.len_proxy())?;
        Ok(MutableListArray {
            data_type,
            marks,
            offsets,
            values: mutable,
        })
    }

    /// Closes a list over the items that stand behind those of the lists before it.
    ///
    /// # Errors
    /// `Overflow`: there are as many lists as a column may have, fewer items than the lists before have, or more than an offset may number.
    /// `OutOfMemory`: the offset or the mark found no memory.
    pub fn try_push_valid(&mut self) -> Result<()>
        ensures list { ClosesList O.greatest (column_len (M.column self.old.values)) self.old self.new result }
        ensures column { ClosesColumn (lists_column M.column self.old) (M.column self.old.values) (last_of self.old.spans)
            (lists_column M.column self.new) result }
    {
        let items = self.values.len();
        let Some(count) = items.checked_sub(self.offsets.last().to_usize()) else {
            return Err(Error::Overflow);
        };
        push_list(&mut self.marks, &mut self.offsets, true, count)
    }

    /// Adds the marks and the spans of the lists of another builder behind the others. They are over items that are yet to be pushed.
    ///
    /// # Errors
    /// `Overflow`: the lists of both are more than a column may have, or their items more than an offset may number.
    /// `OutOfMemory`: a mark or an offset found no memory.
    pub fn try_extend_spans(&mut self, other: &Self) -> Result<()>
        ensures { JoinsLists O.greatest self.old other.now self.new result }
    {
        join_spans(
            &mut self.marks,
            &mut self.offsets,
            &other.marks,
            &other.offsets,
        )
    }

    /// Whether the items are those of the lists, and none stands behind them.
    pub fn is_closed(&self) -> bool
        ensures { IsTrue result ↔ (last_of self.now.spans ≡ column_len (M.column self.now.values)) }
    {
        self.offsets.last().to_usize() == self.values.len()
    }

    /// Hands to a proof what holds of every such builder.
    pub fn whole(&self)
        ensures { AreLists O.IS_LARGE self.now.data_type self.now.marks self.now.spans }
    {
        let _count = self.marks.len();
    }

    /// The builder of the items.
    pub fn values(&self) -> &M
        ensures { result.now ≡ self.now.values }
    {
        &self.values
    }

    /// Where each list begins among the items, and the last one ends.
    pub fn offsets(&self) -> &Offsets<O>
        ensures { result.now ≡ self.now.spans }
    {
        &self.offsets
    }
}

/// After the loan lists may be unsound until `try_push_valid` closes one over the new items; no array is made of them where there are fewer items
/// than the offsets say, or items of another type.
impl<O: Offset, M: MutableArray> MutValues for MutableListArray<O, M> {
    type Values = M;

    ghost values = { λ p. p.values };

    ghost with_values = { with_values };

    fn mut_values(&mut self) -> &mut M {
        &mut self.values
    }
}

impl<O: Offset, M: MutableArray> MutableListArray<O, M> {
    /// How many lists there are.
    pub fn len(&self) -> usize
        ensures { result ≡ column_len (lists_column M.column self.now) }
    {
        self.marks.len()
    }

    pub fn data_type(&self) -> &DataType
        ensures { result.now ≡ self.now.data_type }
    {
        &self.data_type
    }

    /// The mask, which is there exactly where a list is null.
    pub fn validity(&self) -> Option<&MutableBitmap>
        ensures { option_copied result ≡ mask_of_marks self.now.marks }
    {
        self.marks.validity()
    }

    /// Whether the slot at a place has a list.
    pub fn is_valid(&self, i: usize) -> bool
        requires { i < column_len (lists_column M.column self.now) }
        ensures { result ≡ not (is_null_at (lists_column M.column self.now) i) }
    {
        self.marks.is_valid(i)
    }

    /// Pushes a null.
    ///
    /// # Errors
    /// `Overflow`: there are as many lists as a column may have.
    /// `OutOfMemory`: the offset or the mark found no memory.
    pub fn push_null(&mut self) -> Result<()>
        ensures list { AddsNullList self.old self.new result }
        ensures column { AddsNull (lists_column M.column self.old) (lists_column M.column self.new) result }
    {
        let _last = self.offsets.last().to_usize();
        push_list(&mut self.marks, &mut self.offsets, false, 0)
    }

    /// Makes room for some more lists, but not for their items.
    ///
    /// # Errors
    /// `OutOfMemory`: the room found no memory.
    pub fn reserve(&mut self, additional: usize) -> Result<()>
        ensures same { self.new ≡ self.old }
        ensures error { IfErr result IsOutOfMemory }
    {
        self.marks.reserve(additional)?;
        self.offsets.reserve(additional)
    }

    /// Gives back memory that no list needs, as far as the allocator takes it.
    pub fn shrink_to_fit(&mut self)
        ensures { lists_column M.column self.new ≡ lists_column M.column self.old }
    {
        self.values.shrink_to_fit();
        self.offsets.shrink_to_fit();
        self.marks.shrink_to_fit();
    }

    /// Keeps the first `len` lists alone, and their items.
    pub fn truncate(&mut self, len: usize)
        requires { len ≤ column_len (lists_column M.column self.old) }
        ensures list { KeepsParts self.old len self.new }
        ensures items { KeepsFirst (M.column self.old.values) (last_of (first_spans self.old.spans len)) (M.column self.new.values) }
        ensures column { KeepsFirst (lists_column M.column self.old) len (lists_column M.column self.new) }
    {
        let end = keep_spans(&mut self.offsets, len);
        self.marks.truncate(len);
        if end < self.values.len() {
            self.values.truncate(end);
        }
    }

    /// The array of the lists; this is left empty.
    fn take(&mut self, alloc: Global) -> Result<ListArray<O>>
        ensures left { LeavesNone M.column self.old self.new }
        ensures column { TakesColumn (lists_column M.column self.old) (lists_column M.column self.new) (λ array. array) result }
    {
        let marks = mem::replace(&mut self.marks, Marks::new(alloc));
        let offsets = take_offsets(alloc, &mut self.offsets);
        let values = self.values.as_box(alloc);
        freeze_parts(alloc, &self.data_type, marks, offsets, values)
    }

    /// The array of the lists.
    ///
    /// # Errors
    /// `OutOfMemory`: the array, or what is left of the builder, found no memory.
    /// `OutOfSpec`: the column is not sound, as where fewer items stand below than the offsets say, or items of another type.
    pub fn freeze(self, alloc: Global) -> Result<ListArray<O>>
        ensures { IsFrozen (λ array. array) (lists_column M.column self) result }
    {
        let mut builder = self;
        builder.take(alloc)
    }
}

impl<M: MutableArray> MutableArray for MutableListArray<i32, M> {
    ghost column = { lists_column M.column };

    fn len(&self) -> usize {
        MutableListArray::len(self)
    }

    fn data_type(&self) -> &DataType {
        MutableListArray::data_type(self)
    }

    fn validity(&self) -> Option<&MutableBitmap> {
        MutableListArray::validity(self)
    }

    fn is_valid(&self, i: usize) -> bool {
        MutableListArray::is_valid(self, i)
    }

    fn as_box(&mut self, alloc: Global) -> Result<AnyArray>
        ensures left { LeavesNone M.column self.old self.new }
        ensures column { TakesColumn (lists_column M.column self.old) (lists_column M.column self.new) (λ array. array) result }
    {
        let array = self.take(alloc)?;
        Ok(array.into_any())
    }

    fn as_arc(&mut self, alloc: Global) -> Result<Rc<AnyArray>>
        ensures left { LeavesNone M.column self.old self.new }
        ensures column { TakesColumn (lists_column M.column self.old) (lists_column M.column self.new) (λ counted. counted.value) result }
    {
        let array = self.take(alloc)?;
        Ok(Rc::new(alloc, array.into_any())?)
    }

    fn push_null(&mut self) -> Result<()> {
        MutableListArray::push_null(self)
    }

    fn reserve(&mut self, additional: usize) -> Result<()> {
        MutableListArray::reserve(self, additional)
    }

    fn shrink_to_fit(&mut self) {
        MutableListArray::shrink_to_fit(self);
    }

    fn truncate(&mut self, len: usize) {
        MutableListArray::truncate(self, len);
    }
}

impl<M: MutableArray> MutableArray for MutableListArray<i64, M> {
    ghost column = { lists_column M.column };

    fn len(&self) -> usize {
        MutableListArray::len(self)
    }

    fn data_type(&self) -> &DataType {
        MutableListArray::data_type(self)
    }

    fn validity(&self) -> Option<&MutableBitmap> {
        MutableListArray::validity(self)
    }

    fn is_valid(&self, i: usize) -> bool {
        MutableListArray::is_valid(self, i)
    }

    fn as_box(&mut self, alloc: Global) -> Result<AnyArray>
        ensures left { LeavesNone M.column self.old self.new }
        ensures column { TakesColumn (lists_column M.column self.old) (lists_column M.column self.new) (λ array. array) result }
    {
        let array = self.take(alloc)?;
        Ok(array.into_any())
    }

    fn as_arc(&mut self, alloc: Global) -> Result<Rc<AnyArray>>
        ensures left { LeavesNone M.column self.old self.new }
        ensures column { TakesColumn (lists_column M.column self.old) (lists_column M.column self.new) (λ counted. counted.value) result }
    {
        let array = self.take(alloc)?;
        Ok(Rc::new(alloc, array.into_any())?)
    }

    fn push_null(&mut self) -> Result<()> {
        MutableListArray::push_null(self)
    }

    fn reserve(&mut self, additional: usize) -> Result<()> {
        MutableListArray::reserve(self, additional)
    }

    fn shrink_to_fit(&mut self) {
        MutableListArray::shrink_to_fit(self);
    }

    fn truncate(&mut self, len: usize) {
        MutableListArray::truncate(self, len);
    }
}

/// The marks of so many slots with a mask.
pub fn marks_of(alloc: Global, validity: &Option<MutableBitmap>, count: usize) -> Result<Marks>
    requires { mask_fits validity.now count ≡ true }
    ensures { MatchResult result (λ kept. kept ≡ marks count validity.now)
        (λ e. IsOutOfMemory e ⊎ (IsOverflow e × (most_slots < count))) }
{
    let mut kept = Marks::new(alloc);
    for place in 0..count {
        kept.push(mark_at(validity, place, count))?;
    }
    Ok(kept)
}

/// The mark of one of so many slots with a mask.
fn mark_at(validity: &Option<MutableBitmap>, place: usize, _count: usize) -> bool
    requires masked { mask_fits validity.now _count ≡ true }
    requires within { place < _count }
    ensures { slice_index_or (marks _count validity.now) place false ≡ result }
{
    match validity {
        Some(bits) => bits.get(place),
        None => true,
    }
}

/// The type of lists of a field's items.
fn lists_of<O: Offset>(field: Boxed<Field>) -> DataType
    ensures { result ≡ lists_of O.IS_LARGE field }
{
    if O::IS_LARGE {
        DataType::LargeList(field)
    } else {
        DataType::List(field)
    }
}

/// Adds a mark and a span of so many items behind the others, or changes nothing.
pub(crate) fn push_list<O: Offset>(
    marks: &mut Marks,
    offsets: &mut Offsets<O>,
    mark: bool,
    count: usize,
) -> Result<()>
    ensures { AddsSpan O.greatest marks.old offsets.old mark count marks.new offsets.new result }
{
    let held = marks.len();
    marks.push(mark)?;
    match offsets.try_push(count) {
        Ok(()) => Ok(()),
        Err(error) => {
            marks.truncate(held);
            Err(error)
        }
    }
}

/// Adds marks behind the others, or changes nothing.
pub fn join_marks(marks: &mut Marks, more: &Marks) -> Result<()>
    ensures { JoinsMarks marks.old more.now marks.new result }
{
    let held = marks.len();
    if more.len() > MOST_SLOTS - held {
        return Err(Error::Overflow);
    }
    for i in 0..more.len() {
        match marks.push(more.is_valid(i)) {
            Ok(()) => {}
            Err(_) => {
                marks.truncate(held);
                return Err(Error::OutOfMemory);
            }
        }
    }
    Ok(())
}

/// Adds marks and spans behind the others, or changes nothing.
fn join_spans<O: Offset>(
    marks: &mut Marks,
    offsets: &mut Offsets<O>,
    more_marks: &Marks,
    more: &Offsets<O>,
) -> Result<()>
    ensures { JoinsSpans O.greatest marks.old offsets.old more_marks.now more.now marks.new offsets.new result }
{
    let held = marks.len();
    join_marks(marks, more_marks)?;
    match offsets.try_extend_from_self(more) {
        Ok(()) => Ok(()),
        Err(error) => {
            marks.truncate(held);
            Err(error)
        }
    }
}

/// Takes the last span off.
fn drop_span<O: Offset>(offsets: &mut Offsets<O>)
    requires { 0 < length offsets.old.lengths }
    ensures { offsets.new ≡ shortened offsets.old }
{
    match offsets.pop() {
        Some(_) => {}
        None => {}
    }
}

/// Keeps the first spans alone, and answers where the last of them ends.
#[tactic(auto, using(crate::proofs::FirstSpans::first_again, crate::proofs::FirstSpans::first_all))]
fn keep_spans<O: Offset>(offsets: &mut Offsets<O>, len: usize) -> usize
    requires { len ≤ length offsets.old.lengths }
    ensures first { offsets.new ≡ first_spans offsets.old len }
    ensures end { result ≡ last_of offsets.new }
{
    'keep: while offsets.len_proxy() > len {
        drop_span(offsets);
    }
    offsets.last().to_usize()
}

/// The offsets, in whose place none are left.
fn take_offsets<O: Offset>(alloc: Global, offsets: &mut Offsets<O>) -> Result<Offsets<O>>
    requires { offsets.old.start ≡ 0 }
    ensures taken { OrOutOfMemory result (λ taken. taken ≡ offsets.old) }
    ensures left { offsets.new ≡ no_spans }
{
    match Offsets::new(alloc) {
        Ok(fresh) => Ok(mem::replace(offsets, fresh)),
        Err(error) => {
            keep_spans(offsets, 0);
            Err(error)
        }
    }
}

/// The array of lists with these parts, or why one of them could not be had.
fn freeze_parts<O: Offset>(
    alloc: Global,
    data_type: &DataType,
    marks: Marks,
    offsets: Result<Offsets<O>>,
    values: Result<AnyArray>,
) -> Result<ListArray<O>>
    requires { is_some (items_field O.IS_LARGE (type_layer data_type.now)) ≡ true }
    ensures { FreezesParts data_type.now marks offsets values result }
{
    let values = match values {
        Ok(values) => values,
        Err(error) => return Err(error),
    };
    let offsets = match offsets {
        Ok(offsets) => offsets,
        Err(error) => return Err(error),
    };
    freeze_lists(alloc, data_type, marks, offsets, values)
}

/// The array of lists with these parts.
#[tactic(auto, using(crate::proofs::FrozenLists::frozen_lists))]
fn freeze_lists<O: Offset>(
    alloc: Global,
    data_type: &DataType,
    marks: Marks,
    offsets: Offsets<O>,
    values: AnyArray,
) -> Result<ListArray<O>>
    requires { is_some (items_field O.IS_LARGE (type_layer data_type.now)) ≡ true }
    ensures { IsFrozen (λ array. array) (lists data_type.now (mask_of_marks marks) (offsets_of offsets) values) result }
{
    let data_type = data_type.clone()?;
    let offsets = offsets.freeze()?;
    let validity = marks.freeze()?;
    let values = Box::new(alloc, values)?;
    ListArray::try_new(data_type, offsets, values, validity)
}
