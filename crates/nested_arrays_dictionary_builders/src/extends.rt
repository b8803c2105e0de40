//! Builders to which the slots of another of their kind are pushed.
ghost use Rattle.std.specs.Prelude.{◌≡◌, ◌↔◌, ◌+◌, ◌<◌, ◌≤◌, IsTrue, length, true};
ghost use Rattle.nested_arrays_sized_builders.specs.nulls.arrays.Lengths.{size_of};
ghost use Rattle.nested_arrays_sized_builders.specs.nulls.columns.Kinds.{most_slots};
ghost use Rattle.nested_arrays_sized_builders.specs.nulls.columns.SoundColumns.{is_sound};
ghost use Rattle.nested_arrays_sized_builders.specs.nulls.columns.StoredColumns.{column_len, column_type};
ghost use Rattle.nested_arrays_sized_builders.specs.nulls.flat.FlatColumns.{boolean_column, byte_width, primitive_column};
ghost use Rattle.nested_arrays_sized_builders.specs.cells.taken.builders.values.ByteBuilders.{from_zero, open_binary, open_text};
ghost use Rattle.nested_arrays_sized_builders.specs.FixedListBuilders.{fixed_lists_column};
ghost use Rattle.nested_arrays_sized_builders.specs.ListBuilders.{lists_column};
ghost use Rattle.nested_arrays_sized_builders.specs.SizedStrings.{JoinsStrings, sized_column};
ghost use Rattle.nested_arrays_dictionary_builders.specs.JoinedArrays.{JoinsBytes, JoinsFlat};
ghost use Rattle.nested_arrays_dictionary_builders.specs.JoinedColumns.{AddsColumn};
ghost use Rattle.nested_arrays_dictionary_builders.specs.JoinedFixedLists.{AddsFixedItems, JoinsFixedItems};
ghost use Rattle.nested_arrays_dictionary_builders.specs.JoinedLists.{AddsItems, JoinsItems};

use crate::items::MOST_SLOTS;
use crate::texts::count_of;
use nested_arrays_sized_builders::cells::builders::values::{rebase_strings, rebase_texts};
use nested_arrays_sized_builders::cells::taken::MutableArray;
use nested_arrays_sized_builders::flat_arrays::{
    MutableBinaryArray, MutableBooleanArray, MutablePrimitiveArray, MutableUtf8Array,
};
use nested_arrays_sized_builders::nulls::columnar_memory::{Error, NativeType, Offset, Result};
use nested_arrays_sized_builders::nulls::flat::PrimitiveKind;
use nested_arrays_sized_builders::{
    MutValues, MutableFixedSizeBinaryArray, MutableFixedSizeListArray, MutableListArray,
};

/// A builder to which the slots of another of its kind are pushed.
pub trait TryExtendFromSelf: MutableArray {
    /// Pushes the slots of another builder behind the others; or leaves the slots as they are.
    ///
    /// # Errors
    /// `Overflow`: the slots of both are more than a column may have, or an offset is past its bound.
    /// `InvalidArgumentError`: the builders have not the same type, or one stores what is none of its slots.
    /// `OutOfMemory`: the slots found no memory.
    fn try_extend_from_self(&mut self, other: &Self) -> Result<()>
        ensures { AddsColumn (Self.column self.old) (Self.column other.now) (Self.column self.new) result };
}

/// Numbers are joined whatever the data types.
impl<T: PrimitiveKind> TryExtendFromSelf for MutablePrimitiveArray<T> {
    fn try_extend_from_self(&mut self, other: &Self) -> Result<()>
        ensures values { JoinsFlat self.old other.now self.new result }
        ensures column { AddsColumn (primitive_column T.PRIMITIVE T.numbers self.old) (primitive_column T.PRIMITIVE T.numbers other.now)
            (primitive_column T.PRIMITIVE T.numbers self.new) result }
    {
        let _whole = self.len();
        let _whole_other = other.len();
        join_numbers(self, other)
    }
}

/// Booleans are joined whatever the data types.
impl TryExtendFromSelf for MutableBooleanArray {
    fn try_extend_from_self(&mut self, other: &Self) -> Result<()>
        ensures values { JoinsFlat self.old other.now self.new result }
        ensures column { AddsColumn (boolean_column self.old) (boolean_column other.now) (boolean_column self.new) result }
    {
        let _whole = self.len();
        let _whole_other = other.len();
        join_booleans(self, other)
    }
}

/// Texts are joined whatever the data types.
impl TryExtendFromSelf for MutableUtf8Array<i32> {
    fn try_extend_from_self(&mut self, other: &Self) -> Result<()> {
        extend_texts(self, other)
    }
}

/// Texts are joined whatever the data types.
impl TryExtendFromSelf for MutableUtf8Array<i64> {
    fn try_extend_from_self(&mut self, other: &Self) -> Result<()> {
        extend_texts(self, other)
    }
}

/// Byte strings are joined whatever the data types.
impl TryExtendFromSelf for MutableBinaryArray<i32> {
    fn try_extend_from_self(&mut self, other: &Self) -> Result<()> {
        extend_strings(self, other)
    }
}

/// Byte strings are joined whatever the data types.
impl TryExtendFromSelf for MutableBinaryArray<i64> {
    fn try_extend_from_self(&mut self, other: &Self) -> Result<()> {
        extend_strings(self, other)
    }
}

/// Byte strings of one size are joined where both have the same size.
impl TryExtendFromSelf for MutableFixedSizeBinaryArray {
    fn try_extend_from_self(&mut self, other: &Self) -> Result<()>
        ensures strings { JoinsStrings self.old other.now self.new result }
        ensures column { AddsColumn (sized_column self.old) (sized_column other.now) (sized_column self.new) result }
    {
        whole_strings(self);
        whole_strings(other);
        MutableFixedSizeBinaryArray::try_extend_from_self(self, other)
    }
}

/// Lists are joined where both builders have no items but those of their lists.
impl<M: TryExtendFromSelf> TryExtendFromSelf for MutableListArray<i32, M> {
    fn try_extend_from_self(&mut self, other: &Self) -> Result<()> {
        extend_lists(self, other)
    }
}

/// Lists are joined where both builders have no items but those of their lists.
impl<M: TryExtendFromSelf> TryExtendFromSelf for MutableListArray<i64, M> {
    fn try_extend_from_self(&mut self, other: &Self) -> Result<()> {
        extend_lists(self, other)
    }
}

/// Lists of one size are joined where both have the same size and items of one type, and the first have no items but those of their lists.
impl<M: TryExtendFromSelf> TryExtendFromSelf for MutableFixedSizeListArray<M> {
    fn try_extend_from_self(&mut self, other: &Self) -> Result<()> {
        extend_fixed_lists(self, other)
    }
}

/// Whether so many slots and so many more are no more than a column may have.
fn has_room(held: usize, more: usize) -> bool
    ensures { IsTrue result ↔ (held + more ≤ most_slots) }
{
    held <= MOST_SLOTS && more <= MOST_SLOTS - held
}

/// Adds the numbers of another builder behind the others, or changes nothing.
fn join_numbers<T: NativeType>(
    numbers: &mut MutablePrimitiveArray<T>,
    other: &MutablePrimitiveArray<T>,
) -> Result<()>
    ensures { JoinsFlat numbers.old other.now numbers.new result }
{
    if !has_room(numbers.len(), other.len()) {
        return Err(Error::Overflow);
    }
    numbers.try_extend_from_self(other)
}

/// Adds the booleans of another builder behind the others, or changes nothing.
fn join_booleans(booleans: &mut MutableBooleanArray, other: &MutableBooleanArray) -> Result<()>
    ensures { JoinsFlat booleans.old other.now booleans.new result }
{
    if !has_room(booleans.len(), other.len()) {
        return Err(Error::Overflow);
    }
    booleans.try_extend_from_self(other)
}

/// Adds the texts of another builder behind the others, or changes nothing but where offsets begin.
fn join_texts<O: Offset>(texts: &mut MutableUtf8Array<O>, other: &MutableUtf8Array<O>) -> Result<()>
    ensures { JoinsBytes O.greatest (from_zero texts.old) other.now (from_zero texts.new) result }
{
    if !has_room(count_of(texts), count_of(other)) {
        return Err(Error::Overflow);
    }
    match rebase_texts(texts) {
        Ok(()) => texts.try_extend_from_self(other),
        Err(error) => Err(error),
    }
}

/// Adds the byte strings of another builder behind the others, or changes nothing but where offsets begin.
fn join_strings<O: Offset>(
    strings: &mut MutableBinaryArray<O>,
    other: &MutableBinaryArray<O>,
) -> Result<()>
    ensures { JoinsBytes O.greatest (from_zero strings.old) other.now (from_zero strings.new) result }
{
    if !has_room(count_of(strings), count_of(other)) {
        return Err(Error::Overflow);
    }
    match rebase_strings(strings) {
        Ok(()) => strings.try_extend_from_self(other),
        Err(error) => Err(error),
    }
}

/// Adds the texts of another builder behind the others.
fn extend_texts<O: Offset>(
    texts: &mut MutableUtf8Array<O>,
    other: &MutableUtf8Array<O>,
) -> Result<()>
    ensures { AddsColumn (open_text texts.old) (open_text other.now) (open_text texts.new) result }
{
    MutableUtf8Array::whole(texts);
    MutableUtf8Array::whole(other);
    join_texts(texts, other)
}

/// Adds the byte strings of another builder behind the others.
fn extend_strings<O: Offset>(
    strings: &mut MutableBinaryArray<O>,
    other: &MutableBinaryArray<O>,
) -> Result<()>
    ensures { AddsColumn (open_binary strings.old) (open_binary other.now) (open_binary strings.new) result }
{
    MutableBinaryArray::whole(strings);
    MutableBinaryArray::whole(other);
    join_strings(strings, other)
}

/// Hands to a proof what holds of every such builder.
fn whole_strings(strings: &MutableFixedSizeBinaryArray)
    ensures some { 0 < byte_width strings.now.data_type }
    ensures counted { length strings.now.marks ≡ column_len (sized_column strings.now) }
    ensures sound { is_sound (sized_column strings.now) ≡ true }
{
    let _size = strings.size();
    let _count = strings.len();
    strings.whole();
}

/// Adds the lists of another builder behind the others.
fn extend_lists<O: Offset, M: TryExtendFromSelf>(
    lists: &mut MutableListArray<O, M>,
    other: &MutableListArray<O, M>,
) -> Result<()>
    ensures { AddsColumn (lists_column M.column lists.old) (lists_column M.column other.now) (lists_column M.column lists.new) result }
{
    lists.whole();
    other.whole();
    if !lists.is_closed() {
        return Err(Error::InvalidArgumentError("items that are of no list yet"));
    }
    if !other.is_closed() {
        return Err(Error::InvalidArgumentError("items that are of no list yet"));
    }
    let held = lists.len();
    match lists.try_extend_spans(other) {
        Ok(()) => join_items(lists, other.values(), held),
        Err(error) => Err(error),
    }
}

/// Adds items behind those of lists, or keeps the first lists alone.
fn join_items<O: Offset, M: TryExtendFromSelf>(
    lists: &mut MutableListArray<O, M>,
    items: &M,
    held: usize,
) -> Result<()>
    requires { held ≤ column_len (lists_column M.column lists.old) }
    ensures { JoinsItems M.column lists.old items.now held lists.new result }
{
    match extend_items(lists, items) {
        Ok(()) => Ok(()),
        Err(error) => {
            lists.truncate(held);
            Err(error)
        }
    }
}

/// Adds items behind those of lists, or leaves the items as they are.
fn extend_items<O: Offset, M: TryExtendFromSelf>(
    lists: &mut MutableListArray<O, M>,
    items: &M,
) -> Result<()>
    ensures { AddsItems M.column lists.old items.now lists.new result }
{
    lists.mut_values().try_extend_from_self(items)
}

/// Adds the lists of one size of another builder behind the others.
fn extend_fixed_lists<M: TryExtendFromSelf>(
    lists: &mut MutableFixedSizeListArray<M>,
    other: &MutableFixedSizeListArray<M>,
) -> Result<()>
    ensures { AddsColumn (fixed_lists_column M.column lists.old) (fixed_lists_column M.column other.now)
        (fixed_lists_column M.column lists.new) result }
{
    if !has_size_of(lists, other) {
        return Err(Error::InvalidArgumentError("lists of another size"));
    }
    if !has_items_of(lists, other) {
        return Err(Error::InvalidArgumentError("items of another type"));
    }
    if !lists.has_whole_lists() {
        return Err(Error::InvalidArgumentError("items that are of no list yet"));
    }
    let held = lists.len();
    match lists.try_extend_marks(other) {
        Ok(()) => join_fixed_items(lists, other.values(), held),
        Err(error) => Err(error),
    }
}

/// Whether the lists of another builder have the size of these.
fn has_size_of<M: MutableArray>(
    lists: &MutableFixedSizeListArray<M>,
    other: &MutableFixedSizeListArray<M>,
) -> bool
    ensures same { IsTrue result ↔ (size_of other.now.data_type ≡ size_of lists.now.data_type) }
    ensures some { 0 < size_of lists.now.data_type }
{
    other.size() == lists.size()
}

/// Whether the items of another builder are of the type of these.
fn has_items_of<M: MutableArray>(
    lists: &MutableFixedSizeListArray<M>,
    other: &MutableFixedSizeListArray<M>,
) -> bool
    ensures { IsTrue result ↔ (column_type (M.column other.now.values) ≡ column_type (M.column lists.now.values)) }
{
    *other.values().data_type() == *lists.values().data_type()
}

/// Adds items behind those of lists of one size, or keeps the first lists alone.
fn join_fixed_items<M: TryExtendFromSelf>(
    lists: &mut MutableFixedSizeListArray<M>,
    items: &M,
    held: usize,
) -> Result<()>
    requires { held ≤ column_len (fixed_lists_column M.column lists.old) }
    ensures { JoinsFixedItems M.column lists.old items.now held lists.new result }
{
    match extend_fixed_items(lists, items) {
        Ok(()) => Ok(()),
        Err(error) => {
            lists.truncate(held);
            Err(error)
        }
    }
}

/// Adds items behind those of lists of one size, or leaves the items as they are.
fn extend_fixed_items<M: TryExtendFromSelf>(
    lists: &mut MutableFixedSizeListArray<M>,
    items: &M,
) -> Result<()>
    ensures { AddsFixedItems M.column lists.old items.now lists.new result }
{
    lists.mut_values().try_extend_from_self(items)
}
