//! Builders of byte strings and of texts, as builders of their columns.
ghost use Rattle.std.specs.Prelude.{◌≡◌, ◌≤◌, ◌<◌, not};
ghost use Rattle.nested_arrays_builders.specs.arrays.flat.FlatColumns.{binary_column, text_column};
ghost use Rattle.nested_arrays_builders.specs.flat_arrays.Growing.{first_slots, tidied};
ghost use Rattle.nested_arrays_builders.specs.columnar_memory.Results.{OrOutOfMemory};
ghost use Rattle.nested_arrays_builders.specs.columns.StoredColumns.{column_len};
ghost use Rattle.nested_arrays_builders.specs.generic.access.Nulls.{is_null_at};
ghost use Rattle.nested_arrays_builders.specs.values.ByteBuilders.{AddsByteNull, LeavesNoBytes, open_binary, open_text};
ghost use Rattle.nested_arrays_builder_arrays.specs.OpenColumns.{AddsNull, IsEmptied, KeepsFirst, TakesColumn};

use crate::mutable_array::MutableArray;
use nested_arrays_builders::arrays::AnyArray;
use nested_arrays_builders::arrays::parts::FlatArray;
use nested_arrays_builders::columnar_memory::{DataType, MutableBitmap, Offset, Result};
use nested_arrays_builders::flat_arrays::{
    BinaryArray, ByteBuilder, MutableBinaryArray, MutableUtf8Array, Utf8Array,
};
use nested_arrays_builders::values::{
    push_null_to_strings, push_null_to_texts, take_binary_array, take_text_array,
};
use std::alloc::Global;

/// Cuts keep a mask exactly where a slot is null. A contract sees the column with offsets from 0 on, whatever the builder began with.
impl MutableArray for MutableBinaryArray<i32> {
    ghost column = { open_binary };

    fn len(&self) -> usize {
        count_of(self)
    }

    fn data_type(&self) -> &DataType {
        ByteBuilder::data_type(self)
    }

    fn validity(&self) -> Option<&MutableBitmap> {
        ByteBuilder::validity(self)
    }

    fn is_valid(&self, i: usize) -> bool {
        has_value(self, i)
    }

    fn as_box(&mut self, alloc: Global) -> Result<AnyArray>
        ensures left { LeavesNoBytes self.old self.new }
        ensures column { TakesColumn (open_binary self.old) (open_binary self.new) (λ array. array) result }
    {
        let array = AnyArray::from(FlatArray::from(take_binary(alloc, self)?));
        array.whole();
        Ok(array)
    }

    fn push_null(&mut self) -> Result<()> {
        push_null_binary(self)
    }

    fn reserve(&mut self, additional: usize) -> Result<()> {
        MutableBinaryArray::reserve(self, additional, 0)
    }

    fn shrink_to_fit(&mut self) {
        MutableBinaryArray::shrink_to_fit(self);
    }

    fn truncate(&mut self, len: usize) {
        truncate_binary(self, len);
    }
}

/// Cuts keep a mask exactly where a slot is null. A contract sees the column with offsets from 0 on, whatever the builder began with.
impl MutableArray for MutableBinaryArray<i64> {
    ghost column = { open_binary };

    fn len(&self) -> usize {
        count_of(self)
    }

    fn data_type(&self) -> &DataType {
        ByteBuilder::data_type(self)
    }

    fn validity(&self) -> Option<&MutableBitmap> {
        ByteBuilder::validity(self)
    }

    fn is_valid(&self, i: usize) -> bool {
        has_value(self, i)
    }

    fn as_box(&mut self, alloc: Global) -> Result<AnyArray>
        ensures left { LeavesNoBytes self.old self.new }
        ensures column { TakesColumn (open_binary self.old) (open_binary self.new) (λ array. array) result }
    {
        let array = AnyArray::from(FlatArray::from(take_binary(alloc, self)?));
        array.whole();
        Ok(array)
    }

    fn push_null(&mut self) -> Result<()> {
        push_null_binary(self)
    }

    fn reserve(&mut self, additional: usize) -> Result<()> {
        MutableBinaryArray::reserve(self, additional, 0)
    }

    fn shrink_to_fit(&mut self) {
        MutableBinaryArray::shrink_to_fit(self);
    }

    fn truncate(&mut self, len: usize) {
        truncate_binary(self, len);
    }
}

/// Cuts keep a mask exactly where a slot is null. A contract sees the column with offsets from 0 on, whatever the builder began with.
impl MutableArray for MutableUtf8Array<i32> {
    ghost column = { open_text };

    fn len(&self) -> usize {
        count_of(self)
    }

    fn data_type(&self) -> &DataType {
        ByteBuilder::data_type(self)
    }

    fn validity(&self) -> Option<&MutableBitmap> {
        ByteBuilder::validity(self)
    }

    fn is_valid(&self, i: usize) -> bool {
        has_value(self, i)
    }

    fn as_box(&mut self, alloc: Global) -> Result<AnyArray>
        ensures left { LeavesNoBytes self.old self.new }
        ensures column { TakesColumn (open_text self.old) (open_text self.new) (λ array. array) result }
    {
        let array = AnyArray::from(FlatArray::from(take_text(alloc, self)?));
        array.whole();
        Ok(array)
    }

    fn push_null(&mut self) -> Result<()> {
        push_null_text(self)
    }

    fn reserve(&mut self, additional: usize) -> Result<()> {
        MutableUtf8Array::reserve(self, additional, 0)
    }

    fn shrink_to_fit(&mut self) {
        MutableUtf8Array::shrink_to_fit(self);
    }

    fn truncate(&mut self, len: usize) {
        truncate_text(self, len);
    }
}

/// Cuts keep a mask exactly where a slot is null. A contract sees the column with offsets from 0 on, whatever the builder began with.
impl MutableArray for MutableUtf8Array<i64> {
    ghost column = { open_text };

    fn len(&self) -> usize {
        count_of(self)
    }

    fn data_type(&self) -> &DataType {
        ByteBuilder::data_type(self)
    }

    fn validity(&self) -> Option<&MutableBitmap> {
        ByteBuilder::validity(self)
    }

    fn is_valid(&self, i: usize) -> bool {
        has_value(self, i)
    }

    fn as_box(&mut self, alloc: Global) -> Result<AnyArray>
        ensures left { LeavesNoBytes self.old self.new }
        ensures column { TakesColumn (open_text self.old) (open_text self.new) (λ array. array) result }
    {
        let array = AnyArray::from(FlatArray::from(take_text(alloc, self)?));
        array.whole();
        Ok(array)
    }

    fn push_null(&mut self) -> Result<()> {
        push_null_text(self)
    }

    fn reserve(&mut self, additional: usize) -> Result<()> {
        MutableUtf8Array::reserve(self, additional, 0)
    }

    fn shrink_to_fit(&mut self) {
        MutableUtf8Array::shrink_to_fit(self);
    }

    fn truncate(&mut self, len: usize) {
        truncate_text(self, len);
    }
}

/// How many slots there are.
fn count_of<O: Offset>(builder: &ByteBuilder<O>) -> usize
    ensures binary { result ≡ column_len (open_binary builder.now) }
    ensures text { result ≡ column_len (open_text builder.now) }
{
    builder.len()
}

/// Whether the slot at a place has a value.
fn has_value<O: Offset>(builder: &ByteBuilder<O>, i: usize) -> bool
    requires { i < column_len (open_binary builder.now) }
    ensures binary { result ≡ not (is_null_at (open_binary builder.now) i) }
    ensures text { result ≡ not (is_null_at (open_text builder.now) i) }
{
    builder.is_valid(i)
}

/// Pushes a null.
fn push_null_binary<O: Offset>(strings: &mut MutableBinaryArray<O>) -> Result<()>
    ensures slot { AddsByteNull strings.old strings.new result }
    ensures column { AddsNull (open_binary strings.old) (open_binary strings.new) result }
{
    strings.whole();
    push_null_to_strings(strings)
}

/// Keeps the first slots alone.
fn truncate_binary<O: Offset>(strings: &mut MutableBinaryArray<O>, len: usize)
    requires { len ≤ column_len (open_binary strings.old) }
    ensures slots { strings.new ≡ tidied (first_slots strings.old len) }
    ensures column { KeepsFirst (open_binary strings.old) len (open_binary strings.new) }
{
    strings.whole();
    strings.truncate(len);
}

/// The array of the slots; the builder is left empty.
fn take_binary<O: Offset>(
    alloc: Global,
    strings: &mut MutableBinaryArray<O>,
) -> Result<BinaryArray<O>>
    ensures left { LeavesNoBytes strings.old strings.new }
    ensures emptied { IsEmptied (open_binary strings.old) (open_binary strings.new) }
    ensures taken { OrOutOfMemory result (λ array. binary_column array ≡ open_binary strings.old) }
{
    strings.whole();
    take_binary_array(alloc, strings)
}

/// Pushes a null.
fn push_null_text<O: Offset>(texts: &mut MutableUtf8Array<O>) -> Result<()>
    ensures slot { AddsByteNull texts.old texts.new result }
    ensures column { AddsNull (open_text texts.old) (open_text texts.new) result }
{
    texts.whole();
    push_null_to_texts(texts)
}

/// Keeps the first slots alone.
fn truncate_text<O: Offset>(texts: &mut MutableUtf8Array<O>, len: usize)
    requires { len ≤ column_len (open_text texts.old) }
    ensures slots { texts.new ≡ tidied (first_slots texts.old len) }
    ensures column { KeepsFirst (open_text texts.old) len (open_text texts.new) }
{
    texts.whole();
    texts.truncate(len);
}

/// The array of the slots; the builder is left empty.
fn take_text<O: Offset>(alloc: Global, texts: &mut MutableUtf8Array<O>) -> Result<Utf8Array<O>>
    ensures left { LeavesNoBytes texts.old texts.new }
    ensures emptied { IsEmptied (open_text texts.old) (open_text texts.new) }
    ensures taken { OrOutOfMemory result (λ array. text_column array ≡ open_text texts.old) }
{
    texts.whole();
    take_text_array(alloc, texts)
}
