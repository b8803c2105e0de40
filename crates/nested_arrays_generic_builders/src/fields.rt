//! The builders of the fields of structs.
ghost use Rattle.std.specs.Prelude.{◌≡◌, ◌<◌, ◌≤◌, ◌++◌, drop, length, map, slice_get, take, Some, true, IfErr, OnOk};
ghost use Rattle.std.specs.Borrow.{sem};
ghost use Rattle.std.specs.List.{list_all};
ghost use Rattle.nested_arrays_nulls.specs.arrays.Lengths.{struct_len};
ghost use Rattle.nested_arrays_nulls.specs.columnar_memory.Error.{IsOutOfMemory};
ghost use Rattle.nested_arrays_nulls.specs.columnar_memory.Results.{OrOutOfMemory};
ghost use Rattle.nested_arrays_nulls.specs.columns.Kinds.{most_slots};
ghost use Rattle.nested_arrays_nulls.specs.columns.SoundColumns.{has_field_types, have_len, have_types};
ghost use Rattle.nested_arrays_nulls.specs.columns.StoredColumns.{type_layer};
ghost use Rattle.nested_arrays_cells.specs.parts.Open.{column_of, first_slots};
ghost use Rattle.nested_arrays_generic_builders.specs.FieldLoans.{LendsField};
ghost use Rattle.nested_arrays_generic_builders.specs.StructBuilders.{emptied, field_columns, is_stored, TakeNulls, TakesNull};
ghost use Rattle.nested_arrays_generic_builders.specs.TakenBack.{without_last, HaveOneMore};

use nested_arrays_cells::builders::AnyMutableArray;
use nested_arrays_cells::taken::MutableArray;
use nested_arrays_nulls::arrays::AnyArray;
use nested_arrays_nulls::columnar_memory::{DataType, Field, Result};
use std::alloc::Global;
use std::marker::Model;

/// Builders of any type, one for each field of structs. A contract sees the list of their open columns.
#[derive(Drop)]
pub struct MutableFields {
    builders: Vec<AnyMutableArray>,
}

impl Model for MutableFields {
    ghost use Rattle.std.specs.Prelude.{List};
    ghost use Rattle.std.specs.Coded.{coded_list};
    ghost use Rattle.nested_arrays_cells.specs.parts.Open.{Open, open_code};

    ghost Value = { List Open };

    ghost coded = { coded_list open_code };

    ghost view = { λ it. it.builders.items };
}

impl MutableFields {
    /// Takes builders over as they are.
    pub fn from_vec(builders: Vec<AnyMutableArray>) -> Self
        ensures { result ≡ builders.items }
    {
        MutableFields { builders }
    }

    /// The builders, with no copy.
    pub fn into_inner(self) -> Vec<AnyMutableArray>
        ensures { result.items ≡ self }
    {
        let MutableFields { builders } = self;
        builders
    }

    pub fn as_slice(&self) -> &[AnyMutableArray]
        ensures { result.now ≡ self.now }
    {
        self.builders.as_slice()
    }

    /// How many fields there are.
    pub fn len(&self) -> usize
        ensures { result ≡ length self.now }
    {
        self.builders.len()
    }

    /// The builder of the field at a place, to push to.
    pub fn value(&mut self, i: usize) -> &mut AnyMutableArray
        requires { i < length self.old }
        ensures* lent { sem 𝓛 (LendsField self.entry i result) }
        ensures shown { slice_get self.old i ≡ Some result.now }
    {
        &mut self.builders[i]
    }

    /// Pushes a null to each, or changes nothing.
    pub(crate) fn push_nulls(&mut self) -> Result<()>
        ensures { TakeNulls self.old self.new result }
    {
        push_nulls(&mut self.builders)
    }

    /// Keeps the first `len` slots of each alone.
    pub(crate) fn truncate(&mut self, len: usize)
        ensures { self.new ≡ map (λ o. first_slots o len) self.old }
    {
        truncate_each(&mut self.builders, len);
    }

    /// The arrays of the slots of each; all are left empty.
    pub(crate) fn take(&mut self, alloc: Global) -> Result<Vec<AnyArray>>
        ensures left { self.new ≡ map emptied self.old }
        ensures arrays { OrOutOfMemory result (λ arrays. arrays.items ≡ map column_of self.old) }
    {
        take_each(alloc, &mut self.builders)
    }

    /// Makes room for some more slots of each.
    pub(crate) fn reserve(&mut self, additional: usize) -> Result<()>
        ensures same { self.new ≡ self.old }
        ensures error { IfErr result IsOutOfMemory }
    {
        reserve_each(&mut self.builders, additional)
    }

    /// Gives back memory that no slot of any needs.
    pub(crate) fn shrink_to_fit(&mut self)
        ensures { self.new ≡ self.old }
    {
        shrink_each(&mut self.builders);
    }
}

/// Hands to a proof that the slots of each builder fit.
pub(crate) fn are_whole(builders: &[AnyMutableArray])
    ensures { list_all is_stored builders.now ≡ true }
{
    match builders.split_first() {
        None => {}
        Some((builder, builders)) => {
            builder.whole();
            are_whole(builders);
        }
    }
}

/// How many slots the first of some builders has.
#[tactic(auto, using(crate::proofs::StructMakes::few_slots))]
pub(crate) fn first_len(builders: &[AnyMutableArray]) -> usize
    ensures value { result ≡ struct_len (map column_of builders.now) }
    ensures within { result ≤ most_slots }
{
    match builders.split_first() {
        Some((builder, _)) => {
            builder.whole();
            MutableArray::len(builder)
        }
        None => 0,
    }
}

/// Whether builders have the types of fields, one each.
fn have_types(fields: &[Field], builders: &[AnyMutableArray]) -> bool
    ensures { result ≡ have_types fields.now (field_columns builders.now) }
{
    match (fields.split_first(), builders.split_first()) {
        (None, None) => true,
        (Some((field, fields)), Some((builder, builders))) => field.data_type
            == *MutableArray::data_type(builder)
            && have_types(fields, builders),
        _ => false,
    }
}

/// Whether builders are those of the fields of a struct of a data type.
pub(crate) fn are_fields_of(data_type: &DataType, builders: &[AnyMutableArray]) -> bool
    ensures { result ≡ has_field_types (type_layer data_type.now) (field_columns builders.now) }
{
    match data_type.to_logical_type() {
        DataType::Struct(fields) => !fields.is_empty() && have_types(fields.as_slice(), builders),
        _ => false,
    }
}

/// Whether each builder has so many slots.
pub(crate) fn have_len(builders: &[AnyMutableArray], length: usize) -> bool
    ensures { result ≡ have_len (field_columns builders.now) length }
{
    match builders.split_first() {
        None => true,
        Some((builder, builders)) => MutableArray::len(builder) == length
            && have_len(builders, length),
    }
}

/// Pushes a null, or changes nothing.
#[tactic(auto, using(crate::proofs::FieldLoops::null_taken))]
fn push_null(builder: &mut AnyMutableArray) -> Result<()>
    ensures { TakesNull builder.old builder.new result }
{
    AnyMutableArray::push_null(builder)
}

/// Pushes a null to each builder, or changes nothing.
fn push_nulls(builders: &mut Vec<AnyMutableArray>) -> Result<()>
    ensures { TakeNulls builders.old.items builders.new.items result }
{
    let count = builders.len();
    for place in 0..count {
        match push_null(&mut builders[place]) {
            Ok(()) => {}
            Err(error) => {
                take_back(builders, place);
                return Err(error);
            }
        }
    }
    Ok(())
}

/// Takes the last slot off the first builders.
fn take_back(builders: &mut Vec<AnyMutableArray>, count: usize)
    requires { HaveOneMore count builders.old.items }
    ensures { builders.new.items ≡ map without_last (take count builders.old.items) ++ drop count builders.old.items }
{
    for place in 0..count {
        drop_last(&mut builders[place]);
    }
}

/// Takes the last slot off.
fn drop_last(builder: &mut AnyMutableArray)
    requires { 0 < length builder.old.slots }
    ensures { builder.new ≡ without_last builder.old }
{
    let held = AnyMutableArray::len(builder);
    AnyMutableArray::truncate(builder, held - 1);
}

/// Keeps the first `len` slots alone, where there are more.
fn truncate_one(builder: &mut AnyMutableArray, len: usize)
    ensures { builder.new ≡ first_slots builder.old len }
{
    if len < AnyMutableArray::len(builder) {
        AnyMutableArray::truncate(builder, len);
    }
}

/// Keeps the first `len` slots of each alone.
fn truncate_each(builders: &mut Vec<AnyMutableArray>, len: usize)
    ensures { builders.new.items ≡ map (λ o. first_slots o len) builders.old.items }
{
    for builder in builders.iter_mut() {
        truncate_one(builder, len);
    }
}

/// Takes out the arrays of the slots of each, up to the first for which memory runs out.
fn take_first(
    alloc: Global,
    builders: &mut Vec<AnyMutableArray>,
    arrays: &mut Vec<AnyArray>,
) -> Result<()>
    ensures left { map emptied builders.new.items ≡ map emptied builders.old.items }
    ensures taken { OnOk result (arrays.new.items ≡ arrays.old.items ++ map column_of builders.old.items) }
    ensures error { IfErr result IsOutOfMemory }
{
    let count = builders.len();
    for place in 0..count {
        let array = MutableArray::as_box(&mut builders[place], alloc)?;
        arrays.push(array)?;
    }
    Ok(())
}

/// The arrays of the slots of each; all are left empty.
fn take_each(alloc: Global, builders: &mut Vec<AnyMutableArray>) -> Result<Vec<AnyArray>>
    ensures left { builders.new.items ≡ map emptied builders.old.items }
    ensures arrays { OrOutOfMemory result (λ arrays. arrays.items ≡ map column_of builders.old.items) }
{
    let mut arrays = Vec::new(alloc);
    let taken = take_first(alloc, builders, &mut arrays);
    truncate_each(builders, 0);
    match taken {
        Ok(()) => Ok(arrays),
        Err(error) => {
            drop(arrays);
            Err(error)
        }
    }
}

/// Makes room for some more slots of each.
fn reserve_each(builders: &mut Vec<AnyMutableArray>, additional: usize) -> Result<()>
    ensures same { builders.new.items ≡ builders.old.items }
    ensures error { IfErr result IsOutOfMemory }
{
    for builder in builders.iter_mut() {
        AnyMutableArray::reserve(builder, additional)?;
    }
    Ok(())
}

/// Gives back memory that no slot of any needs.
fn shrink_each(builders: &mut Vec<AnyMutableArray>)
    ensures { builders.new.items ≡ builders.old.items }
{
    for builder in builders.iter_mut() {
        AnyMutableArray::shrink_to_fit(builder);
    }
}
