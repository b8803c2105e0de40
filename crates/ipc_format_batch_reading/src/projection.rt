//! Columns that are asked for in any order: they are read in the order in which they stand, and then put where they were asked for.
ghost use Rattle.std.specs.Prelude.{◌≡◌, ◌+◌, IfOk, Some, length, slice_get, true};
ghost use Rattle.std.specs.List.{Contains, range_with_len};
ghost use Rattle.std.specs.List.Sorted.{IsNonDecreasing, IsPermutation};
ghost use Rattle.ipc_format_reading.specs.columns.Tables.{chosen};
ghost use Rattle.ipc_format_batch_reading.specs.Projections.{ChoicesArePutBack, IsBehind, IsPrepared, SelectsNext};
ghost use Rattle.ipc_format_batch_reading.specs.Projections.{are_below, are_distinct, fits_map, is_choice, put_back, rise_from};

use ipc_format_reading::Chunk;
use ipc_format_reading::columnar_memory::Field;
use ipc_format_reading::nested_arrays_core::AnyArray;
use std::alloc::{AllocError, Global};
use std::collections::BTreeMap;
use std::marker::Model;

/// Whether no column is named twice. No memory is taken.
fn distinct(columns: &[usize]) -> bool
    ensures { result ≡ are_distinct columns.now }
{
    let mut rest = columns;
    while let [first, others @ ..] = rest {
        if others.contains(first) {
            return false;
        }
        rest = others;
    }
    true
}

/// Whether each column is below a width.
fn are_all_below(columns: &[usize], width: usize) -> bool
    ensures { result ≡ are_below width columns.now }
{
    columns.iter().all(|column| *column < width)
}

/// Whether columns may be asked for of `width` of them: each is one of these, by its place from 0 on, and none is named twice. Their order is
/// free, and to ask for none is a choice too. No memory is taken.
pub fn is_choice(columns: &[usize], width: usize) -> bool
    ensures { result ≡ is_choice width columns.now }
{
    distinct(columns) && are_all_below(columns, width)
}

/// The columns in the order in which they stand.
fn rising_of(alloc: Global, columns: &[usize]) -> Result<Vec<usize>, AllocError>
    ensures same { IfOk result (λ rising. IsPermutation columns.now rising.items) }
    ensures sorted { IfOk result (λ rising. IsNonDecreasing rising.items) }
{
    let mut rising = Vec::from_slice(alloc, columns)?;
    rising.sort_unstable();
    Ok(rising)
}

/// The place of a column among columns that rise.
fn place_of(rising: &[usize], column: usize) -> usize
    requires sorted { IsNonDecreasing rising.now }
    requires found { Contains rising.now column }
    ensures { slice_get rising.now result ≡ Some column }
{
    match rising.binary_search(&column) {
        Ok(place) => place,
        Err(_) => unreachable!(),
    }
}

/// For each place among columns that rise, the place at which its column was asked for.
fn places_of(
    alloc: Global,
    rising: &[usize],
    columns: &[usize],
) -> Result<BTreeMap<usize, usize>, AllocError>
    requires sorted { IsNonDecreasing rising.now }
    requires same { IsPermutation columns.now rising.now }
    requires distinct { are_distinct columns.now ≡ true }
    ensures back { IfOk result (λ places. put_back places.entries rising.now ≡ columns.now) }
    ensures fit { IfOk result (λ places. fits_map (length columns.now) places.entries ≡ true) }
{
    let mut places = BTreeMap::new(alloc);
    for (asked, column) in columns.iter().enumerate() {
        places.insert(place_of(rising, *column), asked)?;
    }
    Ok(places)
}

/// The fields of columns, in the order of these.
fn fields_of(alloc: Global, fields: &[Field], columns: &[usize]) -> Result<Vec<Field>, AllocError>
    requires { are_below (length fields.now) columns.now ≡ true }
    ensures { IfOk result (λ asked. asked.items ≡ chosen columns.now fields.now) }
{
    let mut asked = Vec::new(alloc);
    for column in columns {
        asked.push(fields[*column].clone()?)?;
    }
    Ok(asked)
}

/// Prepares to read columns that are asked for in any order, none of them twice, each by its place among the fields (`is_choice` tests it). Gives
/// these columns in the order in which they stand, as `read_record_batch` takes them; for each place among them the place at which its column
/// was asked for, as `apply_projection` takes it; and the fields in the asked order (Arrow IPC, "RecordBatch message").
///
/// # Errors
/// There was no memory.
pub fn prepare_projection(
    alloc: Global,
    fields: &[Field],
    projection: Vec<usize>,
) -> Result<(Vec<usize>, BTreeMap<usize, usize>, Vec<Field>), AllocError>
    requires { is_choice (length fields.now) projection.items ≡ true }
    ensures { IfOk result (IsPrepared fields.now projection.items) }
{
    let columns = projection.as_slice();
    let rising = rising_of(alloc, columns)?;
    let places = places_of(alloc, rising.as_slice(), columns)?;
    let asked = fields_of(alloc, fields, columns)?;
    Ok((rising, places, asked))
}

/// For each of `count` places, the place whose item comes to stand there by a map.
fn sources_of(
    alloc: Global,
    count: usize,
    map: &BTreeMap<usize, usize>,
) -> Result<Vec<usize>, AllocError>
    requires { fits_map count map.now.entries ≡ true }
    ensures { IfOk result (λ sources. sources.items ≡ put_back map.now.entries (range_with_len 0 count)) }
{
    let mut sources = Vec::with_capacity(alloc, count)?;
    for place in 0..count {
        sources.push(place)?;
    }
    for (old, new) in map {
        sources[*new] = *old;
    }
    Ok(sources)
}

/// The arrays at some places, in the order of these. No cell is copied.
fn arrays_of(alloc: Global, all: &[AnyArray], places: &[usize]) -> Result<Vec<AnyArray>, AllocError>
    requires { are_below (length all.now) places.now ≡ true }
    ensures { IfOk result (λ arrays. arrays.items ≡ chosen places.now all.now) }
{
    let mut arrays = Vec::with_capacity(alloc, places.len())?;
    for place in places {
        arrays.push(all[*place].clone()?)?;
    }
    Ok(arrays)
}

/// Puts the columns of a chunk where they were asked for: for each entry (old, new) of the map, in its order, the column that stood at `old` now
/// stands at `new`, and where no entry has a place as its new one the column stays. Each place of the map is one of the chunk's columns. No cell
/// is copied.
///
/// # Errors
/// There was no memory.
pub fn apply_projection(
    alloc: Global,
    chunk: Chunk<AnyArray>,
    map: &BTreeMap<usize, usize>,
) -> Result<Chunk<AnyArray>, AllocError>
    requires { fits_map (length chunk) map.now.entries ≡ true }
    ensures { IfOk result (λ ordered. ordered ≡ put_back map.now.entries chunk) }
{
    chunk.whole();
    let all = chunk.arrays();
    let sources = sources_of(alloc, all.len(), map)?;
    let ordered = arrays_of(alloc, all, sources.as_slice())?;
    Ok(Chunk::new(ordered))
}

/// An item of an iterator, by whether its place is one that was asked for.
#[derive(Debug, Clone, Copy, PartialEq, Eq, Hash)]
pub enum ProjectionResult<A> {
    /// Its place was asked for.
    Selected(A),
    /// Its place was not.
    NotSelected(A),
}

/// The items of an iterator, each with whether its place is one of a projection's, which rise. It is seen as how many items stand before each
/// one that is still to be selected, and the iterator.
#[derive(Drop)]
pub struct ProjectionIter<'a, A, I: Iterator<Item = A>> {
    projection: &'a [usize],
    iter: I,
    place: usize,
}

impl<'a, A, I: Iterator<Item = A>> Model for ProjectionIter<'a, A, I> {
    ghost use Rattle.std.specs.Prelude.{◌≡◌, ℕ, List, true};
    ghost use Rattle.ipc_format_batch_reading.specs.Projections.{counted_from, rise_from};

    ghost Value = { List ℕ × I };

    ghost view = { λ it. (counted_from it.place it.projection.now, it.iter) };

    ghost invariant = { λ it. rise_from it.place it.projection.now ≡ true };
}

impl<'a, A, I: Iterator<Item = A>> ProjectionIter<'a, A, I> {
    /// The items of an iterator, of which those at the places of a projection are selected. The places rise (`rises` tests it), and there may be
    /// none.
    pub fn new(projection: &'a [usize], iter: I) -> Self
        requires { rise_from 0 projection.now ≡ true }
        ensures { result ≡ (projection.now, iter) }
    {
        ProjectionIter {
            projection,
            iter,
            place: 0,
        }
    }
}

/// Whether places rise, each above the one before it: the condition of `ProjectionIter::new`.
pub fn rises(places: &[usize]) -> bool
    ensures { result ≡ rise_from 0 places.now }
{
    let mut least: u128 = 0;
    for k in 0..places.len() {
        let place = places[k] as u128;
        if place < least {
            return false;
        }
        least = place + 1;
    }
    true
}

/// Whether a place is the first of some that rise, which of them stand behind it, and the next place.
fn behind<'a>(projection: &'a [usize], place: usize) -> (bool, &'a [usize], usize)
    requires { rise_from place projection.now ≡ true }
    ensures { IsBehind place projection.now result.0 result.1.now result.2 }
{
    let next = place.saturating_add(1);
    if let [first, others @ ..] = projection {
        if *first == place {
            return (true, others, next);
        }
    }
    (false, projection, next)
}

impl<'a, A, I: Iterator<Item = A>> Iterator for ProjectionIter<'a, A, I> {
    type Item = ProjectionResult<A>;

    ghost can_next = { λ s. I.can_next s.1 };

    ghost next_gives = { SelectsNext I.next_gives };

    ghost remaining = { λ s. I.remaining s.1 };

    fn next(&mut self) -> Option<ProjectionResult<A>> {
        let item = self.iter.next()?;
        let (selected, left, place) = behind(self.projection, self.place);
        self.projection = left;
        self.place = place;
        if selected {
            return Some(ProjectionResult::Selected(item));
        }
        Some(ProjectionResult::NotSelected(item))
    }

    fn size_hint(&self) -> (usize, Option<usize>) {
        self.iter.size_hint()
    }
}

/// What is read of columns in the order in which they stand, and then put where they were asked for, is what is read of them in the asked order;
/// where nothing is read of the one, nothing is of the other (Arrow IPC, "RecordBatch message").
pub fn choices_are_put_back()
    ensures { ChoicesArePutBack }
{}
