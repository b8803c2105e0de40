//! Cells one after another, found by their hashes.
ghost use Rattle.std.specs.Prelude.{◌≡◌, ◌≤◌, ◌++◌, ◌∷◌, [], length, map, take, OnOk, OnErr};
ghost use Rattle.nested_arrays_builder_parts.specs.Scalars.{scalar_slot};
ghost use Rattle.nested_arrays_builder_values.specs.Found.{IsPlaceOf, IsSlotAt};
ghost use Rattle.nested_arrays_builder_values.specs.Hashes.{cell_hash};

use crate::cells::{copy_of_cell, same_cell};
use crate::hashes::hash_of;
use crate::places::Places;
use nested_arrays_scalars::AnyScalar;
use std::alloc::{AllocError, Global};
use std::marker::Model;

/// Cells one after another, each found by what it is. A contract sees the slots that they become.
#[derive(Drop)]
pub struct CellMap {
    cells: Vec<AnyScalar>,
    places: Places,
}

impl Model for CellMap {
    ghost use Rattle.std.specs.Prelude.{◌≡◌, List, map};
    ghost use Rattle.std.specs.Coded.{coded_list};
    ghost use Rattle.nested_arrays_builder_parts.specs.arrays.columns.SlotCodes.{slot_code};
    ghost use Rattle.nested_arrays_builder_parts.specs.arrays.columns.Slots.{Slot};
    ghost use Rattle.nested_arrays_builder_parts.specs.Scalars.{scalar_slot};
    ghost use Rattle.nested_arrays_builder_values.specs.Hashes.{cell_hash};

    ghost Value = { List Slot };

    ghost coded = { coded_list slot_code };

    ghost view = { λ it. map scalar_slot it.cells.items };

    ghost invariant = { λ it. it.places ≡ map cell_hash it.cells.items };
}

impl CellMap {
    /// No cells, which take no memory.
    pub fn new(alloc: Global) -> Self
        ensures { result ≡ [] }
    {
        CellMap {
            cells: Vec::new(alloc),
            places: Places::new(alloc),
        }
    }

    /// How many cells there are.
    pub fn len(&self) -> usize
        ensures { result ≡ length self.now }
    {
        self.cells.len()
    }

    /// The place of a cell, if it is one of these.
    pub fn find(&self, cell: &AnyScalar) -> Option<usize>
        ensures { IsSlotAt self.now (scalar_slot cell.now) result }
    {
        place_of(self.cells.as_slice(), &self.places, cell)
    }

    /// Adds a copy of a cell behind the others. An error is for want of memory, and changes nothing.
    pub fn push(&mut self, cell: &AnyScalar) -> Result<(), AllocError>
        ensures ok { OnOk result (self.new ≡ self.old ++ scalar_slot cell.now ∷ []) }
        ensures err { OnErr result (self.new ≡ self.old) }
    {
        push_cell(&mut self.cells, &mut self.places, cell)
    }

    /// Keeps the first `len` cells alone.
    pub fn truncate(&mut self, len: usize)
        requires { len ≤ length self.old }
        ensures { self.new ≡ take len self.old }
    {
        self.cells.truncate(len);
        self.places.truncate(len);
    }
}

/// The place of a cell among others whose hashes have these places.
fn place_of(cells: &[AnyScalar], places: &Places, cell: &AnyScalar) -> Option<usize>
    requires { places.now ≡ map cell_hash cells.now }
    ensures { IsPlaceOf cells.now cell.now result }
{
    let hash = hash_of(cell);
    let mut place = places.newest(hash);
    'walk: while place != 0 {
        if same_cell(&cells[place - 1], cell) {
            return Some(place - 1);
        }
        place = places.older(place - 1);
    }
    None
}

/// Adds a copy of a cell and its hash, or changes nothing.
fn push_cell(
    cells: &mut Vec<AnyScalar>,
    places: &mut Places,
    cell: &AnyScalar,
) -> Result<(), AllocError>
    ensures cells { OnOk result (cells.new.items ≡ cells.old.items ++ cell.now ∷ []) }
    ensures places { OnOk result (places.new ≡ places.old ++ cell_hash cell.now ∷ []) }
    ensures same_cells { OnErr result (cells.new.items ≡ cells.old.items) }
    ensures same_places { OnErr result (places.new ≡ places.old) }
{
    let alloc = *cells.allocator();
    let copied = copy_of_cell(cell)?;
    let hash = hash_of(cell);
    cells.push(copied)?;
    match places.push(alloc, hash) {
        Ok(()) => Ok(()),
        Err(error) => {
            drop(cells.pop());
            Err(error)
        }
    }
}
