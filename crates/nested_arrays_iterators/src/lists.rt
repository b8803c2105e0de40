//! Lists as arrays whose values are read by their places: the items of each, as a part of the child.
ghost use Rattle.std.specs.Prelude.{◌≡◌, ◌<◌, ◌≤◌, length};
ghost use Rattle.nested_arrays_core.specs.columnar_memory.Spans.{last_of};
ghost use Rattle.nested_arrays_core.specs.columns.StoredColumns.{column_len};
ghost use Rattle.nested_arrays_iterators.specs.ReadValues.{IsList, IsListBetween};

use crate::array_parts::ArrayPart;
use crate::values::{ArrayValues, Values};
use nested_arrays_core::ListArray;
use nested_arrays_core::arrays::{AnyArray, FixedSizeListArray, MapArray};
use nested_arrays_core::columnar_memory::{Offset, OffsetsBuffer};
use nested_arrays_core::flat::mark_at;
use nested_arrays_core::flat_arrays::ArrayValuesIter;

/// The items of lists, list by list.
pub type ListValuesIter<'a, O> = ArrayValuesIter<Values<&'a ListArray<O>>>;

/// The items of lists of one size, list by list.
pub type FixedSizeListValuesIter<'a> = ArrayValuesIter<Values<&'a FixedSizeListArray>>;

/// The entries of maps, map by map.
pub type MapValuesIter<'a> = ArrayValuesIter<Values<&'a MapArray>>;

/// The items of a list between its offsets.
fn items_between<'a, O: Offset>(
    items: &'a AnyArray,
    offsets: &OffsetsBuffer<O>,
    i: usize,
) -> ArrayPart<'a>
    requires within { i < length offsets.now.lengths }
    requires end { last_of offsets.now ≤ column_len items.now }
    ensures { IsListBetween offsets.now items.now i result }
{
    items.whole();
    let (start, stop) = offsets.start_end(i);
    ArrayPart::new(items, start, stop - start)
}

impl<'a, O: Offset> ArrayValues for &'a ListArray<O> {
    type Item = ArrayPart<'a>;

    ghost column = { λ array. array.now };

    ghost is_value = { IsList };

    fn count(self) -> usize {
        self.len()
    }

    fn has_value(self, i: usize) -> bool {
        self.is_valid(i)
    }

    fn value(self, i: usize) -> ArrayPart<'a> {
        self.whole();
        items_between(self.values(), self.offsets(), i)
    }
}

impl<'a> ArrayValues for &'a FixedSizeListArray {
    type Item = ArrayPart<'a>;

    ghost column = { λ array. array.now };

    ghost is_value = { IsList };

    fn count(self) -> usize {
        self.len()
    }

    fn has_value(self, i: usize) -> bool {
        self.whole();
        mark_at(self.validity(), i)
    }

    fn value(self, i: usize) -> ArrayPart<'a> {
        let items = self.values();
        items.whole();
        let _count = items.len();
        let size = self.size();
        ArrayPart::new(items, size * i, size)
    }
}

impl<'a> ArrayValues for &'a MapArray {
    type Item = ArrayPart<'a>;

    ghost column = { λ array. array.now };

    ghost is_value = { IsList };

    fn count(self) -> usize {
        self.len()
    }

    fn has_value(self, i: usize) -> bool {
        self.whole();
        mark_at(self.validity(), i)
    }

    fn value(self, i: usize) -> ArrayPart<'a> {
        self.whole();
        items_between(self.field(), self.offsets(), i)
    }
}
