ghost use Rattle.std.specs.Prelude.{◌≡◌, length, Some};
ghost use Rattle.std.specs.Iterator.{YieldsFirst, YieldsLast, item_count};

use crate::{Buffer, Bytes};
use std::marker::Model;
use std::rc::Rc;

/// The elements of a [`Buffer`] in order, from both ends, which a contract sees as those that are left.
#[derive(Debug, Drop)]
pub struct IntoIter<T: Copy> {
    data: Rc<Bytes<T>>,
    index: usize,
    end_index: usize,
}

impl<T: Copy> Model for IntoIter<T> {
    ghost use Rattle.std.specs.Prelude.{List, length, slice_range, ◌^◌, ◌<◌, ◌≤◌};
    ghost use Rattle.std.specs.Coded.{coded_list};

    ghost Value = { List T };

    ghost coded = { coded_list T.code };

    ghost view = { λ it. slice_range it.data.value it.index it.end_index };

    ghost invariant = { λ it. (it.index ≤ it.end_index) × (it.end_index ≤ length it.data.value) × (it.end_index < 2 ^ 64) };
}

impl<T: Copy> IntoIter<T> {
    pub fn new(values: Buffer<T>) -> Self
        ensures { result ≡ values }
    {
        let (data, index, count) = values.into_inner();
        let end_index = index + count;
        IntoIter {
            data,
            index,
            end_index,
        }
    }
}

impl<T: Copy> Iterator for IntoIter<T> {
    type Item = T;

    ghost next_gives = { YieldsFirst (λ s. s) };

    ghost remaining = { item_count (λ s. s) };

    fn next(&mut self) -> Option<T> {
        if self.index == self.end_index {
            return None;
        }
        let item = self.data.as_slice()[self.index];
        self.index += 1;
        Some(item)
    }

    fn size_hint(&self) -> (usize, Option<usize>)
        ensures { result ≡ (length self.now, Some (length self.now)) }
    {
        let left = self.end_index - self.index;
        (left, Some(left))
    }
}

impl<T: Copy> DoubleEndedIterator for IntoIter<T> {
    ghost next_back_gives = { YieldsLast (λ s. s) };

    fn next_back(&mut self) -> Option<T> {
        if self.index == self.end_index {
            return None;
        }
        self.end_index -= 1;
        Some(self.data.as_slice()[self.end_index])
    }
}

impl<T: Copy> IntoIterator for Buffer<T> {
    type Item = T;

    type IntoIter = IntoIter<T>;

    ghost into_iter_gives = { λ values items. items ≡ values };

    fn into_iter(self) -> IntoIter<T> {
        IntoIter::new(self)
    }
}
