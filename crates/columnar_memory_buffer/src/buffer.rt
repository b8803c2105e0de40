ghost use Rattle.std.specs.Prelude.{◌≡◌, ◌+◌, ◌^◌, ◌<◌, ◌≤◌, [], length, ◌↔◌, IsTrue, MatchResult, IfSome};
ghost use Rattle.std.specs.Bool.{Decides};
ghost use Rattle.std.specs.Cmp.Lexicographic.{pointwise, lists_per, lists_equiv};
ghost use Rattle.std.specs.declared.alloc.Global.{Global};
ghost use Rattle.std.specs.declared.vec.Vec.{Vec};
ghost use Rattle.std.specs.Iterator.{IsFinite};
ghost use Rattle.std.specs.Iterator.Runs.{WholeRun};
ghost use Rattle.columnar_memory_native.specs.types.Error.{IsOutOfMemory};
ghost use Rattle.columnar_memory_buffer.specs.Window.{window};
ghost use Rattle.either.specs.Either.{MatchEither};

use crate::Bytes;
use columnar_memory_native::types::Result;
use either::Either;
use std::alloc::{AllocError, Global};
use std::marker::Model;
use std::rc::Rc;

/// A window on shared memory, which a contract sees as the list of its elements. A clone and a slice
/// share the memory.
#[derive(Debug, Drop)]
pub struct Buffer<T> {
    data: Rc<Bytes<T>>,
    offset: usize,
    count: usize,
}

impl<T> Model for Buffer<T> {
    ghost use Rattle.std.specs.Prelude.{List, length, ◌+◌, ◌^◌, ◌<◌, ◌≤◌};
    ghost use Rattle.columnar_memory_buffer.specs.Window.{window};
    ghost use Rattle.std.specs.Coded.{coded_list};

    ghost Value = { List T };

    ghost coded = { coded_list T.code };

    ghost view = { λ it. window it.data.value it.offset it.count };

    ghost invariant = { λ it. (it.offset + it.count ≤ length it.data.value) × (it.offset + it.count < 2 ^ 64) };
}

impl<T: Drop> Buffer<T> {
    /// No elements, in memory of its own.
    ///
    /// # Errors
    /// `OutOfMemory`: the count of owners found no memory.
    pub fn new(alloc: Global) -> Result<Self>
        ensures { MatchResult result (λ b. b ≡ []) IsOutOfMemory }
    {
        Buffer::from_vec(Vec::new(alloc))
    }

    /// The elements of a vector, with no copy of them.
    ///
    /// # Errors
    /// `OutOfMemory`: the count of owners found no memory.
    pub fn from_vec(vec: Vec<T>) -> Result<Self>
        ensures { MatchResult result (λ b. b ≡ vec.items) IsOutOfMemory }
    {
        let alloc = *vec.allocator();
        let count = vec.len();
        let data = Rc::new(alloc, Bytes::from_vec(vec))?;
        Ok(Buffer {
            data,
            offset: 0,
            count,
        })
    }
}

impl<T: Drop> Buffer<T> {
    /// The items of an iterator that ends, in order.
    ///
    /// # Errors
    /// `OutOfMemory`: the items or the count of owners found no memory.
    pub fn from_iter<I: Iterator<Item = T>>(alloc: Global, iter: I) -> Result<Self>
        requires can { I.can_next iter }
        requires ends { IsFinite (I.remaining iter) }
        ensures { MatchResult result (λ b. WholeRun I.next_gives iter (λ p. b ≡ p.items)) IsOutOfMemory }
    {
        let vec: Vec<T> = iter.collect(alloc)?;
        Buffer::from_vec(vec)
    }
}

impl<T> Buffer<T> {
    /// The allocator of the memory.
    pub fn allocator(&self) -> Global {
        self.data.allocator()
    }

    pub fn len(&self) -> usize
        ensures { result ≡ length self.now }
    {
        self.count
    }

    pub fn is_empty(&self) -> bool
        ensures { IsTrue result ↔ (self.now ≡ []) }
    {
        self.count == 0
    }

    /// Whether the window is less than its memory. No clause can say it, since a list has no memory.
    pub fn is_sliced(&self) -> bool {
        self.count != self.data.len()
    }

    /// The place of the window's first element in its memory. No clause can say it, since a list has no memory.
    pub fn offset(&self) -> usize {
        self.offset
    }

    pub fn as_slice(&self) -> &[T]
        ensures { result.now ≡ self.now }
    {
        &self.data.as_slice()[self.offset..self.offset + self.count]
    }

    /// Narrows the window to `count` elements from `offset` on, with no copy.
    pub fn slice(&mut self, offset: usize, count: usize)
        requires { offset + count ≤ length self.old }
        ensures { self.new ≡ window self.old offset count }
    {
        self.offset += offset;
        self.count = count;
    }

    /// The window on `count` elements from `offset` on, with no copy.
    pub fn sliced(self, offset: usize, count: usize) -> Self
        requires { offset + count ≤ length self }
        ensures { result ≡ window self offset count }
    {
        let mut window = self;
        window.slice(offset, count);
        window
    }

    /// The elements to change, on the right, where this is the one owner of its memory and a window on
    /// all of it; else this buffer, on the left. No memory is taken.
    pub fn into_mut(self) -> Either<Buffer<T>, Vec<T>>
        ensures { MatchEither result (λ b. b ≡ self) (λ v. v.items ≡ self) }
    {
        let Buffer {
            data,
            offset,
            count,
        } = self;
        if count != data.len() {
            return Either::Left(Buffer {
                data,
                offset,
                count,
            });
        }
        match Rc::try_unwrap(data) {
            Ok(bytes) => Either::Right(bytes.into_inner()),
            Err(data) => Either::Left(Buffer {
                data,
                offset,
                count,
            }),
        }
    }

    /// The elements to change, where this is the one owner of its memory; else nothing. Takes no memory.
    /// No clause says what the buffer holds once they are changed.
    pub fn get_mut_slice(&mut self) -> Option<&mut [T]>
        ensures { IfSome result (λ s. s.now ≡ self.old) }
    {
        let offset = self.offset;
        let count = self.count;
        let bytes = Rc::get_mut(&mut self.data)?;
        Some(&mut bytes.as_mut_slice()[offset..offset + count])
    }

    /// The shared memory, the place of the first element in it, and the number of elements.
    pub fn into_inner(self) -> (Rc<Bytes<T>>, usize, usize)
        ensures within { result.1 + result.2 ≤ length result.0.value }
        ensures fits { result.1 + result.2 < 2 ^ 64 }
        ensures window { self ≡ window result.0.value result.1 result.2 }
    {
        let Buffer {
            data,
            offset,
            count,
        } = self;
        (data, offset, count)
    }
}

impl<T: Copy + Drop> Buffer<T> {
    /// Replaces the elements by what a function makes of them: of the vector itself, with no copy and no memory taken, where this is the
    /// one owner of its memory and a window on all of it; else of a copy.
    ///
    /// # Errors
    /// `OutOfMemory`: the copy or its count of owners found no memory. The buffer is as it was.
    pub fn apply_mut<F: FnOnce(Vec<T>) -> Vec<T> + Drop>(&mut self, f: F) -> Result<()>
        requires { (elements : Vec T Global) → elements.items ≡ self.old → F.pre f elements }
        ensures { MatchResult result
            (λ _. (elements made : Vec T Global) × (elements.items ≡ self.old) × F.post f elements made × (self.new ≡ made.items))
            (λ e. IsOutOfMemory e × (self.new ≡ self.old)) }
    {
        if self.count == self.data.len() {
            if let Some(bytes) = Rc::get_mut(&mut self.data) {
                let made = f(bytes.take());
                self.count = made.len();
                *bytes = Bytes::from_vec(made);
                return Ok(());
            }
        }
        let copy = Vec::from_slice(self.allocator(), self.as_slice())?;
        *self = Buffer::from_vec(f(copy))?;
        Ok(())
    }
}

impl<T: PartialEq> PartialEq for Buffer<T> {
    ghost eq = { pointwise T.eq };

    ghost laws = { lists_per T.laws };

    fn eq(&self, other: &Self) -> bool
        ensures value { result ≡ pointwise T.eq self.now other.now }
        ensures exact { ((x y : T) → Decides (T.eq x y) (x ≡ y)) → (IsTrue result ↔ (self.now ≡ other.now)) }
    {
        self.as_slice() == other.as_slice()
    }
}

impl<T: Eq> Eq for Buffer<T> {
    ghost laws = { lists_equiv T.Eq.laws };
}

impl<T: Drop> Clone for Buffer<T> {
    ghost is_clone = { λ buffer copy. copy ≡ buffer };

    /// Shares the memory, and is refused only where the count of owners is at its greatest.
    fn clone(&self) -> std::result::Result<Self, AllocError> {
        Ok(Buffer {
            data: self.data.clone()?,
            offset: self.offset,
            count: self.count,
        })
    }
}
