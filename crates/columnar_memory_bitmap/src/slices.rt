ghost use Rattle.std.specs.Prelude.{◌≡◌, ◌-◌, length};
ghost use Rattle.std.specs.Iterator.{YieldsFirst, item_count};
ghost use Rattle.columnar_memory_bits.specs.Bits.{unset_count};
ghost use Rattle.columnar_memory_bitmap.specs.Runs.{HoldsBits, Passes};

use crate::Bitmap;
use crate::equal::equal_places;
use std::marker::Model;

/// A place among the bits of a bitmap, and a word that holds the `left` bits from there on, the first in its lowest bit.
#[derive(Clone, Copy)]
struct Cursor {
    place: usize,
    word: u64,
    left: usize,
}

/// The place behind the bits of one value that come next. Each word is loaded once.
#[inline(always)]
fn pass(values: &Bitmap, from: Cursor, value: bool) -> Cursor
    requires { HoldsBits values.now from.place from.word from.left }
    ensures holds { HoldsBits values.now result.place result.word result.left }
    ensures passed { Passes values.now value from.place result.place }
    ensures all { result.left ≡ 0 → result.place ≡ length values.now }
{
    let len = values.len();
    let mut place = from.place;
    let mut word = from.word;
    let mut left = from.left;
    'words: loop {
        let same = equal_places(word, value);
        if same < left {
            return Cursor {
                place: place + same,
                word: word >> same,
                left: left - same,
            };
        }
        place += left;
        left = (len - place).min(64);
        if left == 0 {
            return Cursor { place, word, left };
        }
        word = values.load(place, left);
    }
}

/// The maximal runs of bits that are set, in order, each as the place of its first bit and how many they are. A contract sees the bits, and
/// the place that the walk has come to. It goes by words, so 64 bits of one value are one step.
#[derive(Drop)]
pub struct SlicesIterator<'a> {
    values: &'a Bitmap,
    cursor: Cursor,
}

impl<'a> Model for SlicesIterator<'a> {
    ghost use Rattle.columnar_memory_bitmap.specs.Runs.{HoldsBits, Walk};

    ghost Value = { Walk };

    ghost view = { λ s. record { bits = s.values.now; place = s.cursor.place } };

    ghost invariant = { λ s. HoldsBits s.values.now s.cursor.place s.cursor.word s.cursor.left };
}

impl<'a> SlicesIterator<'a> {
    ghost use Rattle.std.specs.List.{sum_by};
    ghost use Rattle.columnar_memory_bitmap.specs.Runs.{AreRuns, runs_left, runs_of};

    /// All runs of a bitmap.
    #[tactic(auto, using(crate::proofs::RunLaws::run_laws))]
    pub fn new(values: &'a Bitmap) -> SlicesIterator<'a>
        ensures start { result ≡ record { bits = values.now; place = 0 } }
        ensures runs { AreRuns values.now (runs_left result) }
    {
        let cursor = Cursor {
            place: 0,
            word: 0,
            left: 0,
        };
        SlicesIterator { values, cursor }
    }

    /// How many bits the runs of the whole bitmap have.
    #[tactic(auto, using(crate::proofs::RunLaws::run_laws))]
    pub fn slots(&self) -> usize
        ensures set { result ≡ length self.now.bits - unset_count self.now.bits }
        ensures runs { result ≡ sum_by (λ run. run.1) (runs_of self.now.bits) }
    {
        self.values.len() - self.values.unset_bits()
    }
}

impl Iterator for SlicesIterator<'_> {
    ghost use Rattle.columnar_memory_bitmap.specs.Runs.{runs_left};

    type Item = (usize, usize);

    ghost next_gives = { YieldsFirst runs_left };

    ghost remaining = { item_count runs_left };

    fn next(&mut self) -> Option<(usize, usize)> {
        let begin = pass(self.values, self.cursor, false);
        if begin.left == 0 {
            self.cursor = begin;
            return None;
        }
        let end = pass(self.values, begin, true);
        self.cursor = end;
        Some((begin.place, end.place - begin.place))
    }
}
