ghost use Rattle.std.specs.Prelude.{◌≡◌, ◌+◌, ◌<◌, ◌^◌, [], ◌∷◌, ◌++◌};
ghost use Rattle.columnar_memory_bits.specs.Words.{word_bits};
ghost use Rattle.columnar_memory_bitmap.specs.Results.{Grows, OrOutOfMemory};

use crate::MutableBitmap;
use columnar_memory_types::Result;
use std::alloc::Global;
use std::marker::Model;

/// Bits that come one by one, which a contract sees as their list. They go into a bitmap a word at a time, so that most pushes touch no memory.
///
/// A call that grows it and finds no memory answers `OutOfMemory` and changes nothing.
#[derive(Drop)]
pub struct BitGatherer {
    // whole words, and behind them the first `count` bits of a word whose further bits are zeros
    bitmap: MutableBitmap,
    word: u64,
    count: usize,
}

impl Model for BitGatherer {
    ghost use Rattle.std.specs.Prelude.{◌≡◌, ◌++◌, ◌%◌, ◌^◌, ◌<◌, List, Bool, length};
    ghost use Rattle.columnar_memory_bits.specs.Words.{word_bits};

    ghost Value = { List Bool };

    ghost view = { λ g. g.bitmap ++ word_bits g.count g.word };

    ghost invariant = { λ g. (length g.bitmap % 64 ≡ 0) × (g.count < 64) × (g.word < 2 ^ g.count) };
}

impl BitGatherer {
    /// No bits, which takes no memory.
    #[tactic(auto, using(crate::proofs::Lists::windows))]
    pub fn new(alloc: Global) -> BitGatherer
        ensures { result ≡ [] }
    {
        BitGatherer {
            bitmap: MutableBitmap::new(alloc),
            word: 0,
            count: 0,
        }
    }

    /// Makes room for some more bits.
    ///
    /// # Errors
    /// `OutOfMemory`: the room found no memory.
    pub fn reserve(&mut self, additional: usize) -> Result<()>
        ensures { Grows result self.old self.new self.old }
    {
        self.bitmap.reserve(additional)
    }

    /// Adds a bit at the end.
    ///
    /// # Errors
    /// `OutOfMemory`: the growth found no memory.
    #[inline(always)]
    pub fn push(&mut self, bit: bool) -> Result<()>
        ensures { Grows result self.old self.new (self.old ++ bit ∷ []) }
    {
        let word = with_bit(self.word, self.count, bit);
        if self.count < 63 {
            self.word = word;
            self.count += 1;
            return Ok(());
        }
        self.bitmap.extend_word(word, 64)?;
        self.word = 0;
        self.count = 0;
        Ok(())
    }

    /// The bits as a bitmap.
    ///
    /// # Errors
    /// `OutOfMemory`: the growth found no memory.
    pub fn finish(self) -> Result<MutableBitmap>
        ensures { OrOutOfMemory result (λ bitmap. bitmap ≡ self) }
    {
        let BitGatherer {
            bitmap,
            word,
            count,
        } = self;
        let mut bitmap = bitmap;
        bitmap.extend_word(word, count)?;
        Ok(bitmap)
    }
}

/// A word of some bits, the first in its lowest bit, with one more bit behind them.
pub(crate) fn with_bit(word: u64, count: usize, value: bool) -> u64
    requires few { count < 64 }
    requires small { word < 2 ^ count }
    ensures small { result < 2 ^ (count + 1) }
    ensures bits { word_bits (count + 1) result ≡ word_bits count word ++ value ∷ [] }
{
    word + (u64::from(value) << count)
}
