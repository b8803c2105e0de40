//! Devices that count their failures, so that a failure is told from an end, and that say whether they are memory alone.
ghost use Rattle.std.specs.Prelude.{◌≡◌};
ghost use Rattle.std.specs.Io.{ReadsAtMost, WritesAtMost};
ghost use Rattle.std.specs.Io.KnownBytes.{Keeps, ReadConsumes, WriteAppends};
ghost use Rattle.std.specs.Io.Seek.{SeekMoves};
ghost use Rattle.ipc_format_streams.specs.Failures.{Counts, count_after};

use std::io;
use std::io::{Cursor, Read, Seek, SeekFrom, Write};

/// A device that counts its failures, and says whether it is memory alone.
pub trait Faults {
    ghost use Rattle.std.specs.Prelude.{ℕ, Bool};

    // How often the device has failed.
    ghost failures: { Self → ℕ };

    // Whether devices of this kind are memory alone: what they refuse, they refuse for want of memory.
    ghost in_memory: { Bool };

    /// How often the device has failed. At its greatest number the count stays.
    fn faults(&self) -> u64
        ensures { result ≡ failures self.now };

    /// Whether the device is memory alone. Such a device never fails: what it refuses, it refuses for want of memory.
    fn is_memory(&self) -> bool
        ensures { result ≡ in_memory };
}

/// Memory never fails as a device does.
impl Faults for &[u8] {
    ghost use Rattle.std.specs.Prelude.{true};

    ghost failures = { λ _. 0 };

    ghost in_memory = { true };

    fn faults(&self) -> u64 {
        0
    }

    fn is_memory(&self) -> bool {
        true
    }
}

impl Faults for Vec<u8> {
    ghost use Rattle.std.specs.Prelude.{true};

    ghost failures = { λ _. 0 };

    ghost in_memory = { true };

    fn faults(&self) -> u64 {
        0
    }

    fn is_memory(&self) -> bool {
        true
    }
}

impl<T> Faults for Cursor<T> {
    ghost use Rattle.std.specs.Prelude.{false};

    ghost failures = { λ _. 0 };

    ghost in_memory = { false };

    fn faults(&self) -> u64 {
        0
    }

    fn is_memory(&self) -> bool {
        false
    }
}

impl<T: Faults> Faults for &mut T {
    ghost failures = { λ device. T.failures device.now };

    ghost in_memory = { T.in_memory };

    fn faults(&self) -> u64 {
        (**self).faults()
    }

    fn is_memory(&self) -> bool {
        (**self).is_memory()
    }
}

/// A device, with a count of how often it failed. It is never taken for memory alone.
#[derive(Debug, Drop)]
pub struct Counting<T> {
    pub device: T,
    /// How often a read, a write, a flush or a seek failed. At its greatest number it stays.
    pub failures: u64,
}

impl<T> Counting<T> {
    /// The device, with a count of no failures.
    pub fn new(device: T) -> Counting<T>
        ensures device { result.device ≡ device }
        ensures failures { result.failures ≡ 0 }
    {
        Counting {
            device,
            failures: 0,
        }
    }

    /// Counts one failure more, if there was one.
    fn count(&mut self, has_failed: bool)
        ensures device { self.new.device ≡ self.old.device }
        ensures failures { self.new.failures ≡ count_after has_failed self.old.failures }
    {
        if has_failed && self.failures < u64::MAX {
            self.failures += 1;
        }
    }
}

impl<T> Faults for Counting<T> {
    ghost use Rattle.std.specs.Prelude.{false};

    ghost failures = { λ counting. counting.failures };

    ghost in_memory = { false };

    fn faults(&self) -> u64 {
        self.failures
    }

    fn is_memory(&self) -> bool {
        false
    }
}

impl<R: Read> Read for Counting<R> {
    ghost remaining = { λ counting. R.remaining counting.device };

    fn read(&mut self, buffer: &mut [u8]) -> io::Result<usize>
        ensures bound { ReadsAtMost result buffer.new }
        ensures bytes { ReadConsumes (R.remaining self.old.device) (R.remaining self.new.device) result buffer.new }
        ensures counted { Counts result self.old.failures self.new.failures }
    {
        let result = self.device.read(buffer);
        self.count(result.is_err());
        result
    }
}

impl<W: Write> Write for Counting<W> {
    ghost contents = { λ counting. W.contents counting.device };

    fn write(&mut self, buffer: &[u8]) -> io::Result<usize>
        ensures bound { WritesAtMost result buffer.now }
        ensures bytes { WriteAppends (W.contents self.old.device) (W.contents self.new.device) result buffer.now }
        ensures counted { Counts result self.old.failures self.new.failures }
    {
        let result = self.device.write(buffer);
        self.count(result.is_err());
        result
    }

    fn flush(&mut self) -> io::Result<()>
        ensures bytes { Keeps (W.contents self.old.device) (W.contents self.new.device) }
        ensures counted { Counts result self.old.failures self.new.failures }
    {
        let result = self.device.flush();
        self.count(result.is_err());
        result
    }
}

impl<S: Seek> Seek for Counting<S> {
    ghost stream_position = { λ counting. S.stream_position counting.device };

    ghost stream_bytes = { λ counting. S.stream_bytes counting.device };

    fn seek(&mut self, to: SeekFrom) -> io::Result<u64>
        ensures moves { SeekMoves (S.stream_position self.old.device) (S.stream_position self.new.device)
            (S.stream_bytes self.old.device) to result }
        ensures bytes { Keeps (S.stream_bytes self.old.device) (S.stream_bytes self.new.device) }
        ensures counted { Counts result self.old.failures self.new.failures }
    {
        let result = self.device.seek(to);
        self.count(result.is_err());
        result
    }
}
