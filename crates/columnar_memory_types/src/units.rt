ghost use Rattle.std.specs.Prelude.{◌≡◌, ◌↔◌, IsTrue, if◌then◌else◌};

/// What a time, a timestamp or a duration counts.
#[derive(Clone, Copy, Debug, PartialEq, Eq, Hash, PartialOrd, Ord)]
pub enum TimeUnit {
    /// Seconds.
    Second,
    /// Thousandths of a second.
    Millisecond,
    /// Millionths of a second.
    Microsecond,
    /// Billionths of a second.
    Nanosecond,
}

/// What an interval counts.
#[derive(Clone, Copy, Debug, PartialEq, Eq, Hash, PartialOrd, Ord)]
pub enum IntervalUnit {
    /// Whole months, of which twelve are a year.
    YearMonth,
    /// Days, and milliseconds beside them.
    DayTime,
    /// Months, days and nanoseconds, each by itself.
    MonthDayNano,
}

/// How a union stores its children.
#[derive(Clone, Copy, Debug, PartialEq, Eq, Hash, PartialOrd, Ord)]
pub enum UnionMode {
    /// Each child has only the values of its own slots, which offsets find.
    Dense,
    /// Each child is as long as the union.
    Sparse,
}

impl UnionMode {
    pub fn sparse(is_sparse: bool) -> Self
        ensures { result ≡ (if is_sparse then UnionMode.Sparse else UnionMode.Dense) }
    {
        if is_sparse {
            UnionMode::Sparse
        } else {
            UnionMode::Dense
        }
    }

    pub fn is_sparse(&self) -> bool
        ensures { IsTrue result ↔ (self.now ≡ UnionMode.Sparse) }
    {
        matches!(self, UnionMode::Sparse)
    }

    pub fn is_dense(&self) -> bool
        ensures { IsTrue result ↔ (self.now ≡ UnionMode.Dense) }
    {
        matches!(self, UnionMode::Dense)
    }
}
