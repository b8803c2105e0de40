//! The trait of builders that lend the builder below them.
ghost use Rattle.std.specs.Prelude.{◌≡◌};
ghost use Rattle.std.specs.Borrow.{Lends, sem};

/// A builder over another one, which it lends for writing.
pub trait MutValues {
    type Values;

    ghost values: { Self → Self.Values };

    ghost with_values: { Self → Self.Values → Self };

    /// The builder of what stands below, to push to.
    fn mut_values(&mut self) -> &mut Self::Values
        ensures* lent { sem 𝓛 (Lends Self.row Self.Values.row self.entry result (with_values self.old)) }
        ensures shown { result.now ≡ values self.old };
}
