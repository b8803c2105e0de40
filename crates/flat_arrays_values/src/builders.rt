ghost use Rattle.std.specs.Prelude.{◌≡◌, MatchResult};
ghost use Rattle.columnar_memory_core.specs.Error.{IsOutOfMemory};
ghost use Rattle.either.specs.Either.{MatchEither};

use columnar_memory_core::Result;
use either::Either;

/// An array that its builder `M` may take over, to change it in place. `builds` says which builder holds what an array does.
pub trait IntoMut<M>: Sized {
    ghost builds: { Self → M → Type 0 };

    /// The builder, on the right, of the array's own memory, where the array is its one owner and shows it from its beginning on; else the
    /// array, on the left. No value is copied.
    ///
    /// # Errors
    /// `OutOfMemory`: the array owns one of its parts alone and shares another, and the count of owners found no memory.
    fn into_mut(self) -> Result<Either<Self, M>>
        ensures { MatchResult result (λ side. MatchEither side (λ array. array ≡ self) (builds self)) IsOutOfMemory };
}
