//! Keys that are places among values.
ghost use Rattle.std.specs.Prelude.{◌≡◌, ◌↔◌, ◌<◌, pos, IsTrue, MatchOption};
ghost use Rattle.flat_arrays_values.specs.Results.{AreChecked, IsPlaceBelow};

use columnar_memory_core::{Error, Index, Result};

/// Whether each key is a place below a length. Takes no memory.
///
/// # Errors
/// `OutOfSpec`: a key is negative, or not below the length.
pub fn check_indexes<K: Index>(keys: &[K], len: usize) -> Result<()>
    ensures { AreChecked K.value keys.now len result }
{
    let zero = K::from_as_usize(0);
    let limit = K::from_usize(len);
    // No key ends the loop, so that the compiler can test many at a time.
    let mut are_places = true;
    for key in keys {
        are_places = are_places & is_place_below(key, &zero, &limit, len);
    }
    if are_places {
        Ok(())
    } else {
        Err(Error::OutOfSpec("a key that is no place of the values"))
    }
}

/// Whether a key is a place below a length, which is a limit where the keys' type has it: then numbers of that type are compared.
#[inline(always)]
fn is_place_below<K: Index>(key: &K, zero: &K, limit: &Option<K>, len: usize) -> bool
    requires zero { K.value zero.now ≡ pos 0 }
    requires limit { MatchOption limit.now (K.greatest < len) (λ number. K.value number ≡ pos len) }
    ensures { IsTrue result ↔ IsPlaceBelow len (K.value key.now) }
{
    match limit {
        Some(limit) => (*zero <= *key) & (*key < *limit),
        None => match key.try_to_usize() {
            Some(place) => place < len,
            None => false,
        },
    }
}
