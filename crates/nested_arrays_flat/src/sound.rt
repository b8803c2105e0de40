//! What the columns of arrays of numbers are: sound ones, which a caller's proof is handed by reading an array.
ghost use Rattle.std.specs.Prelude.{◌≡◌, true};
ghost use Rattle.nested_arrays_columns.specs.SoundColumns.{is_sound};
ghost use Rattle.nested_arrays_flat.specs.FlatColumns.{primitive_column};

use crate::ranges::read_each;
use flat_arrays_core::PrimitiveArray;
use flat_arrays_core::columnar_memory::NativeType;

/// The column of an array of numbers is sound.
#[tactic(auto, using(crate::proofs::SoundFlats::primitive_sound, crate::proofs::InRange::native_has_numbers))]
pub fn primitive_is_sound<T: NativeType>(array: &PrimitiveArray<T>)
    ensures { is_sound (primitive_column T.PRIMITIVE T.numbers array.now) ≡ true }
{
    let _zero = T::default().to_le_bytes();
    let _slots = array.len();
    read_each(array.values().as_slice());
}
