//! Keys of dictionaries.
ghost use Rattle.std.specs.Prelude.{◌≡◌, ◌+◌, ◌<◌, ◌≤◌, ◌≤ℤ◌, length, map, option_copied, pos, refl, true};
ghost use Rattle.std.proofs.Common.{lit≤};
ghost use Rattle.nested_arrays_access.specs.columnar_memory.declared.IntegerType.{IntegerType};
ghost use Rattle.nested_arrays_access.specs.columnar_memory.declared.IntegerType.TheVariants as integers;
ghost use Rattle.nested_arrays_access.specs.columns.Kinds.{most_values};
ghost use Rattle.nested_arrays_access.specs.columns.SoundColumns.{has_value_at, holds_below, mask_fits};
ghost use Rattle.nested_arrays_access.specs.parts.Keys.{kind_of_keys};
ghost use Rattle.nested_arrays_core.specs.Dictionaries.{has_no_sign};

use nested_arrays_access::columnar_memory::{Bitmap, Index, IntegerType};
use nested_arrays_access::flat::{PrimitiveKind, mark_at};
use nested_arrays_access::flat_arrays::{PrimitiveArray, check_indexes};

/// An integer that names a value of a dictionary by its place.
pub trait DictionaryKey: Index + PrimitiveKind {
    ghost KEY_TYPE: { IntegerType };

    /// The integer type by which data types name such keys.
    const KEY_TYPE: IntegerType;

    // Keys are stored as values of one kind.
    ghost key_law: { Self.PRIMITIVE ≡ kind_of_keys KEY_TYPE };

    // Each place is a key, as far as keys tell values apart.
    ghost most_law: { most_values KEY_TYPE ≤ Self.greatest + 1 };

    /// The place that a key names, which is not below zero.
    final fn as_usize(self) -> usize
        requires { pos 0 ≤ℤ Self.value self }
        ensures { Self.value self ≡ pos result }
    {
        self.to_usize()
    }

    /// Whether each key is a number that `usize` has.
    final fn always_fits_usize() -> bool
        ensures { result ≡ has_no_sign KEY_TYPE }
    {
        match Self::KEY_TYPE {
            IntegerType::UInt8 | IntegerType::UInt16 | IntegerType::UInt32 | IntegerType::UInt64 =>
                true,
            _ => false,
        }
    }
}

impl DictionaryKey for i8 {
    ghost KEY_TYPE = { integers.Int8 };

    const KEY_TYPE: IntegerType = IntegerType::Int8;

    ghost key_law = { refl };

    ghost most_law = { lit≤ tt };
}

impl DictionaryKey for i16 {
    ghost KEY_TYPE = { integers.Int16 };

    const KEY_TYPE: IntegerType = IntegerType::Int16;

    ghost key_law = { refl };

    ghost most_law = { lit≤ tt };
}

impl DictionaryKey for i32 {
    ghost KEY_TYPE = { integers.Int32 };

    const KEY_TYPE: IntegerType = IntegerType::Int32;

    ghost key_law = { refl };

    ghost most_law = { lit≤ tt };
}

impl DictionaryKey for i64 {
    ghost KEY_TYPE = { integers.Int64 };

    const KEY_TYPE: IntegerType = IntegerType::Int64;

    ghost key_law = { refl };

    ghost most_law = { lit≤ tt };
}

impl DictionaryKey for u8 {
    ghost KEY_TYPE = { integers.UInt8 };

    const KEY_TYPE: IntegerType = IntegerType::UInt8;

    ghost key_law = { refl };

    ghost most_law = { lit≤ tt };
}

impl DictionaryKey for u16 {
    ghost KEY_TYPE = { integers.UInt16 };

    const KEY_TYPE: IntegerType = IntegerType::UInt16;

    ghost key_law = { refl };

    ghost most_law = { lit≤ tt };
}

impl DictionaryKey for u32 {
    ghost KEY_TYPE = { integers.UInt32 };

    const KEY_TYPE: IntegerType = IntegerType::UInt32;

    ghost key_law = { refl };

    ghost most_law = { lit≤ tt };
}

impl DictionaryKey for u64 {
    ghost KEY_TYPE = { integers.UInt64 };

    const KEY_TYPE: IntegerType = IntegerType::UInt64;

    ghost key_law = { refl };

    ghost most_law = { lit≤ tt };
}

/// Whether each key that a mask says is valid is the place of one of so many values.
pub(crate) fn name_values<K: DictionaryKey>(
    keys: &PrimitiveArray<K>,
    validity: Option<&Bitmap>,
    count: usize,
) -> bool
    requires { mask_fits (option_copied validity) (length keys.now.values) ≡ true }
    ensures { result ≡ holds_below (length keys.now.values)
        (has_value_at (option_copied validity.entry) (map K.value keys.now.values) count) }
{
    if check_indexes(keys.values().as_slice(), count).is_ok() {
        return true;
    }
    for i in 0..keys.len() {
        if !names_value(keys, validity, i, count) {
            return false;
        }
    }
    true
}

/// Whether the key of a slot, if a mask says that it is valid, is the place of one of so many values.
fn names_value<K: DictionaryKey>(
    keys: &PrimitiveArray<K>,
    validity: Option<&Bitmap>,
    i: usize,
    count: usize,
) -> bool
    requires within { i < length keys.now.values }
    requires masked { mask_fits (option_copied validity) (length keys.now.values) ≡ true }
    ensures { result ≡ has_value_at (option_copied validity.entry) (map K.value keys.now.values) count i }
{
    if !mark_at(validity, i) {
        return true;
    }
    match keys.value(i).try_to_usize() {
        Some(place) => place < count,
        None => false,
    }
}
