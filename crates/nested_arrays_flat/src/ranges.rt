//! Values read one by one, so that a proof knows their ranges. A compiler that looks at such a loop leaves it out.
ghost use Rattle.std.specs.Prelude.{◌≡◌, true};
ghost use Rattle.std.specs.List.{list_all};
ghost use Rattle.nested_arrays_columns.specs.SoundColumns.{is_byte};
ghost use Rattle.nested_arrays_flat.specs.FlatColumns.{is_native};

use flat_arrays_core::columnar_memory::NativeType;

/// Reads each value, by which a proof knows that it is one of its kind.
pub(crate) fn read_each<T: NativeType>(values: &[T])
    ensures { list_all (λ value. is_native T.PRIMITIVE (T.numbers value)) values.now ≡ true }
{
    for value in values {
        let _bytes = value.to_le_bytes();
    }
}

/// Reads each byte, by which a proof knows that it is one.
pub fn read_bytes(bytes: &[u8])
    ensures { list_all is_byte bytes.now ≡ true }
{
    read_each(bytes);
}
