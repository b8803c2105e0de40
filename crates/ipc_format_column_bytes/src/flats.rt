//! The columns of flat arrays, as they are written (Arrow columnar format, "Fixed-size Primitive Layout", "Variable-size Binary Layout").
ghost use Rattle.std.specs.Prelude.{◌+◌, ◌≤◌, [], ◌∷◌, length};
ghost use Rattle.flat_arrays_core.specs.ByteStrings.{len_of};
ghost use Rattle.ipc_format_column_bytes.specs.Bodies.{Adds, of_buffers, parts_of};
ghost use Rattle.ipc_format_column_bytes.specs.FlatColumns.{binary_column, boolean_column, primitive_column, text_column};
ghost use Rattle.ipc_format_column_bytes.specs.Numbers.{width_of};
ghost use Rattle.ipc_format_streams.specs.columnar_memory.Spans.{last_of, offsets_of};
ghost use Rattle.ipc_format_streams.specs.columns.StoredColumns.{cut_list};
ghost use Rattle.ipc_format_streams.specs.grammar.StoredEncoding.{between_offsets, encode_range, encode_stored, moved_bytes};

use crate::body::Body;
use crate::offsets::offset_at;
use flat_arrays_core::{BinaryArray, BooleanArray, PrimitiveArray, Utf8Array};
use ipc_format_streams::columnar_memory::{NativeType, Offset, OffsetsBuffer, Result};

impl Body {
    /// Adds the `count` slots from slot `first` on of an array of numbers: the node, the mask and the values.
    pub fn add_primitive<T: NativeType>(
        &mut self,
        array: &PrimitiveArray<T>,
        first: usize,
        count: usize,
        is_little_endian: bool,
    ) -> Result<()>
        requires { first + count ≤ length array.now.values }
        ensures { Adds result (parts_of self.old) (parts_of self.new)
            (encode_range is_little_endian (primitive_column T.PRIMITIVE T.numbers array.now) first count) }
    {
        let _slots = array.len();
        self.add_slots(array.validity(), first, count)?;
        let values = &array.values().as_slice()[first..first + count];
        self.add_numbers(values, is_little_endian)
    }

    /// The same of an array of booleans.
    pub fn add_boolean(
        &mut self,
        array: &BooleanArray,
        first: usize,
        count: usize,
        is_little_endian: bool,
    ) -> Result<()>
        requires { first + count ≤ length array.now.values }
        ensures { Adds result (parts_of self.old) (parts_of self.new) (encode_range is_little_endian (boolean_column array.now) first count) }
    {
        let _slots = array.len();
        self.add_slots(array.validity(), first, count)?;
        self.add_bits(array.values(), first, count)
    }

    /// Adds the offsets of the `count` spans from span `first` on, and the bytes between the first offset and the last.
    fn add_strings<O: Offset>(
        &mut self,
        offsets: &OffsetsBuffer<O>,
        bytes: &[u8],
        first: usize,
        count: usize,
        is_little_endian: bool,
    ) -> Result<()>
        requires spans { first + count ≤ length offsets.now.lengths }
        requires within { last_of offsets.now ≤ length bytes.now }
        ensures { let taken = cut_list (offsets_of offsets.now) first (count + 1) in
            Adds result (parts_of self.old) (parts_of self.new)
            (of_buffers (moved_bytes is_little_endian (width_of O.IS_LARGE) taken ∷ between_offsets taken bytes.now ∷ [])) }
    {
        let _all = offsets.len();
        self.add_offsets(offsets, first, count, is_little_endian)?;
        let start = offset_at(offsets, first);
        let end = offset_at(offsets, first + count);
        self.add_bytes(&bytes[start..end])
    }

    /// Adds the `count` slots from slot `first` on of an array of byte strings: the node, the mask, the offsets and the bytes between them.
    pub fn add_binary<O: Offset>(
        &mut self,
        array: &BinaryArray<O>,
        first: usize,
        count: usize,
        is_little_endian: bool,
    ) -> Result<()>
        requires { first + count ≤ len_of array.now }
        ensures { Adds result (parts_of self.old) (parts_of self.new) (encode_range is_little_endian (binary_column array.now) first count) }
    {
        let _slots = array.len();
        let _type = array.data_type();
        self.add_slots(array.validity(), first, count)?;
        self.add_strings(
            array.offsets(),
            array.values().as_slice(),
            first,
            count,
            is_little_endian,
        )
    }

    /// The same of an array of texts.
    pub fn add_utf8<O: Offset>(
        &mut self,
        array: &Utf8Array<O>,
        first: usize,
        count: usize,
        is_little_endian: bool,
    ) -> Result<()>
        requires { first + count ≤ len_of array.now }
        ensures { Adds result (parts_of self.old) (parts_of self.new) (encode_range is_little_endian (text_column array.now) first count) }
    {
        let _slots = array.len();
        let _type = array.data_type();
        self.add_slots(array.validity(), first, count)?;
        self.add_strings(
            array.offsets(),
            array.values().as_slice(),
            first,
            count,
            is_little_endian,
        )
    }
}

/// Writes an array of numbers behind what stands in a body: its node, its mask and its values.
///
/// # Errors
/// Those of `Body`.
pub fn write_primitive<T: NativeType>(
    array: &PrimitiveArray<T>,
    body: &mut Body,
    is_little_endian: bool,
) -> Result<()>
    ensures { Adds result (parts_of body.old) (parts_of body.new)
        (encode_stored is_little_endian (primitive_column T.PRIMITIVE T.numbers array.now)) }
{
    body.add_primitive(array, 0, array.len(), is_little_endian)
}

/// The same of an array of booleans.
pub fn write_boolean(array: &BooleanArray, body: &mut Body, is_little_endian: bool) -> Result<()>
    ensures { Adds result (parts_of body.old) (parts_of body.new) (encode_stored is_little_endian (boolean_column array.now)) }
{
    body.add_boolean(array, 0, array.len(), is_little_endian)
}

/// Writes an array of byte strings behind what stands in a body: its node, its mask, its offsets less the first one, and the bytes between
/// the first and the last.
///
/// # Errors
/// Those of `Body`.
pub fn write_binary<O: Offset>(
    array: &BinaryArray<O>,
    body: &mut Body,
    is_little_endian: bool,
) -> Result<()>
    ensures { Adds result (parts_of body.old) (parts_of body.new) (encode_stored is_little_endian (binary_column array.now)) }
{
    body.add_binary(array, 0, array.len(), is_little_endian)
}

/// The same of an array of texts.
pub fn write_utf8<O: Offset>(
    array: &Utf8Array<O>,
    body: &mut Body,
    is_little_endian: bool,
) -> Result<()>
    ensures { Adds result (parts_of body.old) (parts_of body.new) (encode_stored is_little_endian (text_column array.now)) }
{
    body.add_utf8(array, 0, array.len(), is_little_endian)
}
