//! Arrays of what builders without children hold, with no copy.
ghost use Rattle.std.specs.Prelude.{◌≡◌, false, true, length};
ghost use Rattle.std.specs.List.{list_all};
ghost use Rattle.std.specs.Str.{is_utf8};
ghost use Rattle.nested_arrays_core.specs.arrays.columnar_memory.Layouts.{physical_type};
ghost use Rattle.nested_arrays_core.specs.arrays.columnar_memory.Results.{OrOutOfMemory};
ghost use Rattle.nested_arrays_core.specs.arrays.columnar_memory.declared.PhysicalType.TheVariants as physical;
ghost use Rattle.nested_arrays_core.specs.arrays.flat_arrays.Flat.{flat, IsFlat};
ghost use Rattle.nested_arrays_core.specs.arrays.flat.FlatColumns.{binary_column, boolean_column, byte_width, fixed_column, primitive_column, text_column};
ghost use Rattle.nested_arrays_core.specs.arrays.columns.SoundColumns.{is_sound, mask_fits};
ghost use Rattle.nested_arrays_builder_parts.specs.Freezing.{IsFreezable};
ghost use Rattle.nested_arrays_builder_parts.specs.Growing as growing;
ghost use Rattle.nested_arrays_builder_parts.specs.Growing.{grown_column};
ghost use Rattle.nested_arrays_core.specs.arrays.flat_arrays.Fits.{binary_layout, text_layout};

use crate::numbers::NumberKind;
use crate::strings::Strings;
use crate::values::{Values, ValuesNode};
use nested_arrays_core::arrays::columnar_memory::{
    Bitmap, Buffer, DataType, MutableBitmap, Offset, Result,
};
use nested_arrays_core::arrays::flat::{AnyPrimitive, FixedSizeBinaryArray, NullArray};
use nested_arrays_core::arrays::flat_arrays::{
    BinaryArray, BooleanArray, PrimitiveArray, Utf8Array,
};
use nested_arrays_core::arrays::parts::FlatArray;

impl Values {
    /// The array of the values of `len` slots with a mask.
    ///
    /// # Errors
    /// `OutOfMemory`: a count of owners found no memory.
    // match table: an arm for each kind of values.
    pub fn freeze(
        self,
        data_type: DataType,
        len: usize,
        validity: Option<Bitmap>,
    ) -> Result<FlatArray>
        requires { IsFreezable data_type len validity self }
        ensures { OrOutOfMemory result (λ array. array ≡ grown_column data_type len validity self) }
    {
        let Values { node } = self;
        match node {
            ValuesNode::Nulls => Ok(FlatArray::from(NullArray::new(data_type, len))),
            ValuesNode::Truths(bits) => freeze_truths(data_type, bits, validity),
            ValuesNode::Int8(values) => freeze_numbers(data_type, values, validity),
            ValuesNode::Int16(values) => freeze_numbers(data_type, values, validity),
            ValuesNode::Int32(values) => freeze_numbers(data_type, values, validity),
            ValuesNode::Int64(values) => freeze_numbers(data_type, values, validity),
            ValuesNode::Int128(values) => freeze_numbers(data_type, values, validity),
            ValuesNode::Int256(values) => freeze_numbers(data_type, values, validity),
            ValuesNode::UInt8(values) => freeze_numbers(data_type, values, validity),
            ValuesNode::UInt16(values) => freeze_numbers(data_type, values, validity),
            ValuesNode::UInt32(values) => freeze_numbers(data_type, values, validity),
            ValuesNode::UInt64(values) => freeze_numbers(data_type, values, validity),
            ValuesNode::DaysMs(values) => freeze_numbers(data_type, values, validity),
            ValuesNode::MonthsDaysNs(values) => freeze_numbers(data_type, values, validity),
            ValuesNode::Binary(strings) => Ok(FlatArray::from(freeze_bytes(
                data_type, strings, validity,
            )?)),
            ValuesNode::LargeBinary(strings) => Ok(FlatArray::from(freeze_bytes(
                data_type, strings, validity,
            )?)),
            ValuesNode::FixedSizeBinary(_, bytes) => freeze_sized(data_type, bytes, validity),
            ValuesNode::Utf8(strings) => Ok(FlatArray::from(freeze_texts(
                data_type, strings, validity,
            )?)),
            ValuesNode::LargeUtf8(strings) => Ok(FlatArray::from(freeze_texts(
                data_type, strings, validity,
            )?)),
        }
    }
}

/// The array of truth values.
fn freeze_truths(
    data_type: DataType,
    bits: MutableBitmap,
    validity: Option<Bitmap>,
) -> Result<FlatArray>
    requires { IsFlat physical.Boolean (flat data_type bits validity) }
    ensures { OrOutOfMemory result (λ array. array ≡ boolean_column (flat data_type bits validity)) }
{
    let values = bits.freeze()?;
    Ok(FlatArray::from(BooleanArray::new(data_type, values, validity)))
}

/// The array of numbers of a kind.
fn freeze_numbers<T: NumberKind>(
    data_type: DataType,
    values: Vec<T>,
    validity: Option<Bitmap>,
) -> Result<FlatArray>
    requires { IsFlat (physical.Primitive T.PRIMITIVE) (flat data_type values.items validity) }
    ensures { OrOutOfMemory result (λ array. array ≡ primitive_column T.PRIMITIVE T.numbers (flat data_type values.items validity)) }
{
    let values = Buffer::from_vec(values)?;
    let array = PrimitiveArray::new(data_type, values, validity);
    Ok(FlatArray::from(AnyPrimitive::from_array(array)))
}

/// The array of byte strings.
fn freeze_bytes<O: Offset>(
    data_type: DataType,
    strings: Strings<O>,
    validity: Option<Bitmap>,
) -> Result<BinaryArray<O>>
    requires lies { physical_type data_type ≡ binary_layout O.IS_LARGE }
    requires masked { mask_fits validity (length strings) ≡ true }
    ensures { OrOutOfMemory result (λ array. binary_column array ≡ grown_column data_type 0 validity (growing.strings false O.IS_LARGE strings)) }
{
    let parts = strings.freeze()?;
    let (offsets, values) = parts;
    Ok(BinaryArray::new(data_type, offsets, values, validity))
}

/// The array of texts.
fn freeze_texts<O: Offset>(
    data_type: DataType,
    strings: Strings<O>,
    validity: Option<Bitmap>,
) -> Result<Utf8Array<O>>
    requires lies { physical_type data_type ≡ text_layout O.IS_LARGE }
    requires masked { mask_fits validity (length strings) ≡ true }
    requires texts { list_all is_utf8 strings ≡ true }
    ensures { OrOutOfMemory result (λ array. text_column array ≡ grown_column data_type 0 validity (growing.strings true O.IS_LARGE strings)) }
{
    let parts = strings.freeze()?;
    let (offsets, values) = parts;
    Ok(Utf8Array::new(data_type, offsets, values, validity))
}

/// The array of byte strings of one size.
fn freeze_sized(data_type: DataType, bytes: Vec<u8>, validity: Option<Bitmap>) -> Result<FlatArray>
    requires { is_sound (fixed_column data_type (byte_width data_type) bytes.items validity) ≡ true }
    ensures { OrOutOfMemory result (λ array. array ≡ fixed_column data_type (byte_width data_type) bytes.items validity) }
{
    let values = Buffer::from_vec(bytes)?;
    Ok(FlatArray::from(FixedSizeBinaryArray::new(data_type, values, validity)))
}
