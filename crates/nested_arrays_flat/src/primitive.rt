//! Arrays of numbers of any kind.
ghost use Rattle.std.specs.Prelude.{◌≡◌, ◌+◌, ◌<◌, ◌≤◌, ◌↔◌, IsTrue, MatchResult, option_copied, true};
ghost use Rattle.flat_arrays_core.specs.columnar_memory.Layouts.{physical_type};
ghost use Rattle.flat_arrays_core.specs.columnar_memory.declared.PhysicalType.TheVariants as physical;
ghost use Rattle.flat_arrays_core.specs.Flat.{flat, IsFlat};
ghost use Rattle.nested_arrays_columns.specs.SoundColumns.{is_sound, mask_fits};
ghost use Rattle.nested_arrays_columns.specs.StoredColumns.{column_len, column_type, cut, is_valid_at};
ghost use Rattle.nested_arrays_flat.specs.ColumnMasks.{column_mask, unset_in, with_mask, ReplacesMask};
ghost use Rattle.nested_arrays_flat.specs.FlatColumns.{primitive_column};
ghost use Rattle.nested_arrays_flat.specs.Primitives.{column_of, is_primitive};
ghost use Rattle.nested_arrays_flat.specs.Taken.{ArePartsOf, IsInside, IsLeft, Shows, Takes};

use crate::masks::{is_mask_of, mark_at, unset_marks};
use flat_arrays_core::PrimitiveArray;
use flat_arrays_core::columnar_memory::{
    Bitmap, Buffer, DataType, Error, NativeType, Result, days_ms, i256, months_days_ns,
};
use std::alloc::AllocError;
use std::marker::Model;

/// An array of numbers, by their kind.
#[derive(Debug, Drop)]
pub enum PrimitiveNode {
    Int8(PrimitiveArray<i8>),
    Int16(PrimitiveArray<i16>),
    Int32(PrimitiveArray<i32>),
    Int64(PrimitiveArray<i64>),
    Int128(PrimitiveArray<i128>),
    Int256(PrimitiveArray<i256>),
    UInt8(PrimitiveArray<u8>),
    UInt16(PrimitiveArray<u16>),
    UInt32(PrimitiveArray<u32>),
    UInt64(PrimitiveArray<u64>),
    DaysMs(PrimitiveArray<days_ms>),
    MonthsDaysNs(PrimitiveArray<months_days_ns>),
}

/// The same answer from the array of each kind.
macro_rules! with_array {
    ($node:expr, $array:ident => $answer:expr) => {
        match $node {
            PrimitiveNode::Int8($array) => $answer,
            PrimitiveNode::Int16($array) => $answer,
            PrimitiveNode::Int32($array) => $answer,
            PrimitiveNode::Int64($array) => $answer,
            PrimitiveNode::Int128($array) => $answer,
            PrimitiveNode::Int256($array) => $answer,
            PrimitiveNode::UInt8($array) => $answer,
            PrimitiveNode::UInt16($array) => $answer,
            PrimitiveNode::UInt32($array) => $answer,
            PrimitiveNode::UInt64($array) => $answer,
            PrimitiveNode::DaysMs($array) => $answer,
            PrimitiveNode::MonthsDaysNs($array) => $answer,
        }
    };
}

/// An array of numbers of any kind (Arrow columnar format, "Fixed-size Primitive Layout"). A contract sees the column that it stores.
#[derive(Debug)]
pub struct AnyPrimitive {
    pub node: PrimitiveNode,
}

impl Drop for AnyPrimitive {
    fn drop(self) {
        let AnyPrimitive { node: _ } = self;
    }
}

impl Model for AnyPrimitive {
    ghost use Rattle.std.specs.Prelude.{◌≡◌, true};
    ghost use Rattle.nested_arrays_columns.specs.StoredColumns.{Column};
    ghost use Rattle.nested_arrays_columns.specs.ColumnCodes.{column_code};
    ghost use Rattle.nested_arrays_columns.specs.SoundColumns.{is_sound};

    ghost Value = { Column };

    ghost coded = { column_code };

    ghost use Rattle.nested_arrays_flat.specs.Primitives.{column_of};

    ghost view = { λ it. column_of it.node };

    ghost invariant = { λ it. is_sound (column_of it.node) ≡ true };
}

impl AnyPrimitive {
    /// The array by its kind.
    pub(crate) fn into_node(self) -> PrimitiveNode
        ensures value { column_of result ≡ self }
        ensures whole { is_sound (column_of result) ≡ true }
    {
        let AnyPrimitive { node } = self;
        node
    }

    /// An array of numbers as one of any kind. Takes no memory.
    pub fn from_array<T: PrimitiveKind>(array: PrimitiveArray<T>) -> Self
        ensures { result ≡ primitive_column T.PRIMITIVE T.numbers array }
    {
        let (data_type, values, validity) = array.into_inner();
        T::wrap(data_type, values, validity)
    }

    /// The array itself, or this where its values are of another kind. Takes no memory.
    pub fn into_array<T: PrimitiveKind>(self) -> std::result::Result<PrimitiveArray<T>, Self>
        ensures { Takes T.PRIMITIVE T.numbers self result }
    {
        match T::unwrap(self) {
            Ok((data_type, values, validity)) => Ok(PrimitiveArray::new(
                data_type, values, validity,
            )),
            Err(any) => Err(any),
        }
    }

    /// How many slots there are.
    #[tactic(auto, using(crate::proofs::SoundFlats::primitive_len))]
    pub fn len(&self) -> usize
        ensures { result ≡ column_len self.now }
    {
        with_array!(&self.node, array => array.len())
    }

    #[tactic(auto, using(crate::proofs::SoundFlats::primitive_fits))]
    pub fn data_type(&self) -> &DataType
        ensures value { result.now ≡ column_type self.now }
        ensures fits { is_primitive (physical_type result.now) ≡ true }
    {
        with_array!(&self.node, array => array.data_type())
    }

    /// The mask, where there is one: a bit is set where its slot is not null.
    pub fn validity(&self) -> Option<&Bitmap>
        ensures { option_copied result ≡ column_mask self.now }
    {
        with_array!(&self.node, array => array.validity())
    }

    /// Whether the slot at a place has a value.
    pub fn is_valid(&self, i: usize) -> bool
        requires { i < column_len self.now }
        ensures { result ≡ is_valid_at (column_mask self.now) i }
    {
        self.whole();
        mark_at(self.validity(), i)
    }

    /// How many slots are null.
    pub fn null_count(&self) -> usize
        ensures { result ≡ unset_in (column_mask self.now) }
    {
        unset_marks(self.validity())
    }

    /// Hands to a proof what holds of every such array.
    pub fn whole(&self)
        ensures { is_sound self.now ≡ true }
    {
        let _node = &self.node;
    }

    /// Narrows this to the `count` slots from `offset` on, with no copy.
    pub fn slice(&mut self, offset: usize, count: usize)
        requires { offset + count ≤ column_len self.old }
        ensures { self.new ≡ cut self.old offset count }
    {
        with_array!(&mut self.node, array => slice_numbers(array, offset, count))
    }

    /// Replaces the mask.
    ///
    /// # Errors
    /// `InvalidArgumentError`: the mask has another length than the array, which is as it was.
    pub fn set_validity(&mut self, validity: Option<Bitmap>) -> Result<()>
        ensures { ReplacesMask self.old validity self.new result }
    {
        let _node = &self.node;
        if !is_mask_of(&validity, self.len()) {
            return Err(Error::InvalidArgumentError("a mask of another length than the array"));
        }
        self.replace_mask(validity);
        Ok(())
    }

    /// Replaces the mask by one of the array's length.
    fn replace_mask(&mut self, validity: Option<Bitmap>)
        requires { mask_fits validity (column_len self.old) ≡ true }
        ensures { self.new ≡ with_mask self.old validity }
    {
        with_array!(&mut self.node, array => mask_numbers(array, validity))
    }
}

/// Narrows an array of numbers to the `count` slots from `offset` on.
#[tactic(auto, using(crate::proofs::SoundFlats::primitive_len, crate::proofs::SoundFlats::primitive_cut))]
fn slice_numbers<T: NativeType>(array: &mut PrimitiveArray<T>, offset: usize, count: usize)
    requires { offset + count ≤ column_len (primitive_column T.PRIMITIVE T.numbers array.old) }
    ensures { primitive_column T.PRIMITIVE T.numbers array.new ≡ cut (primitive_column T.PRIMITIVE T.numbers array.old) offset count }
{
    array.slice(offset, count);
}

/// Replaces the mask of an array of numbers by one of its length.
#[tactic(auto, using(crate::proofs::SoundFlats::primitive_len, crate::proofs::SoundFlats::masked_from))]
fn mask_numbers<T: NativeType>(array: &mut PrimitiveArray<T>, validity: Option<Bitmap>)
    requires { mask_fits validity (column_len (primitive_column T.PRIMITIVE T.numbers array.old)) ≡ true }
    ensures { primitive_column T.PRIMITIVE T.numbers array.new ≡ with_mask (primitive_column T.PRIMITIVE T.numbers array.old) validity }
{
    array.set_validity(validity);
}

impl Clone for AnyPrimitive {
    ghost is_clone = { λ array copy. copy ≡ array };

    /// Shares the values and the marks, and copies the data type.
    fn clone(&self) -> std::result::Result<Self, AllocError> {
        let node = match &self.node {
            PrimitiveNode::Int8(array) => PrimitiveNode::Int8(array.clone()?),
            PrimitiveNode::Int16(array) => PrimitiveNode::Int16(array.clone()?),
            PrimitiveNode::Int32(array) => PrimitiveNode::Int32(array.clone()?),
            PrimitiveNode::Int64(array) => PrimitiveNode::Int64(array.clone()?),
            PrimitiveNode::Int128(array) => PrimitiveNode::Int128(array.clone()?),
            PrimitiveNode::Int256(array) => PrimitiveNode::Int256(array.clone()?),
            PrimitiveNode::UInt8(array) => PrimitiveNode::UInt8(array.clone()?),
            PrimitiveNode::UInt16(array) => PrimitiveNode::UInt16(array.clone()?),
            PrimitiveNode::UInt32(array) => PrimitiveNode::UInt32(array.clone()?),
            PrimitiveNode::UInt64(array) => PrimitiveNode::UInt64(array.clone()?),
            PrimitiveNode::DaysMs(array) => PrimitiveNode::DaysMs(array.clone()?),
            PrimitiveNode::MonthsDaysNs(array) => PrimitiveNode::MonthsDaysNs(array.clone()?),
        };
        Ok(AnyPrimitive { node })
    }
}

/// A value of which arrays store numbers: the parts of such an array are those of one of any kind.
pub trait PrimitiveKind: NativeType {
    /// The array of parts that fit among those of any kind. Takes no memory.
    fn wrap(data_type: DataType, values: Buffer<Self>, validity: Option<Bitmap>) -> AnyPrimitive
        requires { IsFlat (physical.Primitive Self.PRIMITIVE) (flat data_type values validity) }
        ensures { result ≡ primitive_column Self.PRIMITIVE Self.numbers (flat data_type values validity) };

    /// The data type, the values and the mask, or what was given where the values are of another kind. Takes no memory.
    fn unwrap(any: AnyPrimitive) -> std::result::Result<Parts<Self>, AnyPrimitive>
        ensures { MatchResult result (λ parts. ArePartsOf Self.PRIMITIVE Self.numbers any parts.0 parts.1 parts.2) (IsLeft Self.PRIMITIVE any) };

    /// The array itself, or none where its values are of another kind.
    fn downcast_ref(any: &AnyPrimitive) -> Option<&PrimitiveArray<Self>>
        ensures { IsInside Self.PRIMITIVE Self.numbers any.now (option_copied result) };

    /// The stored values, those under nulls too, or none where the values are of another kind.
    final fn values(any: &AnyPrimitive) -> Option<&Buffer<Self>>
        ensures { Shows Self.PRIMITIVE Self.numbers any.now (option_copied result) }
    {
        let array = Self::downcast_ref(any)?;
        Some(array.values())
    }
}

/// A data type, stored values and a mask.
pub type Parts<T> = (DataType, Buffer<T>, Option<Bitmap>);
