//! The kinds of numbers, each with the array of its values.
ghost use Rattle.std.specs.Prelude.{◌≡◌, MatchResult, option_copied, pos};
ghost use Rattle.flat_arrays_core.specs.columnar_memory.Numbers.{one, two, three};
ghost use Rattle.flat_arrays_core.specs.columnar_memory.declared.PhysicalType.TheVariants as physical;
ghost use Rattle.flat_arrays_core.specs.columnar_memory.declared.PrimitiveType.TheVariants as kinds;
ghost use Rattle.flat_arrays_core.specs.Flat.{flat, IsFlat};
ghost use Rattle.nested_arrays_flat.specs.FlatColumns.{primitive_column};
ghost use Rattle.nested_arrays_flat.specs.Taken.{ArePartsOf, IsInside, IsLeft};

use crate::primitive::{AnyPrimitive, Parts, PrimitiveKind, PrimitiveNode};
use crate::sound::primitive_is_sound;
use flat_arrays_core::PrimitiveArray;
use flat_arrays_core::columnar_memory::{Bitmap, Buffer, DataType, days_ms, i256, months_days_ns};

impl PrimitiveKind for i8 {
    fn wrap(data_type: DataType, values: Buffer<i8>, validity: Option<Bitmap>) -> AnyPrimitive
        requires { IsFlat (physical.Primitive kinds.Int8) (flat data_type values validity) }
        ensures { result ≡ primitive_column kinds.Int8 one (flat data_type values validity) }
    {
        let array = PrimitiveArray::new(data_type, values, validity);
        primitive_is_sound(&array);
        AnyPrimitive {
            node: PrimitiveNode::Int8(array),
        }
    }

    fn unwrap(any: AnyPrimitive) -> Result<Parts<i8>, AnyPrimitive>
        ensures { MatchResult result (λ parts. ArePartsOf kinds.Int8 one any parts.0 parts.1 parts.2) (IsLeft kinds.Int8 any) }
    {
        match any.into_node() {
            PrimitiveNode::Int8(array) => Ok(array.into_inner()),
            node => Err(AnyPrimitive { node }),
        }
    }

    fn downcast_ref(any: &AnyPrimitive) -> Option<&PrimitiveArray<i8>>
        ensures { IsInside kinds.Int8 one any.now (option_copied result) }
    {
        match &any.node {
            PrimitiveNode::Int8(array) => Some(array),
            _ => None,
        }
    }
}

impl PrimitiveKind for i16 {
    fn wrap(data_type: DataType, values: Buffer<i16>, validity: Option<Bitmap>) -> AnyPrimitive
        requires { IsFlat (physical.Primitive kinds.Int16) (flat data_type values validity) }
        ensures { result ≡ primitive_column kinds.Int16 one (flat data_type values validity) }
    {
        let array = PrimitiveArray::new(data_type, values, validity);
        primitive_is_sound(&array);
        AnyPrimitive {
            node: PrimitiveNode::Int16(array),
        }
    }

    fn unwrap(any: AnyPrimitive) -> Result<Parts<i16>, AnyPrimitive>
        ensures { MatchResult result (λ parts. ArePartsOf kinds.Int16 one any parts.0 parts.1 parts.2) (IsLeft kinds.Int16 any) }
    {
        match any.into_node() {
            PrimitiveNode::Int16(array) => Ok(array.into_inner()),
            node => Err(AnyPrimitive { node }),
        }
    }

    fn downcast_ref(any: &AnyPrimitive) -> Option<&PrimitiveArray<i16>>
        ensures { IsInside kinds.Int16 one any.now (option_copied result) }
    {
        match &any.node {
            PrimitiveNode::Int16(array) => Some(array),
            _ => None,
        }
    }
}

impl PrimitiveKind for i32 {
    fn wrap(data_type: DataType, values: Buffer<i32>, validity: Option<Bitmap>) -> AnyPrimitive
        requires { IsFlat (physical.Primitive kinds.Int32) (flat data_type values validity) }
        ensures { result ≡ primitive_column kinds.Int32 one (flat data_type values validity) }
    {
        let array = PrimitiveArray::new(data_type, values, validity);
        primitive_is_sound(&array);
        AnyPrimitive {
            node: PrimitiveNode::Int32(array),
        }
    }

    fn unwrap(any: AnyPrimitive) -> Result<Parts<i32>, AnyPrimitive>
        ensures { MatchResult result (λ parts. ArePartsOf kinds.Int32 one any parts.0 parts.1 parts.2) (IsLeft kinds.Int32 any) }
    {
        match any.into_node() {
            PrimitiveNode::Int32(array) => Ok(array.into_inner()),
            node => Err(AnyPrimitive { node }),
        }
    }

    fn downcast_ref(any: &AnyPrimitive) -> Option<&PrimitiveArray<i32>>
        ensures { IsInside kinds.Int32 one any.now (option_copied result) }
    {
        match &any.node {
            PrimitiveNode::Int32(array) => Some(array),
            _ => None,
        }
    }
}

impl PrimitiveKind for i64 {
    fn wrap(data_type: DataType, values: Buffer<i64>, validity: Option<Bitmap>) -> AnyPrimitive
        requires { IsFlat (physical.Primitive kinds.Int64) (flat data_type values validity) }
        ensures { result ≡ primitive_column kinds.Int64 one (flat data_type values validity) }
    {
        let array = PrimitiveArray::new(data_type, values, validity);
        primitive_is_sound(&array);
        AnyPrimitive {
            node: PrimitiveNode::Int64(array),
        }
    }

    fn unwrap(any: AnyPrimitive) -> Result<Parts<i64>, AnyPrimitive>
        ensures { MatchResult result (λ parts. ArePartsOf kinds.Int64 one any parts.0 parts.1 parts.2) (IsLeft kinds.Int64 any) }
    {
        match any.into_node() {
            PrimitiveNode::Int64(array) => Ok(array.into_inner()),
            node => Err(AnyPrimitive { node }),
        }
    }

    fn downcast_ref(any: &AnyPrimitive) -> Option<&PrimitiveArray<i64>>
        ensures { IsInside kinds.Int64 one any.now (option_copied result) }
    {
        match &any.node {
            PrimitiveNode::Int64(array) => Some(array),
            _ => None,
        }
    }
}

impl PrimitiveKind for i128 {
    fn wrap(data_type: DataType, values: Buffer<i128>, validity: Option<Bitmap>) -> AnyPrimitive
        requires { IsFlat (physical.Primitive kinds.Int128) (flat data_type values validity) }
        ensures { result ≡ primitive_column kinds.Int128 one (flat data_type values validity) }
    {
        let array = PrimitiveArray::new(data_type, values, validity);
        primitive_is_sound(&array);
        AnyPrimitive {
            node: PrimitiveNode::Int128(array),
        }
    }

    fn unwrap(any: AnyPrimitive) -> Result<Parts<i128>, AnyPrimitive>
        ensures { MatchResult result (λ parts. ArePartsOf kinds.Int128 one any parts.0 parts.1 parts.2) (IsLeft kinds.Int128 any) }
    {
        match any.into_node() {
            PrimitiveNode::Int128(array) => Ok(array.into_inner()),
            node => Err(AnyPrimitive { node }),
        }
    }

    fn downcast_ref(any: &AnyPrimitive) -> Option<&PrimitiveArray<i128>>
        ensures { IsInside kinds.Int128 one any.now (option_copied result) }
    {
        match &any.node {
            PrimitiveNode::Int128(array) => Some(array),
            _ => None,
        }
    }
}

impl PrimitiveKind for i256 {
    fn wrap(data_type: DataType, values: Buffer<i256>, validity: Option<Bitmap>) -> AnyPrimitive
        requires { IsFlat (physical.Primitive kinds.Int256) (flat data_type values validity) }
        ensures { result ≡ primitive_column kinds.Int256 one (flat data_type values validity) }
    {
        let array = PrimitiveArray::new(data_type, values, validity);
        primitive_is_sound(&array);
        AnyPrimitive {
            node: PrimitiveNode::Int256(array),
        }
    }

    fn unwrap(any: AnyPrimitive) -> Result<Parts<i256>, AnyPrimitive>
        ensures { MatchResult result (λ parts. ArePartsOf kinds.Int256 one any parts.0 parts.1 parts.2) (IsLeft kinds.Int256 any) }
    {
        match any.into_node() {
            PrimitiveNode::Int256(array) => Ok(array.into_inner()),
            node => Err(AnyPrimitive { node }),
        }
    }

    fn downcast_ref(any: &AnyPrimitive) -> Option<&PrimitiveArray<i256>>
        ensures { IsInside kinds.Int256 one any.now (option_copied result) }
    {
        match &any.node {
            PrimitiveNode::Int256(array) => Some(array),
            _ => None,
        }
    }
}

impl PrimitiveKind for u8 {
    fn wrap(data_type: DataType, values: Buffer<u8>, validity: Option<Bitmap>) -> AnyPrimitive
        requires { IsFlat (physical.Primitive kinds.UInt8) (flat data_type values validity) }
        ensures { result ≡ primitive_column kinds.UInt8 (λ x. one (pos x)) (flat data_type values validity) }
    {
        let array = PrimitiveArray::new(data_type, values, validity);
        primitive_is_sound(&array);
        AnyPrimitive {
            node: PrimitiveNode::UInt8(array),
        }
    }

    fn unwrap(any: AnyPrimitive) -> Result<Parts<u8>, AnyPrimitive>
        ensures { MatchResult result (λ parts. ArePartsOf kinds.UInt8 (λ x. one (pos x)) any parts.0 parts.1 parts.2) (IsLeft kinds.UInt8 any) }
    {
        match any.into_node() {
            PrimitiveNode::UInt8(array) => Ok(array.into_inner()),
            node => Err(AnyPrimitive { node }),
        }
    }

    fn downcast_ref(any: &AnyPrimitive) -> Option<&PrimitiveArray<u8>>
        ensures { IsInside kinds.UInt8 (λ x. one (pos x)) any.now (option_copied result) }
    {
        match &any.node {
            PrimitiveNode::UInt8(array) => Some(array),
            _ => None,
        }
    }
}

impl PrimitiveKind for u16 {
    fn wrap(data_type: DataType, values: Buffer<u16>, validity: Option<Bitmap>) -> AnyPrimitive
        requires { IsFlat (physical.Primitive kinds.UInt16) (flat data_type values validity) }
        ensures { result ≡ primitive_column kinds.UInt16 (λ x. one (pos x)) (flat data_type values validity) }
    {
        let array = PrimitiveArray::new(data_type, values, validity);
        primitive_is_sound(&array);
        AnyPrimitive {
            node: PrimitiveNode::UInt16(array),
        }
    }

    fn unwrap(any: AnyPrimitive) -> Result<Parts<u16>, AnyPrimitive>
        ensures { MatchResult result (λ parts. ArePartsOf kinds.UInt16 (λ x. one (pos x)) any parts.0 parts.1 parts.2) (IsLeft kinds.UInt16 any) }
    {
        match any.into_node() {
            PrimitiveNode::UInt16(array) => Ok(array.into_inner()),
            node => Err(AnyPrimitive { node }),
        }
    }

    fn downcast_ref(any: &AnyPrimitive) -> Option<&PrimitiveArray<u16>>
        ensures { IsInside kinds.UInt16 (λ x. one (pos x)) any.now (option_copied result) }
    {
        match &any.node {
            PrimitiveNode::UInt16(array) => Some(array),
            _ => None,
        }
    }
}

impl PrimitiveKind for u32 {
    fn wrap(data_type: DataType, values: Buffer<u32>, validity: Option<Bitmap>) -> AnyPrimitive
        requires { IsFlat (physical.Primitive kinds.UInt32) (flat data_type values validity) }
        ensures { result ≡ primitive_column kinds.UInt32 (λ x. one (pos x)) (flat data_type values validity) }
    {
        let array = PrimitiveArray::new(data_type, values, validity);
        primitive_is_sound(&array);
        AnyPrimitive {
            node: PrimitiveNode::UInt32(array),
        }
    }

    fn unwrap(any: AnyPrimitive) -> Result<Parts<u32>, AnyPrimitive>
        ensures { MatchResult result (λ parts. ArePartsOf kinds.UInt32 (λ x. one (pos x)) any parts.0 parts.1 parts.2) (IsLeft kinds.UInt32 any) }
    {
        match any.into_node() {
            PrimitiveNode::UInt32(array) => Ok(array.into_inner()),
            node => Err(AnyPrimitive { node }),
        }
    }

    fn downcast_ref(any: &AnyPrimitive) -> Option<&PrimitiveArray<u32>>
        ensures { IsInside kinds.UInt32 (λ x. one (pos x)) any.now (option_copied result) }
    {
        match &any.node {
            PrimitiveNode::UInt32(array) => Some(array),
            _ => None,
        }
    }
}

impl PrimitiveKind for u64 {
    fn wrap(data_type: DataType, values: Buffer<u64>, validity: Option<Bitmap>) -> AnyPrimitive
        requires { IsFlat (physical.Primitive kinds.UInt64) (flat data_type values validity) }
        ensures { result ≡ primitive_column kinds.UInt64 (λ x. one (pos x)) (flat data_type values validity) }
    {
        let array = PrimitiveArray::new(data_type, values, validity);
        primitive_is_sound(&array);
        AnyPrimitive {
            node: PrimitiveNode::UInt64(array),
        }
    }

    fn unwrap(any: AnyPrimitive) -> Result<Parts<u64>, AnyPrimitive>
        ensures { MatchResult result (λ parts. ArePartsOf kinds.UInt64 (λ x. one (pos x)) any parts.0 parts.1 parts.2) (IsLeft kinds.UInt64 any) }
    {
        match any.into_node() {
            PrimitiveNode::UInt64(array) => Ok(array.into_inner()),
            node => Err(AnyPrimitive { node }),
        }
    }

    fn downcast_ref(any: &AnyPrimitive) -> Option<&PrimitiveArray<u64>>
        ensures { IsInside kinds.UInt64 (λ x. one (pos x)) any.now (option_copied result) }
    {
        match &any.node {
            PrimitiveNode::UInt64(array) => Some(array),
            _ => None,
        }
    }
}

impl PrimitiveKind for days_ms {
    fn wrap(data_type: DataType, values: Buffer<days_ms>, validity: Option<Bitmap>) -> AnyPrimitive
        requires { IsFlat (physical.Primitive kinds.DaysMs) (flat data_type values validity) }
        ensures { result ≡ primitive_column kinds.DaysMs (λ x. two x.0 x.1) (flat data_type values validity) }
    {
        let array = PrimitiveArray::new(data_type, values, validity);
        primitive_is_sound(&array);
        AnyPrimitive {
            node: PrimitiveNode::DaysMs(array),
        }
    }

    fn unwrap(any: AnyPrimitive) -> Result<Parts<days_ms>, AnyPrimitive>
        ensures { MatchResult result (λ parts. ArePartsOf kinds.DaysMs (λ x. two x.0 x.1) any parts.0 parts.1 parts.2) (IsLeft kinds.DaysMs any) }
    {
        match any.into_node() {
            PrimitiveNode::DaysMs(array) => Ok(array.into_inner()),
            node => Err(AnyPrimitive { node }),
        }
    }

    fn downcast_ref(any: &AnyPrimitive) -> Option<&PrimitiveArray<days_ms>>
        ensures { IsInside kinds.DaysMs (λ x. two x.0 x.1) any.now (option_copied result) }
    {
        match &any.node {
            PrimitiveNode::DaysMs(array) => Some(array),
            _ => None,
        }
    }
}

impl PrimitiveKind for months_days_ns {
    fn wrap(
        data_type: DataType,
        values: Buffer<months_days_ns>,
        validity: Option<Bitmap>,
    ) -> AnyPrimitive
        requires { IsFlat (physical.Primitive kinds.MonthDayNano) (flat data_type values validity) }
        ensures { result ≡ primitive_column kinds.MonthDayNano (λ x. three x.0 x.1 x.2) (flat data_type values validity) }
    {
        let array = PrimitiveArray::new(data_type, values, validity);
        primitive_is_sound(&array);
        AnyPrimitive {
            node: PrimitiveNode::MonthsDaysNs(array),
        }
    }

    fn unwrap(any: AnyPrimitive) -> Result<Parts<months_days_ns>, AnyPrimitive>
        ensures { MatchResult result (λ parts. ArePartsOf kinds.MonthDayNano (λ x. three x.0 x.1 x.2) any parts.0 parts.1 parts.2)
            (IsLeft kinds.MonthDayNano any) }
    {
        match any.into_node() {
            PrimitiveNode::MonthsDaysNs(array) => Ok(array.into_inner()),
            node => Err(AnyPrimitive { node }),
        }
    }

    fn downcast_ref(any: &AnyPrimitive) -> Option<&PrimitiveArray<months_days_ns>>
        ensures { IsInside kinds.MonthDayNano (λ x. three x.0 x.1 x.2) any.now (option_copied result) }
    {
        match &any.node {
            PrimitiveNode::MonthsDaysNs(array) => Some(array),
            _ => None,
        }
    }
}
