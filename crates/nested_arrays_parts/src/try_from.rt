//! Arrays of one kind taken out of arrays without children, without memory: an array of another kind is given back.
ghost use Rattle.std.specs.Prelude.{◌≡◌, false, true, MatchResult};
ghost use Rattle.nested_arrays_flat.specs.columnar_memory.declared.PhysicalType.TheVariants as physical;
ghost use Rattle.nested_arrays_flat.specs.FlatColumns.{binary_column, boolean_column, text_column};
ghost use Rattle.nested_arrays_flat.specs.Taken.{Takes};
ghost use Rattle.nested_arrays_parts.specs.FlatLayouts.{is_of_numbers, lies_as, lies_well, TakesKind, TakesNumbers};

use crate::flats::{FlatArray, FlatNode};
use nested_arrays_flat::flat_arrays::{BinaryArray, BooleanArray, PrimitiveArray, Utf8Array};
use nested_arrays_flat::{AnyPrimitive, FixedSizeBinaryArray, NullArray, PrimitiveKind};

impl FlatNode {
    /// Hands to a proof how the array of a variant lies in memory.
    pub fn lies(&self)
        ensures { lies_well self.now ≡ true }
    {
        let _data_type = match self {
            FlatNode::Null(array) => array.data_type(),
            FlatNode::Boolean(array) => array.data_type(),
            FlatNode::Primitive(array) => array.data_type(),
            FlatNode::Binary(array) => array.data_type(),
            FlatNode::LargeBinary(array) => array.data_type(),
            FlatNode::FixedSizeBinary(array) => array.data_type(),
            FlatNode::Utf8(array) => array.data_type(),
            FlatNode::LargeUtf8(array) => array.data_type(),
        };
    }

    /// What this holds where it is numbers, else this.
    fn into_primitive(self) -> Result<AnyPrimitive, FlatNode>
        ensures { MatchResult result (λ inside. self ≡ FlatNode.Primitive inside) (λ node. (node ≡ self) × (is_of_numbers self ≡ false)) }
    {
        match self {
            FlatNode::Primitive(inside) => Ok(inside),
            node => Err(node),
        }
    }

    /// What this holds where it is nulls, else this.
    fn into_null(self) -> Result<NullArray, FlatNode>
        ensures { MatchResult result (λ inside. self ≡ FlatNode.Null inside) (λ node. (node ≡ self) × (lies_as self physical.Null ≡ false)) }
    {
        match self {
            FlatNode::Null(inside) => Ok(inside),
            node => Err(node),
        }
    }

    /// What this holds where it is booleans, else this.
    fn into_boolean(self) -> Result<BooleanArray, FlatNode>
        ensures { MatchResult result (λ inside. self ≡ FlatNode.Boolean inside) (λ node. (node ≡ self) × (lies_as self physical.Boolean ≡ false)) }
    {
        match self {
            FlatNode::Boolean(inside) => Ok(inside),
            node => Err(node),
        }
    }

    /// What this holds where it is byte strings with offsets of 32 bits, else this.
    fn into_binary(self) -> Result<BinaryArray<i32>, FlatNode>
        ensures { MatchResult result (λ inside. self ≡ FlatNode.Binary inside) (λ node. (node ≡ self) × (lies_as self physical.Binary ≡ false)) }
    {
        match self {
            FlatNode::Binary(inside) => Ok(inside),
            node => Err(node),
        }
    }

    /// What this holds where it is byte strings with offsets of 64 bits, else this.
    fn into_large_binary(self) -> Result<BinaryArray<i64>, FlatNode>
        ensures { MatchResult result (λ inside. self ≡ FlatNode.LargeBinary inside)
            (λ node. (node ≡ self) × (lies_as self physical.LargeBinary ≡ false)) }
    {
        match self {
            FlatNode::LargeBinary(inside) => Ok(inside),
            node => Err(node),
        }
    }

    /// What this holds where it is byte strings of one size, else this.
    fn into_fixed_size_binary(self) -> Result<FixedSizeBinaryArray, FlatNode>
        ensures { MatchResult result (λ inside. self ≡ FlatNode.FixedSizeBinary inside)
            (λ node. (node ≡ self) × (lies_as self physical.FixedSizeBinary ≡ false)) }
    {
        match self {
            FlatNode::FixedSizeBinary(inside) => Ok(inside),
            node => Err(node),
        }
    }

    /// What this holds where it is texts with offsets of 32 bits, else this.
    fn into_utf8(self) -> Result<Utf8Array<i32>, FlatNode>
        ensures { MatchResult result (λ inside. self ≡ FlatNode.Utf8 inside) (λ node. (node ≡ self) × (lies_as self physical.Utf8 ≡ false)) }
    {
        match self {
            FlatNode::Utf8(inside) => Ok(inside),
            node => Err(node),
        }
    }

    /// What this holds where it is texts with offsets of 64 bits, else this.
    fn into_large_utf8(self) -> Result<Utf8Array<i64>, FlatNode>
        ensures { MatchResult result (λ inside. self ≡ FlatNode.LargeUtf8 inside)
            (λ node. (node ≡ self) × (lies_as self physical.LargeUtf8 ≡ false)) }
    {
        match self {
            FlatNode::LargeUtf8(inside) => Ok(inside),
            node => Err(node),
        }
    }
}

impl TryFrom<FlatArray> for AnyPrimitive {
    type Error = FlatArray;

    ghost try_from_gives = { TakesNumbers };

    fn try_from(flat: FlatArray) -> Result<Self, FlatArray> {
        let node = flat.into_node();
        node.lies();
        match node.into_primitive() {
            Ok(array) => {
                let _data_type = array.data_type();
                Ok(array)
            }
            Err(node) => Err(FlatArray { node }),
        }
    }
}

impl<T: PrimitiveKind> TryFrom<FlatArray> for PrimitiveArray<T> {
    type Error = FlatArray;

    ghost try_from_gives = { Takes T.PRIMITIVE T.numbers };

    fn try_from(flat: FlatArray) -> Result<Self, FlatArray> {
        match AnyPrimitive::try_from(flat) {
            Ok(any) => match any.into_array::<T>() {
                Ok(array) => Ok(array),
                Err(any) => Err(FlatArray::from(any)),
            },
            Err(flat) => Err(flat),
        }
    }
}

impl TryFrom<FlatArray> for NullArray {
    type Error = FlatArray;

    ghost try_from_gives = { TakesKind (λ array. array) physical.Null };

    fn try_from(flat: FlatArray) -> Result<Self, FlatArray> {
        let node = flat.into_node();
        node.lies();
        match node.into_null() {
            Ok(array) => {
                let _data_type = array.data_type();
                Ok(array)
            }
            Err(node) => Err(FlatArray { node }),
        }
    }
}

impl TryFrom<FlatArray> for BooleanArray {
    type Error = FlatArray;

    ghost try_from_gives = { TakesKind boolean_column physical.Boolean };

    fn try_from(flat: FlatArray) -> Result<Self, FlatArray> {
        let node = flat.into_node();
        node.lies();
        match node.into_boolean() {
            Ok(array) => {
                let _data_type = array.data_type();
                Ok(array)
            }
            Err(node) => Err(FlatArray { node }),
        }
    }
}

impl TryFrom<FlatArray> for BinaryArray<i32> {
    type Error = FlatArray;

    ghost try_from_gives = { TakesKind binary_column physical.Binary };

    fn try_from(flat: FlatArray) -> Result<Self, FlatArray> {
        let node = flat.into_node();
        node.lies();
        match node.into_binary() {
            Ok(array) => {
                let _data_type = array.data_type();
                Ok(array)
            }
            Err(node) => Err(FlatArray { node }),
        }
    }
}

impl TryFrom<FlatArray> for BinaryArray<i64> {
    type Error = FlatArray;

    ghost try_from_gives = { TakesKind binary_column physical.LargeBinary };

    fn try_from(flat: FlatArray) -> Result<Self, FlatArray> {
        let node = flat.into_node();
        node.lies();
        match node.into_large_binary() {
            Ok(array) => {
                let _data_type = array.data_type();
                Ok(array)
            }
            Err(node) => Err(FlatArray { node }),
        }
    }
}

impl TryFrom<FlatArray> for FixedSizeBinaryArray {
    type Error = FlatArray;

    ghost try_from_gives = { TakesKind (λ array. array) physical.FixedSizeBinary };

    fn try_from(flat: FlatArray) -> Result<Self, FlatArray> {
        let node = flat.into_node();
        node.lies();
        match node.into_fixed_size_binary() {
            Ok(array) => {
                let _data_type = array.data_type();
                Ok(array)
            }
            Err(node) => Err(FlatArray { node }),
        }
    }
}

impl TryFrom<FlatArray> for Utf8Array<i32> {
    type Error = FlatArray;

    ghost try_from_gives = { TakesKind text_column physical.Utf8 };

    fn try_from(flat: FlatArray) -> Result<Self, FlatArray> {
        let node = flat.into_node();
        node.lies();
        match node.into_utf8() {
            Ok(array) => {
                let _data_type = array.data_type();
                Ok(array)
            }
            Err(node) => Err(FlatArray { node }),
        }
    }
}

impl TryFrom<FlatArray> for Utf8Array<i64> {
    type Error = FlatArray;

    ghost try_from_gives = { TakesKind text_column physical.LargeUtf8 };

    fn try_from(flat: FlatArray) -> Result<Self, FlatArray> {
        let node = flat.into_node();
        node.lies();
        match node.into_large_utf8() {
            Ok(array) => {
                let _data_type = array.data_type();
                Ok(array)
            }
            Err(node) => Err(FlatArray { node }),
        }
    }
}
