//! Copies of arrays without children and of offsets, which share the memory of what is stored.
ghost use Rattle.std.specs.Prelude.{◌≡◌};

use crate::flats::{FlatArray, FlatNode};
use crate::offsets::ListOffsets;
use std::alloc::AllocError;

impl Clone for FlatArray {
    ghost is_clone = { λ array copy. copy ≡ array };

    /// Shares the values and the marks, and copies the data type.
    fn clone(&self) -> Result<Self, AllocError> {
        let node = match &self.node {
            FlatNode::Null(array) => FlatNode::Null(array.clone()?),
            FlatNode::Boolean(array) => FlatNode::Boolean(array.clone()?),
            FlatNode::Primitive(array) => FlatNode::Primitive(array.clone()?),
            FlatNode::Binary(array) => FlatNode::Binary(array.clone()?),
            FlatNode::LargeBinary(array) => FlatNode::LargeBinary(array.clone()?),
            FlatNode::FixedSizeBinary(array) => FlatNode::FixedSizeBinary(array.clone()?),
            FlatNode::Utf8(array) => FlatNode::Utf8(array.clone()?),
            FlatNode::LargeUtf8(array) => FlatNode::LargeUtf8(array.clone()?),
        };
        Ok(FlatArray { node })
    }
}

impl Clone for ListOffsets {
    ghost is_clone = { λ offsets copy. copy ≡ offsets };

    /// Shares the offsets, and is refused only where the count of owners is at its greatest.
    fn clone(&self) -> Result<Self, AllocError> {
        match self {
            ListOffsets::Small(offsets) => Ok(ListOffsets::Small(offsets.clone()?)),
            ListOffsets::Large(offsets) => Ok(ListOffsets::Large(offsets.clone()?)),
        }
    }
}
