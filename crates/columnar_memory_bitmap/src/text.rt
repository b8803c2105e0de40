use crate::{Bitmap, MutableBitmap};
use columnar_memory_bits::fmt;
use std::fmt::{Debug, Formatter, Result, Write};

/// The bits in their bytes, as `[0b______01]`.
impl Debug for Bitmap {
    fn fmt<W: Write>(&self, f: &mut Formatter<W>) -> Result {
        let (bytes, offset, len) = self.as_slice();
        fmt(bytes, offset, len, f)
    }
}

/// The bits in their bytes, as `[0b______01]`.
impl Debug for MutableBitmap {
    fn fmt<W: Write>(&self, f: &mut Formatter<W>) -> Result {
        fmt(self.as_slice(), 0, self.len(), f)
    }
}
