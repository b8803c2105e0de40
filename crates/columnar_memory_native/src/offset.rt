//! The integers that say where a list or a text begins.

ghost use Rattle.std.specs.Prelude.{◌≡◌, Bool, true, false, refl, if◌then◌else◌};
ghost use Rattle.columnar_memory_types.specs.declared.kinds.PrimitiveType.TheVariants as kinds;

use crate::index::Index;

/// An integer of which arrays of lists, bytes or texts store their offsets.
pub trait Offset: Index {
    ghost IS_LARGE: { Bool };

    /// Whether the offsets are those of the types named large, of 64 bits.
    const IS_LARGE: bool;

    // The two types by their kinds and their greatest values.
    ghost kind_law: { Self.PRIMITIVE ≡ (if IS_LARGE then kinds.Int64 else kinds.Int32) };

    ghost large_law: { Self.greatest ≡ (if IS_LARGE then 0x7fff_ffff_ffff_ffff else 0x7fff_ffff) };
}

impl Offset for i32 {
    ghost IS_LARGE = { false };

    const IS_LARGE: bool = false;

    ghost kind_law = { refl };

    ghost large_law = { refl };
}

impl Offset for i64 {
    ghost IS_LARGE = { true };

    const IS_LARGE: bool = true;

    ghost kind_law = { refl };

    ghost large_law = { refl };
}
