//! The law of slices.
ghost use Rattle.columnar_memory_bitmap.specs.BitSliceLaws.{BitSlicesJoin};

/// A slice of a slice of a bitmap is one slice, at the sum of the places.
#[tactic(auto, using(crate::proofs::BitSlices::ranges_join))]
pub fn a_slice_of_a_sliced_bitmap_is_one_slice()
    ensures { BitSlicesJoin }
{}
