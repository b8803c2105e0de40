//! Laws of slices.
ghost use Rattle.columnar_memory_buffer.specs.SliceLaws.{SlicesJoin, WindowsJoin};

/// A slice of a slice of a buffer is one slice, at the sum of the places.
#[tactic(auto, using(crate::proofs::Windows::windows_join))]
pub fn a_slice_of_a_sliced_buffer_is_one_slice<T>()
    ensures { WindowsJoin T }
{}

/// A slice of a slice of offsets is one slice, at the sum of the places.
#[tactic(auto, using(crate::proofs::Slices::slices_join))]
pub fn a_slice_of_sliced_offsets_is_one_slice()
    ensures { SlicesJoin }
{}
