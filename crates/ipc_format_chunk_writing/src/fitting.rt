//! Whether dictionary ids fit the types of columns (Schema.fbs, `DictionaryEncoding`).
ghost use Rattle.std.specs.Prelude.{◌≡◌};
ghost use Rattle.ipc_format_batch_reading.specs.metadata.Views.{ids_views};
ghost use Rattle.ipc_format_chunk_writing.specs.Types.{ids_fit_columns};

use ipc_format_batch_reading::nested_arrays_core::AnyArray;
use ipc_format_batch_reading::streams::owned::writing::{none_fit, type_fits};
use ipc_format_batch_reading::{IpcField, first_beside};

/// Whether ids are as many as the columns, and fit each column's type.
pub(crate) fn ids_fit_columns(arrays: &[AnyArray], beside: &[IpcField]) -> bool
    ensures { result ≡ ids_fit_columns arrays.now (ids_views beside.now) }
{
    let Some((array, arrays)) = arrays.split_first() else {
        return none_fit(beside);
    };
    if beside.is_empty() {
        return false;
    }
    let here = first_beside(beside);
    if !type_fits(array.data_type(), here.own, here.below) {
        return false;
    }
    ids_fit_columns(arrays, here.others)
}
