//! A caller of `ipc_format_values`, as the page CALLING.md of that crate has it.
ghost use Rattle.std.specs.Prelude.{◌≡◌, Some, IfOk};
ghost use Rattle.ipc_format.specs.messages.SchemaRefs.{field_view};
ghost use Rattle.ipc_format.specs.values.OwnedFields.{top_field_in};

use columnar_memory_types::Result;
use ipc_format::format::{Field, FieldRef, field_of};
use std::alloc::Global;

/// The field of a view, with the fields below it.
pub fn whole_field(alloc: Global, field: FieldRef<'_>) -> Result<Field>
    ensures { IfOk result (λ value. top_field_in (field_view field.entry) ≡ Some value) }
{
    field_of(alloc, field)
}
