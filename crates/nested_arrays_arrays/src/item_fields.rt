//! The field of a list's items.
ghost use Rattle.std.specs.Prelude.{◌≡◌, IfOk};
ghost use Rattle.nested_arrays_arrays.specs.ItemTypes.{item_field};

use nested_arrays_parts::columnar_memory::{Boxed, DataType, Field, Text};
use std::alloc::{AllocError, Global};

/// Items of a type, which are named "item" and may be null.
///
/// # Errors
/// The name or the field's place found no memory.
pub fn item_field(alloc: Global, data_type: DataType) -> Result<Boxed<Field>, AllocError>
    ensures { IfOk result (λ field. field ≡ item_field data_type) }
{
    let name = Text::from_str(alloc, "item")?;
    Boxed::new(alloc, Field::new(alloc, name, data_type, true))
}
