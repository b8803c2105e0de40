//! The one form of a schema.
ghost use Rattle.tables_rows.specs.Building.{MakesForm};

use columnar_memory_types::Schema;
use std::alloc::Global;
use tables_chunks::{Fault, normalised};

/// The one form of a schema. An error is for want of memory.
pub(crate) fn one_form(alloc: Global, schema: Schema) -> Result<Schema, Fault>
    ensures { MakesForm schema result }
{
    schema.whole();
    let normal = normalised(alloc, &schema);
    drop(schema);
    Ok(normal?)
}
