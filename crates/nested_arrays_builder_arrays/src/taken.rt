//! Arrays that are taken out of builders, which are left empty.
ghost use Rattle.std.specs.Prelude.{◌≡◌};
ghost use Rattle.nested_arrays_builder_arrays.specs.Taken.{IsTaken};

use crate::frozen::into_array;
use nested_arrays_builders::AnyMutableArray;
use nested_arrays_builders::arrays::AnyArray;
use nested_arrays_builders::columnar_memory::{Error, Result};
use std::alloc::Global;
use std::mem;
use std::rc::Rc;

/// The array of the slots of a builder, which is left empty, as a new one of its data type.
///
/// # Errors
/// `OutOfMemory`: the new builder or the array found no memory; the builder is left empty too.
pub(crate) fn as_array(builder: &mut AnyMutableArray, alloc: Global) -> Result<AnyArray>
    ensures { IsTaken builder.old builder.new (λ array. array) result }
{
    match AnyMutableArray::new(alloc, builder.data_type()) {
        Ok(fresh) => into_array(alloc, mem::replace(builder, fresh)),
        // a builder of the type stands here, so there was no memory for another
        Err(_) => {
            builder.truncate(0);
            Err(Error::OutOfMemory)
        }
    }
}

/// The array of the slots of a builder behind a count of owners; the builder is left empty, as a new one of its data type.
///
/// # Errors
/// `OutOfMemory`: the new builder, the array or the count found no memory; the builder is left empty too.
pub(crate) fn as_arc(builder: &mut AnyMutableArray, alloc: Global) -> Result<Rc<AnyArray>>
    ensures { IsTaken builder.old builder.new (λ counted. counted.value) result }
{
    let array = as_array(builder, alloc)?;
    Ok(Rc::new(alloc, array)?)
}
