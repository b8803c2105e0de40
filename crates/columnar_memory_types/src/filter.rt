ghost use Rattle.std.specs.Prelude.{◌≡◌, [], ◌∷◌, ◌++◌, if◌then◌else◌, IfOk, OnOk};
ghost use Rattle.std.specs.Borrow.{Bor};
ghost use Rattle.columnar_memory_types.specs.Kept.{KeptFrom};

use crate::Items;
use crate::data_type::Field;
use crate::schema::Schema;
use std::alloc::AllocError;

impl Schema {
    /// The schema with those columns alone for which the predicate is true of the column's number and
    /// the column.
    pub fn filter<F: Fn(usize, &Field) -> bool>(self, predicate: F) -> Result<Self, AllocError>
        requires { F.IsAlwaysCallable predicate }
        ensures metadata { IfOk result (λ schema. schema.metadata ≡ self.metadata) }
        ensures fields { IfOk result (λ schema. KeptFrom
            (λ k x b. (r : Bor _) × (r.now ≡ x) × F.post predicate k r b) 0 self.fields schema.fields) }
    {
        let Schema { fields, metadata } = self;
        let count = fields.len();
        let mut kept = Items::new(fields.allocator());
        let mut rest = fields.into_inner().into_iter();
        for index in 0..count {
            if let Some(field) = rest.next() {
                let is_wanted = predicate(index, &field);
                keep_if(&mut kept, field, is_wanted)?;
            }
        }
        Ok(Schema {
            fields: kept,
            metadata,
        })
    }
}

// Adds the column at the end where it is wanted, and else drops it.
fn keep_if(kept: &mut Items<Field>, field: Field, is_wanted: bool) -> Result<(), AllocError>
    ensures { OnOk result (kept.new ≡ kept.old ++ (if is_wanted then field ∷ [] else [])) }
{
    if is_wanted {
        kept.push(field)?;
    }
    Ok(())
}
