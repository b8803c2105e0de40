ghost use Rattle.std.specs.Prelude.{◌≡◌, [], ◌↔◌, IsTrue};
ghost use Rattle.columnar_memory_types.specs.declared.data_type.Field.{out-Field};
ghost use Rattle.columnar_memory_types.specs.SchemaEquality.{same_schema, same_schema-per, same_schema-equivalence, same_schema-Decides};

use crate::data_type::{DataType, Field};
use crate::{Items, Metadata, Text};
use std::alloc::{AllocError, Global};
use std::hash::{Hash, Hasher};
use std::rc::Rc;

/// The columns of a table, in order.
#[derive(Debug, Drop, Hash)]
pub struct Schema {
    pub fields: Items<Field>,
    /// What else is said of the table.
    pub metadata: Metadata,
}

/// A schema with several owners.
pub type SchemaRef = Rc<Schema>;

impl Field {
    /// A column of which no more is said, which takes no memory.
    pub fn new(alloc: Global, name: Text, data_type: DataType, is_nullable: bool) -> Self
        ensures { result ≡ record { name = name; data_type = data_type; is_nullable = is_nullable; metadata = [] } }
    {
        Field {
            name,
            data_type,
            is_nullable,
            metadata: Metadata::new(alloc),
        }
    }

    /// The column with this in place of what else was said of it.
    pub fn with_metadata(self, metadata: Metadata) -> Self
        ensures { result ≡ record self { metadata = metadata } }
    {
        Field {
            name: self.name,
            data_type: self.data_type,
            is_nullable: self.is_nullable,
            metadata,
        }
    }

    pub fn data_type(&self) -> &DataType
        ensures { result.now ≡ (out-Field self.now).data_type }
    {
        &self.data_type
    }
}

impl Schema {
    /// The columns, with no more said of the table, which takes no memory.
    pub fn from_fields(fields: Items<Field>) -> Self
        ensures { result ≡ record { fields = fields; metadata = [] } }
    {
        let metadata = Metadata::new(fields.allocator());
        Schema { fields, metadata }
    }

    /// The columns with this in place of what else was said of the table.
    pub fn with_metadata(self, metadata: Metadata) -> Self
        ensures { result ≡ record self { metadata = metadata } }
    {
        Schema {
            fields: self.fields,
            metadata,
        }
    }
}

impl From<Vec<Field>> for Schema {
    ghost from_gives = { λ v schema. schema ≡ record { fields = v.items; metadata = [] } };

    fn from(fields: Vec<Field>) -> Self {
        Schema::from_fields(Items::from_vec(fields))
    }
}

impl PartialEq for Schema {
    ghost eq = { same_schema };

    ghost laws = { same_schema-per };

    fn eq(&self, other: &Self) -> bool
        ensures value { result ≡ same_schema self.now other.now }
        ensures exact { IsTrue result ↔ (self.now ≡ other.now) }
    {
        is_same_schema(self, other)
    }
}

impl Eq for Schema {
    ghost laws = { same_schema-equivalence };
}

fn is_same_schema(a: &Schema, b: &Schema) -> bool
    ensures { IsTrue result ↔ (a.now ≡ b.now) }
{
    a.fields == b.fields && a.metadata == b.metadata
}

#[derived]
impl Hash for Schema {
    ghost respects_eq = { λ x y h. Prim.cc ((same_schema-Decides x y).0 h) };
}

impl Clone for Schema {
    ghost is_clone = { λ a b. b ≡ a };

    fn clone(&self) -> Result<Self, AllocError> {
        Ok(Schema {
            fields: self.fields.clone()?,
            metadata: self.metadata.clone()?,
        })
    }
}
