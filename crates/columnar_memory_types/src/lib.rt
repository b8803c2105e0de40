//! What the columnar crates speak of: errors, owners that a contract sees as what they hold, data types, fields and schemas, and the small
//! enums that name units and kinds of types.
//!
//! A `Vec`, a `String`, a `Box` or a map in a clause is also its capacity and its pointer, so two of the same content need not be the same
//! value. The owners leave that out: in a clause an [`Items`] is the list of its elements, a [`Boxed`] is the value in it, a [`Text`] is the
//! list of its bytes, and a [`Metadata`] is the list of its pairs in the order of their keys. So a type that is built of them is compared by
//! `≡` as data, and a clone may be said to equal its source.
#![tactic(auto)]

mod boxed;
mod clones;
mod data_type;
mod equality;
mod error;
mod extension;
mod filter;
mod items;
mod kinds;
mod metadata;
mod physical;
mod schema;
mod text;
mod units;
mod whole;

pub use boxed::Boxed;
pub use data_type::{DataType, Field};
pub use error::{Error, Result};
pub use extension::{EXTENSION_METADATA, EXTENSION_NAME, get_extension};
pub use items::Items;
pub use kinds::{IntegerType, PhysicalType, PrimitiveType};
pub use metadata::Metadata;
pub use schema::{Schema, SchemaRef};
pub use text::Text;
pub use units::{IntervalUnit, TimeUnit, UnionMode};
