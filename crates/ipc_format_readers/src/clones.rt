//! Clones of what a file's footer says.
ghost use Rattle.std.specs.Prelude.{◌≡◌};

use crate::file_metadata::FileMetadata;
use std::alloc::AllocError;

impl Clone for FileMetadata {
    ghost is_clone = { λ a b. (b.schema ≡ a.schema) × (b.ipc_schema ≡ a.ipc_schema) × (b.blocks.items ≡ a.blocks.items)
        × (b.dictionaries.items ≡ a.dictionaries.items) × (b.size ≡ a.size) };

    /// An error is for want of memory.
    fn clone(&self) -> Result<Self, AllocError> {
        Ok(FileMetadata {
            schema: self.schema.clone()?,
            ipc_schema: self.ipc_schema.clone()?,
            blocks: self.blocks.clone()?,
            dictionaries: self.dictionaries.clone()?,
            size: self.size,
            one_form: self.one_form.clone()?,
        })
    }
}
