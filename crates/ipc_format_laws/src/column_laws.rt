//! What is read of a schema is text.
//!
//! The function here does nothing: its contract is the law, which a caller has by calling it. The statement is in `specs/`.

ghost use Rattle.ipc_format_laws.specs.Texts.{SchemasReadHaveTexts};

/// The names, keys and values of a schema that was read are UTF-8, and the keys of its metadata ascend (Schema.fbs).
pub fn schemas_that_are_read_have_texts()
    ensures { SchemasReadHaveTexts }
{}
