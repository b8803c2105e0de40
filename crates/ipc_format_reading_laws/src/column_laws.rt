//! What is written of stored columns reads back.
//!
//! The function here does nothing: its contract is the law, which a caller has by calling it. The statement is in `specs/`.

ghost use Rattle.ipc_format_reading_laws.specs.StoredColumns.{StoredColumnsReadBack};

/// What is written, little-endian, of any range of a sound column of any type reads back as the slots of that range, wherever the column
/// stands in its batch: dictionaries, unions, maps and extensions, cut at both ends, with anything under nulls and unused dictionary
/// values (Arrow columnar format, "Physical Memory Layout").
pub fn stored_columns_read_back()
    ensures { StoredColumnsReadBack }
{}
