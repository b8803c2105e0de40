//! Columns are read from the fronts of what is left of a batch's nodes and buffers.
//!
//! Each function here does nothing: its contract is the law, which a caller has by calling it. The statements are in `specs/`.

ghost use Rattle.ipc_format_reading_laws.specs.Fronts.{ColumnsReadAtFronts, ColumnsHaveParts};

/// What stands before a column's nodes and buffers says nothing of it: a column of any type is read the same where they are taken off and it
/// stands at the fronts of what is left (Arrow IPC, "RecordBatch message").
pub fn columns_read_at_fronts()
    ensures { ColumnsReadAtFronts }
{}

/// A column that reads has all its nodes and buffers: as many as its type has in a batch of that version stand from its place on, children's
/// included (Arrow columnar format, "Buffer Listing for Each Layout").
pub fn columns_have_parts()
    ensures { ColumnsHaveParts }
{}
