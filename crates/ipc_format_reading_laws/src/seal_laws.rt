//! Laws of seals.
//!
//! Each function here does nothing: its contract is the law, which a caller has by calling it. The statements are in `specs/`.

ghost use Rattle.ipc_format_reading_laws.specs.SealLaws.{SealsReadBack, SealsTellTablesApart};

/// A seal is a stream of its table, whatever stands behind its end mark: it holds the rows in batches of the seal's size, the last one
/// shorter, and its table is the one that was sealed (docs/FORMAT.md, "What is written"). This is so for every table that may be sealed, in
/// batches of any size that may be asked for, where names, keys and values are UTF-8 and the keys of metadata ascend.
pub fn seals_read_back()
    ensures { SealsReadBack }
{}

/// Tables with one seal are one table, whichever batch sizes they were sealed with.
pub fn seals_tell_tables_apart()
    ensures { SealsTellTablesApart }
{}
