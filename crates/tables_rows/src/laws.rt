//! Laws of seals. A caller has the law by calling its function, which does nothing.
ghost use Rattle.tables_rows.specs.SealLaws.{
  SealableTablesAreSealed,
  SealsAreCanonical,
  SealsAreSealedAgain,
  SealsOfChoicesAreOfTheWhole,
};

use tables_chunks::{choices_are_of_the_whole, seals_read_back, seals_tell_tables_apart};

/// Two tables that are sealed in batches of one size have the same bytes exactly where they have the same schema and the same rows, however
/// these are cut into batches, masked or keyed. This is so where names, keys and values are UTF-8 and the keys of metadata ascend.
pub fn seals_are_canonical()
    ensures { SealsAreCanonical }
{
    seals_tell_tables_apart();
}

/// The seal of a table that may be sealed, whose groups of rows fit their columns and whose messages are within their limits, is refused for
/// want of memory alone.
pub fn sealable_tables_are_sealed()
    ensures { SealableTablesAreSealed }
{}

/// A seal that is read and sealed again in batches of the same size has the same bytes: so a seal may be told from any other stream by sealing
/// what it holds.
pub fn seals_are_sealed_again()
    ensures { SealsAreSealedAgain }
{
    seals_read_back();
}

/// Where bytes read as a whole, the columns that are read of a choice under a limit of rows have the seal of the whole's chosen columns and first
/// rows.
pub fn seals_of_choices_are_of_the_whole()
    ensures { SealsOfChoicesAreOfTheWhole }
{
    choices_are_of_the_whole();
}
