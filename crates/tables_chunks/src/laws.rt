//! Laws of the batches of a table: parts, choices and joins of them are those of the rows, and batches have the same rows exactly where their
//! columns are the same. Each function here does nothing: its contract is the law, which a caller has by calling it.
ghost use Rattle.tables_chunks.specs.Batches.{ChoicesHaveColumns, CutsAndChoicesCommute, CutsHaveParts, JoinsHaveBoth, RowsAreColumns};

/// A cut of batches has a range of their rows, in windows of the batches that have a row of it.
pub fn cuts_have_parts()
    ensures { CutsHaveParts }
{}

/// A choice of columns has the chosen values of each row, in the asked order.
pub fn choices_have_columns()
    ensures { ChoicesHaveColumns }
{}

/// The batches of two tables, one after another, have the rows of both.
#[tactic(auto, using(crate::proofs::JoinedBatches::joins_have_both))]
pub fn joins_have_both()
    ensures { JoinsHaveBoth }
{}

/// Cutting and then choosing gives the batches of choosing and then cutting, where a column is chosen.
#[tactic(auto, using(crate::proofs::ChosenBatches::cuts_and_choices_commute))]
pub fn cuts_and_choices_commute()
    ensures { CutsAndChoicesCommute }
{}

/// Batches of one width, with a column, have the same rows exactly where each column has the same slots, wherever they are divided.
#[tactic(auto, using(crate::proofs::ColumnsOfRows::rows_are_columns))]
pub fn rows_are_columns()
    ensures { RowsAreColumns }
{}
