//! Laws of how many nodes and buffers written columns have.
ghost use Rattle.ipc_format_laws.specs.Counts.{ColumnCounts, BatchCounts, NextNumbers};

/// A column that is written from its slots has as many nodes and buffers as its type's layout says, where no union is below.
pub fn a_written_column_has_the_counts_of_its_type()
    ensures { ColumnCounts }
{}

/// The columns of a batch have as many nodes and buffers as their types, one after another.
pub fn a_written_batch_has_the_counts_of_its_fields()
    ensures { BatchCounts }
{}

/// One more field has its own nodes and buffers more.
pub fn one_more_field_adds_its_counts()
    ensures { NextNumbers }
{}
