//! Tables one behind another.
ghost use Rattle.std.specs.Prelude.{◌≡◌, ◌↔◌, IsTrue};
ghost use Rattle.tables_chunks.specs.TableParts.{CanJoin, JoinsTables};

use crate::batches::add_clones;
use crate::fault::Fault;
use crate::table::{Table, has_schema_of};
use std::alloc::Global;

impl Table {
    /// Whether two tables have one schema, and their rows together fit 64 bits. No memory is taken.
    pub fn can_join(left: &Table, right: &Table) -> bool
        ensures { IsTrue result ↔ CanJoin left.now right.now }
    {
        has_schema_of(left, right) && right.rows() <= usize::MAX - left.rows()
    }

    /// The rows of the left table and then those of the right one, with no cell copied: the batches of both in order, empty ones too.
    /// `can_join` tests whether they may be joined.
    ///
    /// # Errors
    /// - `Memory`: there was no memory.
    pub fn join(alloc: Global, left: &Table, right: &Table) -> Result<Table, Fault>
        requires { CanJoin left.now right.now }
        ensures { JoinsTables left.now right.now result }
    {
        left.whole();
        right.whole();
        let schema = left.schema().clone()?;
        let mut batches = Vec::new(alloc);
        add_clones(&mut batches, left.batches())?;
        add_clones(&mut batches, right.batches())?;
        Ok(Table::made(schema, batches, left.rows() + right.rows()))
    }
}
