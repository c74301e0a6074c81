// The calls of a store, passed on to the index of the table.
ghost use Rattle.std.specs.Prelude.{◌≡◌, ℕ, ◌<◌, [], ◌∷◌, IfOk, IfErr, Ok, Err};
ghost use Rattle.stores.specs.Tables.{table_at, next_row};
ghost use Rattle.six_tables.specs.Stores.{tables_of, table_in, Made};
ghost use Rattle.std.proofs.Common.{rules};

use super::SixTables;
use crate::Index;
use basis::Probed;
use cells::rows::Row;
use cells::types::Cell;
use stores::{BuildRefusal, Question, Store};

impl<T: Index> SixTables<T> {
    // The store of these tables, 0 to 5.
    // By hand: six parameters for six fields, for the reason that stands at `SixTables`.
    pub fn of(t0: T, t1: T, t2: T, t3: T, t4: T, t5: T) -> SixTables<T>
        ensures value { tables_of T.Index.table result ≡ T.Index.table t0 ∷ T.Index.table t1 ∷ T.Index.table t2 ∷ T.Index.table t3 ∷ T.Index.table t4 ∷ T.Index.table t5 ∷ [] }
    {
        SixTables(t0, t1, t2, t3, t4, t5)
    }

    // The store of the tables that a function makes by their numbers; where one cannot be made, there is no store.
    pub fn try_from_fn<E, F: Fn(usize) -> Result<T, E>>(make: F) -> Result<SixTables<T>, E>
    where
        T: Drop,
        F: Drop,
        requires { F.IsAlwaysCallable make }
        ensures made { IfOk result (Made (λ table made. F.post make table (Ok made))) }
        ensures refused { IfErr result (λ e. (table : ℕ) × (table < 6) × F.post make table (Err e)) }
    {
        Ok(SixTables(make(0)?, make(1)?, make(2)?, make(3)?, make(4)?, make(5)?))
    }

    // The index of a table, if there is one.
    fn index(&self, table: usize) -> Option<&T>
        ensures value { table_in T.Index.table result ≡ table_at (tables_of T.Index.table self.now) table }
    {
        // By hand: fields have no `get`, and the array that has it was tried (`SixTables`).
        match table {
            0 => Some(&self.0),
            1 => Some(&self.1),
            2 => Some(&self.2),
            3 => Some(&self.3),
            4 => Some(&self.4),
            5 => Some(&self.5),
            _ => None,
        }
    }

    // What `next` answers, and how many places it looks at for that.
    pub fn probe(&self, table: usize, question: Question) -> Probed<Option<usize>>
        ensures value { result.found ≡ next_row (tables_of T.Index.table self.now) table question.column question.key question.after }
        ensures cost { T.Index.costs (table_at (tables_of T.Index.table self.now) table).rows question.column question.key question.after result.visited }
    {
        match self.index(table) {
            Some(index) => index.probe(question),
            None => Probed {
                found: None,
                visited: 0,
            },
        }
    }
}

impl<T: Index> Store for SixTables<T> {
    ghost tables = { tables_of T.Index.table };

    ghost six = { Prim.search rules };

    ghost within_room = { Prim.search rules };

    fn build(&mut self, table: usize, row: Row, stamp: u64) -> Result<(), BuildRefusal> {
        // By hand: a function that lends the index to build in is no plainer, since it has these six arms again.
        match table {
            0 => self.0.build(row, stamp),
            1 => self.1.build(row, stamp),
            2 => self.2.build(row, stamp),
            3 => self.3.build(row, stamp),
            4 => self.4.build(row, stamp),
            5 => self.5.build(row, stamp),
            _ => Err(BuildRefusal::Full),
        }
    }

    fn count(&self, table: usize) -> usize {
        self.index(table).map_or(0, |index| index.count())
    }

    fn cell(&self, table: usize, row: usize, column: usize) -> Option<Cell> {
        self.index(table)?.cell(row, column)
    }

    fn stamp(&self, table: usize, row: usize) -> Option<u64> {
        self.index(table)?.stamp(row)
    }

    fn next(&mut self, table: usize, question: Question) -> Option<usize> {
        self.probe(table, question).found
    }
}
