// A row's cells put into the columns, and questions about a column.
ghost use Rattle.std.specs.Prelude.{◌≡◌, ℕ, suc, ◌+◌, ◌<◌, ◌≤◌, ◌≢◌, true, List, length, take, drop, slice_index, slice_set};
ghost use Rattle.basis.specs.Lists.{numbered};
ghost use Rattle.cells.specs.Rows.{cells_of};
ghost use Rattle.stores.specs.Tables.{Built, matches, next_after};
ghost use Rattle.sorted_index.specs.Sorting.{sorted, inserted, Logarithmic};
ghost use Rattle.sorted_store.specs.Columns.{cell_order, counted, with_cell, having, AllCounted};
ghost use Rattle.sorted_store.specs.Indexes.{column_in, Listed};

use super::Columns;
use basis::{Probed, numbered};
use cells::rows::Row;
use cells::types::Cell;
use sorted_index::entry::Entry;
use stores::Question;

// Puts an entry into its place among the n that begin at `from`, and takes the place behind them.
fn insert_at(entries: &mut [Entry<Cell>], from: usize, n: usize, entry: Entry<Cell>)
    requires { from + n < length entries.old }
    ensures here { sorted cell_order (take n (drop from entries.old)) ≡ true → take (n + 1) (drop from entries.new) ≡ inserted cell_order entry (take n (drop from entries.old)) }
    ensures below { (o m : ℕ) → o + m ≤ from → take m (drop o entries.new) ≡ take m (drop o entries.old) }
    ensures above { (o m : ℕ) → from + n < o → take m (drop o entries.new) ≡ take m (drop o entries.old) }
{
    sorted_index::insert(&mut entries[from..from + n + 1], entry);
}

impl Columns {
    // Puts an entry into the column c + 1, which is not full.
    fn insert(&mut self, c: usize, entry: Entry<Cell>)
        requires within { (c < 6) × (slice_index self.old.filled c < self.old.room) }
        ensures room { self.new.room ≡ self.old.room }
        ensures filled { self.new.filled ≡ slice_set self.old.filled c (slice_index self.old.filled c + 1) }
        ensures here { column_in self.new c ≡ inserted cell_order entry (column_in self.old c) }
        ensures others { (o : ℕ) → (o ≢ c) → column_in self.new o ≡ column_in self.old o }
    {
        let n = self.filled[c];
        insert_at(&mut self.entries, c * self.room, n, entry);
        self.filled[c] = n + 1;
    }

    // Puts the cells of a row into their columns, none of which is full.
    pub(crate) fn add(&mut self, row: Row, number: usize)
        requires few { (c : ℕ) → slice_index self.old.filled c < self.old.room }
        ensures room { self.new.room ≡ self.old.room }
        ensures after { (c : ℕ) → column_in self.new c ≡ with_cell (numbered (cells_of row) (suc c)) number (column_in self.old c) }
        ensures filled { (c : ℕ) → slice_index self.new.filled c ≡ counted (numbered (cells_of row) (suc c)) (slice_index self.old.filled c) }
    {
        for (c, key) in row.as_slice().iter().enumerate() {
            let entry = Entry {
                key: *key,
                row: number,
            };
            self.insert(c, entry);
        }
    }

    // The least row above `after` that has the key in the column. Where there is no such column, no row has a cell.
    pub(crate) fn probe(&self, question: Question) -> Probed<Option<usize>>
        ensures value { (rows : List Built) → Listed rows self.now → result.found ≡ next_after (matches question.column question.key) question.after rows }
        ensures cost { (rows : List Built) → AllCounted rows self.now.filled → Logarithmic (having question.column rows) result.visited }
    {
        let Question { column, key, after } = question;
        let Some(n) = numbered(&self.filled, column) else {
            return Probed {
                found: None,
                visited: 0,
            };
        };
        let from = (column - 1) * self.room;
        sorted_index::next(&self.entries[from..from + n], key, after)
    }
}
