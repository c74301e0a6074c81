// A store of six tables, each kept by an index of its own.
#![tactic(auto)]

ghost use Rattle.std.specs.Prelude.{◌≡◌, ℕ, ◌≤◌, List, [], length, is_ok};
ghost use Rattle.basis.specs.Lists.{numbered};
ghost use Rattle.cells.specs.declared.types.Cell.{Cell};
ghost use Rattle.stores.specs.Tables.{Built, Table, cell_of, stamp_of, matches, next_after};
ghost use Rattle.six_tables.specs.Indexes.{is_open, built_in};

use basis::Probed;
use cells::rows::Row;
use cells::types::Cell;
use stores::{BuildRefusal, Question};

pub mod store;

// One table: its rows, and a way to find them. What it has to keep stands in its type.
pub trait Index {
    ghost table: { Self → Table };

    // May a question about these rows (a column, a key and the row to begin behind) look at so many places?
    ghost costs: { List Built → ℕ → Cell → ℕ → ℕ → Type 0 };

    // Adds a row at the end. Refused, with nothing changed, exactly when the table holds its capacity.
    fn build(&mut self, row: Row, stamp: u64) -> Result<(), BuildRefusal>
        ensures after { table self.new ≡ built_in (table self.old) row stamp }
        ensures answer { is_ok result ≡ is_open (table self.old) };

    // How many rows it holds.
    fn count(&self) -> usize
        ensures value { result ≡ length (table self.now).rows };

    // A row's cell in a column, both counted from 1.
    fn cell(&self, row: usize, column: usize) -> Option<Cell>
        ensures value { result ≡ cell_of (numbered (table self.now).rows row) column };

    // A row's build number.
    fn stamp(&self, row: usize) -> Option<u64>
        ensures value { result ≡ stamp_of (numbered (table self.now).rows row) };

    // The least row above `after` whose cell in the column equals the key, and what finding it costs.
    fn probe(&self, question: Question) -> Probed<Option<usize>>
        ensures value { result.found ≡ next_after (matches question.column question.key) question.after (table self.now).rows }
        ensures cost { costs (table self.now).rows question.column question.key question.after result.visited };

    ghost within_room: { (x : Self) → (length (table x).rows ≤ (table x).room) × ((table x).room ≤ 1024) };

    // Where there is no row, nothing need be looked at.
    ghost free: { (column : ℕ) (key : Cell) (after : ℕ) → costs [] column key after 0 };
}
