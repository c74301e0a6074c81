// The interface of a store: the rows built of each table, and the questions that an engine asks about them.
#![tactic(auto)]

ghost use Rattle.std.specs.Prelude.{◌≡◌, true, List, length, codes, is_ok, Some};
ghost use Rattle.stores.specs.Tables.{Table, WithinRoom, count_at, stamp_at, cell_at, has_room, built, next_row};
ghost use Rattle.stores.specs.Laws.{StoreLaws};

use cells::rows::Row;
use cells::types::Cell;
use std::error::Error;
use std::fmt;

// Why a row is not built.
#[derive(Clone, Copy, Debug, PartialEq, Eq)]
pub enum BuildRefusal {
    // The table holds its capacity.
    Full,
}

impl fmt::Display for BuildRefusal {
    ghost output = { λ _. Some (codes "the table is full") };

    fn fmt<W: fmt::Write>(&self, f: &mut fmt::Formatter<W>) -> fmt::Result {
        match self {
            BuildRefusal::Full => write!(f, "the table is full"),
        }
    }
}

impl Error for BuildRefusal {}

// What `next` is asked of a table.
#[derive(Clone, Copy, Debug, PartialEq, Eq)]
pub struct Question {
    pub column: usize,
    pub key: Cell,
    pub after: usize,
}

// A store of six tables, 0 to 5. Its meaning is `tables`; there is no other table, so one above 5 is empty and full.
pub trait Store {
    ghost tables: { Self → List Table };

    // By hand: a caller has a table, a row and its number from three places, so a struct of them would be made for the call alone.
    // Adds a row at the end of a table. Refused, with nothing changed, exactly when the table holds its capacity.
    fn build(&mut self, table: usize, row: Row, stamp: u64) -> Result<(), BuildRefusal>
        ensures after { tables self.new ≡ built (tables self.old) table row stamp }
        ensures answer { is_ok result ≡ has_room (tables self.old) table };

    // How many rows a table holds.
    fn count(&self, table: usize) -> usize
        ensures value { result ≡ count_at (tables self.now) table };

    // By hand: a table, a row and a column are chosen anew for each cell, so a struct of them would be made for the call alone.
    // A row's cell in a column, both counted from 1.
    fn cell(&self, table: usize, row: usize, column: usize) -> Option<Cell>
        ensures value { result ≡ cell_at (tables self.now) table row column };

    // A row's build number.
    fn stamp(&self, table: usize, row: usize) -> Option<u64>
        ensures value { result ≡ stamp_at (tables self.now) table row };

    // By hand: the table is no part of a question, since an index of one table is asked the same.
    // The least row above `after` whose cell in the column equals the key.
    fn next(&mut self, table: usize, question: Question) -> Option<usize>
        ensures same { tables self.new ≡ tables self.old }
        ensures value { result ≡ next_row (tables self.old) table question.column question.key question.after };

    ghost six: { (s : Self) → length (tables s) ≡ 6 };

    ghost within_room: { (s : Self) → WithinRoom (tables s) };
}

// The laws of next and build hold. The contract is the theorem.
pub fn laws_hold() -> bool
    ensures value { result ≡ true }
    ensures law { StoreLaws }
{
    true
}
