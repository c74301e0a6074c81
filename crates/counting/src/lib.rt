// A test store, outside the product's path: it counts the questions that it is asked.
#![tactic(auto)]

ghost use Rattle.std.specs.Prelude.{◌≡◌, replicate, slice_index};
ghost use Rattle.stores.specs.Tables.{next_row};
ghost use Rattle.counting.specs.Counts.{one_more};
ghost use Rattle.std.proofs.Common.{rules};

use cells::rows::Row;
use cells::types::Cell;
use stores::{BuildRefusal, Question, Store};

// A store, and how often `next` was asked of each of its tables.
#[derive(Drop)]
pub struct Counting<S> {
    inner: S,
    asked: [u64; 6],
}

fn count_one(asked: &mut [u64], table: usize)
    ensures after { asked.new ≡ one_more asked.old table }
{
    // By hand: tried get_mut, and the proof didn't close: behind its borrow the elements are not known.
    if table < asked.len() {
        asked[table] = asked[table].saturating_add(1);
    }
}

impl<S: Store> Counting<S> {
    // Over a store, with nothing asked yet.
    pub fn over(inner: S) -> Counting<S>
        ensures inner { result.inner ≡ inner }
        ensures none { result.asked ≡ replicate 6 0 }
    {
        Counting {
            inner,
            asked: [0; 6],
        }
    }

    // How often `next` was asked of a table.
    pub fn asked(&self, table: usize) -> u64
        ensures value { result ≡ slice_index self.now.asked table }
    {
        self.asked.get(table).copied().unwrap_or(0)
    }
}

impl<S: Store> Store for Counting<S> {
    ghost tables = { λ s. S.Store.tables s.inner };

    ghost six = { Prim.search rules };

    ghost within_room = { Prim.search rules };

    // By hand: Rust has no delegation, so a layer passes on what it does not change.
    fn build(&mut self, table: usize, row: Row, stamp: u64) -> Result<(), BuildRefusal> {
        self.inner.build(table, row, stamp)
    }

    fn count(&self, table: usize) -> usize {
        self.inner.count(table)
    }

    fn cell(&self, table: usize, row: usize, column: usize) -> Option<Cell> {
        self.inner.cell(table, row, column)
    }

    fn stamp(&self, table: usize, row: usize) -> Option<u64> {
        self.inner.stamp(table, row)
    }

    fn next(&mut self, table: usize, question: Question) -> Option<usize>
        ensures same { S.Store.tables self.new.inner ≡ S.Store.tables self.old.inner }
        ensures value { result ≡ next_row (S.Store.tables self.old.inner) table question.column question.key question.after }
        ensures counted { self.new.asked ≡ one_more self.old.asked table }
    {
        count_one(&mut self.asked, table);
        self.inner.next(table, question)
    }
}
