// The calls on a store with a memory.
ghost use Rattle.std.specs.Prelude.{◌≡◌, map, replicate, is_ok, if◌then◌else◌, None};
ghost use Rattle.stores.specs.Tables.{has_room, built, next_row};
ghost use Rattle.caching.specs.Memory.{recalled, kept, remembered, turned, NotAsked};
ghost use Rattle.std.proofs.Common.{rules};

use crate::cache::Cached;
use crate::memory::{forget, recall};
use crate::types::{Asked, Remembered};
use cells::rows::Row;
use cells::types::Cell;
use stores::{BuildRefusal, Question, Store};

impl<S: Store> Cached<S> {
    // Over a store, with nothing remembered yet.
    pub fn over(inner: S) -> Cached<S>
        ensures inner { result.inner ≡ inner }
        ensures memory { result.memory ≡ replicate 32 None }
        ensures turn { result.turn ≡ 0 }
    {
        Cached {
            inner,
            memory: [None; 32],
            turn: 0,
        }
    }

    // The store below; what was remembered is let go.
    pub fn into_inner(self) -> S
        ensures value { result ≡ self.inner }
    {
        let Cached { inner, .. } = self;
        inner
    }
}

impl<S: Store> Store for Cached<S> {
    ghost tables = { λ s. S.Store.tables s.inner };

    ghost six = { Prim.search rules };

    ghost within_room = { Prim.search rules };

    fn build(&mut self, table: usize, row: Row, stamp: u64) -> Result<(), BuildRefusal>
        ensures after { S.Store.tables self.new.inner ≡ built (S.Store.tables self.old.inner) table row stamp }
        ensures answer { is_ok result ≡ has_room (S.Store.tables self.old.inner) table }
        ensures forgets { self.new.memory ≡ (if is_ok result then map (kept table) self.old.memory else self.old.memory) }
        ensures turn { self.new.turn ≡ self.old.turn }
    {
        self.inner.build(table, row, stamp)?;
        forget(&mut self.memory, table);
        Ok(())
    }

    // By hand: Rust has no delegation, so a layer passes on what it does not change.
    fn count(&self, table: usize) -> usize {
        self.inner.count(table)
    }

    fn cell(&self, table: usize, row: usize, column: usize) -> Option<Cell> {
        self.inner.cell(table, row, column)
    }

    fn stamp(&self, table: usize, row: usize) -> Option<u64> {
        self.inner.stamp(table, row)
    }

    fn next(&mut self, table: usize, question: Question) -> Option<usize>
        ensures same { S.Store.tables self.new.inner ≡ S.Store.tables self.old.inner }
        ensures value { result ≡ next_row (S.Store.tables self.old.inner) table question.column question.key question.after }
        ensures remembers { self.new.memory ≡ remembered self.old.memory self.old.turn (record { table = table; question = question }) result }
        ensures turn { self.new.turn ≡ turned self.old.memory self.old.turn (record { table = table; question = question }) }
        ensures spared { NotAsked (recalled self.old.memory (record { table = table; question = question })) self.new.inner self.old.inner }
    {
        let asked = Asked { table, question };
        if let Some(answer) = recall(&self.memory, &asked) {
            return answer;
        }
        let answer = self.inner.next(table, question);
        self.memory[self.turn] = Some(Remembered { asked, answer });
        self.turn = (self.turn + 1) % 32;
        answer
    }
}
