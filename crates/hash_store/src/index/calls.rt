// What a table's index is asked: build, count, cell, stamp and probe.
ghost use Rattle.std.specs.Prelude.{◌≡◌, min, [], vec_len, IfOk};
ghost use Rattle.std.proofs.Common.{sym};
ghost use Rattle.stores.specs.Tables.{matches, next_after};
ghost use Rattle.hash_store.specs.Buckets.{visits};
ghost use Rattle.hash_store.specs.Costs.{DrainLaw};
ghost use Rattle.hash_store.specs.Indexes.{table_of};
ghost use Rattle.hash_store.specs.Indexed.{index_within};
ghost use Rattle.hash_store.specs.Answering.{empty_visits};

use super::TableIndex;
use crate::adds::file_row;
use crate::chain::Chain;
use crate::place::{Ends, Place};
use basis::Probed;
use cells::rows::Row;
use cells::types::Cell;
use six_tables::Index;
use std::alloc::{AllocError, Global};
use stores::{BuildRefusal, Question};

impl TableIndex {
    // An empty table for as many rows as wanted, at most 1,024, in places of its own.
    pub fn with_room(heap: Global, wanted: usize) -> Result<TableIndex, AllocError>
        ensures value { IfOk result (λ x. table_of x ≡ record { rows = []; room = min wanted 1024 }) }
    {
        let places = vec![in heap; Place::EMPTY; wanted.min(1024)]?;
        Ok(TableIndex::new(wanted, places))
    }

    // An empty table in the places given, with the least of the capacity wanted, 1,024 and the places.
    pub fn new(wanted: usize, mut places: Vec<Place>) -> TableIndex
        ensures value { table_of result ≡ record { rows = []; room = min wanted (min 1024 (vec_len places)) } }
    {
        let room = wanted.min(places.len().min(1024));
        places.clear();
        TableIndex {
            places,
            ends: [Ends { head: 0, tail: 0 }; 384],
            room,
        }
    }
}

impl Index for TableIndex {
    ghost table = { table_of };

    // The places that a question looks at are those of `visits`.
    ghost costs = { λ rows column key after visited. visited ≡ visits rows column key after };

    ghost within_room = { λ x. index_within x };

    ghost free = { λ column key after. sym (empty_visits column key after) };

    fn build(&mut self, row: Row, stamp: u64) -> Result<(), BuildRefusal> {
        if self.places.len() >= self.room {
            return Err(BuildRefusal::Full);
        }
        file_row(&mut self.places, &mut self.ends, row);
        self.places.push_reserved(Place {
            row,
            stamp,
            links: [0; 6],
        });
        Ok(())
    }

    // By hand: the other kind of index answers these three alike; a trait of lists of places would be longer than their three lines.
    fn count(&self) -> usize {
        self.places.len()
    }

    fn cell(&self, row: usize, column: usize) -> Option<Cell> {
        self.place(row)?.row.cell(column)
    }

    fn stamp(&self, row: usize) -> Option<u64> {
        Some(self.place(row)?.stamp)
    }

    fn probe(&self, question: Question) -> Probed<Option<usize>>
        ensures value { result.found ≡ next_after (matches question.column question.key) question.after (table_of self.now).rows }
        ensures cost { result.visited ≡ visits (table_of self.now).rows question.column question.key question.after }
        ensures law { DrainLaw }
    {
        let Question { column, key, after } = question;
        if column == 0 || column > 6 {
            return Probed {
                found: None,
                visited: 0,
            };
        }
        let chain = Chain::holding(column, &key);
        match key {
            Cell::Number(z) => self.walk(chain, z, after),
            Cell::Code(c) => self.walk(chain, c, after),
        }
    }
}
