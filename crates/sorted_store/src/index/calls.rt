// What a table's indexes are asked: build, count, cell, stamp and probe.
ghost use Rattle.std.specs.Prelude.{◌≡◌, ◌/◌, min, [], vec_len, IfOk};
ghost use Rattle.sorted_index.specs.Sorting.{Logarithmic};
ghost use Rattle.sorted_store.specs.Columns.{having};
ghost use Rattle.sorted_store.specs.Indexes.{table_of};
ghost use Rattle.sorted_store.specs.Indexed.{index_within};
ghost use Rattle.std.proofs.Common.{arith};

use super::TableIndex;
use crate::columns::Columns;
use crate::place::Place;
use basis::Probed;
use cells::rows::Row;
use cells::types::Cell;
use six_tables::Index;
use sorted_index::entry::Entry;
use std::alloc::{AllocError, Global};
use stores::{BuildRefusal, Question};

impl TableIndex {
    // An empty table for as many rows as wanted, at most 1,024, in places of its own.
    pub fn with_room(heap: Global, wanted: usize) -> Result<TableIndex, AllocError>
        ensures value { IfOk result (λ x. table_of x ≡ record { rows = []; room = min wanted 1024 }) }
    {
        let rows = wanted.min(1024);
        let places = vec![in heap; Place::EMPTY; rows]?;
        let entries = vec![in heap; Place::EMPTY_ENTRY; 6 * rows]?;
        Ok(TableIndex::new(wanted, places, entries))
    }

    // An empty table, with the least of the capacity wanted, 1,024 and the row places given: a row takes one place and six entries.
    pub fn new(wanted: usize, mut places: Vec<Place>, entries: Vec<Entry<Cell>>) -> TableIndex
        ensures value { table_of result ≡ record { rows = []; room = min wanted (min 1024 (min (vec_len places) (vec_len entries / 6))) } }
    {
        let given = places.len().min(entries.len() / 6);
        let room = wanted.min(given.min(1024));
        places.clear();
        let columns = Columns {
            entries,
            filled: [0; 6],
            room,
        };
        TableIndex { places, columns }
    }
}

impl Index for TableIndex {
    ghost table = { table_of };

    // A question is a binary search among the rows that have a cell in the column.
    ghost costs = { λ rows column key after visited. Logarithmic (having column rows) visited };

    ghost within_room = { λ x. index_within x };

    ghost free = { λ column key after. (omega arith, omega arith) };

    fn build(&mut self, row: Row, stamp: u64) -> Result<(), BuildRefusal> {
        if self.places.len() >= self.columns.room {
            return Err(BuildRefusal::Full);
        }
        self.places.push_reserved(Place { row, stamp });
        self.columns.add(row, self.places.len());
        Ok(())
    }

    // By hand: the other kind of index answers these three alike; a trait of lists of places would be longer than their three lines.
    fn count(&self) -> usize {
        self.places.len()
    }

    #[tactic(auto, using(crate::specs::Indexed::numbered_row))]
    fn cell(&self, row: usize, column: usize) -> Option<Cell> {
        self.place(row)?.row.cell(column)
    }

    fn stamp(&self, row: usize) -> Option<u64> {
        Some(self.place(row)?.stamp)
    }

    fn probe(&self, question: Question) -> Probed<Option<usize>> {
        self.columns.probe(question)
    }
}
