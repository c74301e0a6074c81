// Prints how many places are looked at to drain the rows of one key, of 1,024 rows with few and with many equal keys.
#![tactic(auto)]

use basis::Probed;
use cells::rows::Row;
use cells::types::Cell;
use six_tables::Index;
use six_tables::store::SixTables;
use std::io;
use stores::{Question, Store};

const ROWS: usize = 1024;

// Fills table 0 with 1,024 rows that have so many keys, in turn.
fn fill<S: Store>(store: &mut S, keys: usize) {
    for i in 0..ROWS {
        let key = i.checked_rem(keys).unwrap_or(0);
        let row = Row {
            cells: [Cell::Number(key as i64); 6],
            len: 1,
        };
        let _ = store.build(0, row, i as u64);
    }
}

// Asks for the rows of the key 0 until there is none: how many were found, and how many places were looked at.
fn drain<T: Index>(store: &SixTables<T>) -> Probed<usize> {
    let mut question = Question {
        column: 1,
        key: Cell::Number(0),
        after: 0,
    };
    let mut visited: usize = 0;
    for found in 0..ROWS {
        let probed = store.probe(0, question);
        visited = visited.saturating_add(probed.visited);
        let Some(row) = probed.found else {
            return Probed { found, visited };
        };
        question.after = row;
    }
    Probed {
        found: ROWS,
        visited,
    }
}

// What draining the store comes to once it is filled.
fn drained<T: Index + Drop>(mut store: SixTables<T>, keys: usize) -> Probed<usize> {
    fill(&mut store, keys);
    drain(&store)
}

// Room for the rows in table 0, and for none in the others.
fn room(table: usize) -> usize {
    if table == 0 { ROWS } else { 0 }
}

fn main(rt: HostRuntime) -> io::Result<()> {
    let heap = rt.alloc();
    println!(rt; "1,024 rows; the rows of one key, drained")?;
    println!(rt; "keys rows hash sorted")?;
    for keys in [1024, 256, 64, 16, 4, 1] {
        let hash = SixTables::try_from_fn(|table| {
            hash_store::index::TableIndex::with_room(heap, room(table))
        })?;
        let sorted = SixTables::try_from_fn(|table| {
            sorted_store::index::TableIndex::with_room(heap, room(table))
        })?;
        let by_hash = drained(hash, keys);
        let by_order = drained(sorted, keys);
        println!(rt;
            "{keys} {} {} {}",
            by_hash.found, by_hash.visited, by_order.visited
        )?;
    }
    Ok(())
}
