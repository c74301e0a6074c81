// Overtime of a small day: rows are accepted or refused, and the nested loops answer the query.
#![tactic(auto)]

mod day;
mod draws;
mod overtime;
mod probes;
mod through;

use caching::cache::Cached;
use cells::rows::Row;
use cells::types::{Cell, Kind};
use counting::Counting;
use day::DAY;
use faults::Fault;
use query::drafts::Draft;
use six_tables::store::SixTables;
use std::alloc::{AllocError, Global};
use std::io::Write;
use through::Answered;

// Places for each table of a small day.
const PLACES: usize = 64;

// The cells that the words spell, each read for its column's kind, a number where there is none; None if a word spells no cell.
fn read_cells(heap: Global, kinds: &[Kind], words: &str) -> Result<Option<Vec<Cell>>, AllocError> {
    let mut cells = Vec::new(heap);
    for word in words.split(' ') {
        let kind = kinds.get(cells.len()).copied().unwrap_or(Kind::Number);
        let Some(cell) = spelling::read(kind, word.as_bytes()) else {
            return Ok(None);
        };
        cells.push(cell)?;
    }
    Ok(Some(cells))
}

// Keeps the row if the table accepts it, and says what became of it.
fn take_row(
    rt: &HostRuntime,
    draft: &Draft,
    tables: &mut [Vec<Row>],
    table: usize,
    words: &str,
) -> Result<(), Fault> {
    let name = overtime::name_of(table);
    let kinds = overtime::kinds_of(draft, table);
    let Some(cells) = read_cells(rt.alloc(), kinds, words)? else {
        println!(rt; "{name} {words}: spells no cell")?;
        return Ok(());
    };
    match draft.accepts(table, &cells) {
        Ok(()) => {
            if let (Some(row), Some(rows)) = (Row::of(&cells), tables.get_mut(table)) {
                rows.push(row)?;
                println!(rt; "{name} {words}: accepted")?;
            }
        }
        Err(refusal) => println!(rt; "{name} {words}: {refusal}")?,
    }
    Ok(())
}

fn run(rt: &HostRuntime) -> Result<(), Fault> {
    let heap = rt.alloc();
    let draft = overtime::draft(heap)?;
    let mut tables = Vec::new(heap);
    tables.push(Vec::new(heap))?;
    tables.push(Vec::new(heap))?;
    println!(rt; "Punches of more than 480 minutes, with their crews.")?;
    for (table, words) in DAY {
        take_row(rt, &draft, &mut tables, table, words)?;
    }
    println!(rt; "The pay lines, by nested loops:")?;
    let lines = nested_loops::answer(heap, &draft, &tables)?;
    rt.stdout().write_all(&lines)?;
    show_stores(
        rt,
        Answered {
            draft: &draft,
            tables: &tables,
            lines: &lines,
        },
    )?;
    draws::show(rt, 1)
}

// Answers the day once more through each kind of store, without a cache and with one: what a cache remembers, the store below is not asked.
fn show_stores(rt: &HostRuntime, day: Answered<'_>) -> Result<(), Fault> {
    let heap = rt.alloc();
    let hash = |_| hash_store::index::TableIndex::with_room(heap, PLACES);
    let sorted = |_| sorted_store::index::TableIndex::with_room(heap, PLACES);
    println!(rt; "Once more through each store:")?;
    let store = Counting::over(SixTables::try_from_fn(&hash)?);
    day.show(rt, "hash", store, |store| store)?;
    let store = Cached::over(Counting::over(SixTables::try_from_fn(&hash)?));
    day.show(rt, "hash, cached", store, |store| store.into_inner())?;
    let store = Counting::over(SixTables::try_from_fn(&sorted)?);
    day.show(rt, "sorted", store, |store| store)?;
    let store = Cached::over(Counting::over(SixTables::try_from_fn(&sorted)?));
    day.show(rt, "sorted, cached", store, |store| store.into_inner())
}

fn main(rt: HostRuntime) -> anyhow::Result<()> {
    Ok(run(&rt)?)
}
