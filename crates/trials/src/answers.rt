// Answers by nested loops that are known beforehand.
use crate::{letter, star};
use cells::rows::Row;
use cells::types::Cell;
use expressions::types::{Column, Item};
use faults::Fault;
use query::drafts::Draft;
use std::alloc::Global;

// A row with the number 5 and a code of one letter.
fn five(byte: u8) -> Row {
    let none = Cell::Number(0);
    Row {
        cells: [Cell::Number(5), letter(byte), none, none, none, none],
        len: 2,
    }
}

// Shows the sum of the two numbers, and both codes.
fn show_all(draft: &mut Draft) -> Result<(), Fault> {
    let first = Item::Column(Column {
        table: 0,
        column: 1,
    });
    let second = Item::Column(Column {
        table: 1,
        column: 1,
    });
    draft.show_value(&[Item::Add, first, second])?;
    draft.show_code(Column {
        table: 0,
        column: 2,
    })?;
    draft.show_code(Column {
        table: 1,
        column: 2,
    })?;
    Ok(())
}

// Two equal rows in each of two joined tables.
pub(crate) fn twice_two(heap: Global) -> Result<Vec<u8>, Fault> {
    let mut draft = star(heap, 2)?;
    show_all(&mut draft)?;
    let mut tables = Vec::new(heap);
    for byte in [b'A', b'B'] {
        tables.push(Vec::from_slice(heap, &[five(byte); 2])?)?;
    }
    Ok(nested_loops::answer(heap, &draft, &tables)?)
}
