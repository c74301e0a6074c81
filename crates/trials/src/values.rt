// The values of some expressions, and the limits of what is well formed.
use cells::types::Cell;
use expressions::types::{Column, Item};
use expressions::{value, well_formed};
use faults::Fault;
use std::array;

// n operators, each before what follows it, over n + 1 numbers.
fn nested(n: usize) -> [Item; 15] {
    array::from_fn(|i| if i < n { Item::Add } else { Item::Number(1) })
}

// 33 items that are the sum of four sums of a sum of two sums each, and of one number.
fn many() -> [Item; 33] {
    array::from_fn(|i| match i % 8 {
        0 | 1 | 2 | 5 if i < 32 => Item::Add,
        _ => Item::Number(1),
    })
}

fn word(yes: bool) -> &'static str {
    if yes { "well formed" } else { "refused" }
}

fn show_value(rt: &HostRuntime, name: &str, items: &[Item]) -> Result<(), Fault> {
    let mut cells = [[Cell::Number(0); 6]; 6];
    cells[0][1] = Cell::Number(540);
    cells[0][2] = Cell::Number(1030);
    match value(items, &cells) {
        Some(v) => println!(rt; "{name}: {v}")?,
        None => println!(rt; "{name}: no value")?,
    }
    Ok(())
}

pub(crate) fn show(rt: &HostRuntime) -> Result<(), Fault> {
    let came = Item::Column(Column {
        table: 0,
        column: 2,
    });
    let left = Item::Column(Column {
        table: 0,
        column: 3,
    });
    show_value(rt, "1030 - 540", &[Item::Sub, left, came])?;
    show_value(rt, "a sum of one", &[Item::Add, left])?;
    let deep = nested(7);
    let seven = word(well_formed(&deep));
    let six = word(well_formed(&deep[1..14]));
    println!(rt; "seven operators deep: {seven}; six: {six}")?;
    let mut long = many();
    let thirty_three = word(well_formed(&long));
    long[29] = Item::Number(1);
    let thirty_one = word(well_formed(&long[0..31]));
    println!(rt; "33 items: {thirty_three}; 31: {thirty_one}")?;
    Ok(())
}
