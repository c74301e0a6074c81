// What some words are read as, for a number column and for a code column.
use cells::types::{Cell, Kind};
use faults::Fault;

const WORDS: [&str; 8] = [
    "12",
    "007",
    "-0",
    "b7",
    "999999999999",
    "-999999999999",
    "1000000000000",
    "ABCDEFGHIJKLM",
];

fn kind_of(cell: Option<Cell>) -> &'static str {
    match cell {
        Some(Cell::Number(_)) => "a number",
        Some(Cell::Code(_)) => "a code",
        None => "nothing",
    }
}

pub(crate) fn show(rt: &HostRuntime) -> Result<(), Fault> {
    for word in WORDS.iter() {
        let number = spelling::read(Kind::Number, word.as_bytes());
        let code = spelling::read(Kind::Code, word.as_bytes());
        let first = kind_of(number);
        let second = kind_of(code);
        println!(rt; "{word} for a number is {first}, for a code {second}")?;
    }
    Ok(())
}
