// Trials: spellings, values and answers that are known beforehand, and each refusal of a heading, a draft and a row met.
#![tactic(auto)]

mod answers;
mod drafts;
mod spellings;
mod values;

use cells::headings::{Heading, HeadingRefusal};
use cells::types::{Cell, Code, Kind};
use expressions::types::Column;
use faults::Fault;
use query::drafts::Draft;
use std::alloc::Global;
use std::io::Write;

// Prints what was tried, and the number that it was refused with; 0 if it was granted.
// By hand: the program prints 0 for a granted call, and what it prints may not change (a rule of the project).
fn say<E>(rt: &HostRuntime, what: &str, answer: Result<(), E>) -> Result<(), Fault>
where
    u8: From<E>,
{
    let number = answer.map_or_else(u8::from, |()| 0);
    println!(rt; "{what}: {number}")?;
    Ok(())
}

// A code of one letter.
fn letter(byte: u8) -> Cell {
    Cell::Code(Code {
        bytes: [byte, 0, 0, 0, 0, 0, 0, 0, 0, 0, 0, 0],
        len: 1,
    })
}

// A heading with a number column and a code column.
fn pair() -> Result<Heading, HeadingRefusal> {
    let mut heading = Heading::new(Kind::Number);
    heading.push(Kind::Code)?;
    Ok(heading)
}

// A draft of n tables, each joined to the first by its number column.
fn star(heap: Global, n: usize) -> Result<Draft, Fault> {
    let heading = pair()?;
    let mut draft = Draft::new(heap, heading)?;
    for _ in 1..n {
        draft.add_table(
            heading,
            Column {
                table: 0,
                column: 1,
            },
            1,
        )?;
    }
    Ok(draft)
}

fn show_refusals(rt: &HostRuntime) -> Result<(), Fault> {
    let mut heading = Heading::new(Kind::Number);
    for _ in 0..5 {
        heading.push(Kind::Code)?;
    }
    say(rt, "a seventh column", heading.push(Kind::Code))?;
    drafts::show_tables(rt)?;
    drafts::show_joins(rt)?;
    drafts::show_filters(rt)?;
    drafts::show_shown(rt)?;
    drafts::show_rows(rt)
}

fn show_answer(rt: &HostRuntime) -> Result<(), Fault> {
    println!(rt; "two equal rows in each of two joined tables:")?;
    let lines = answers::twice_two(rt.alloc())?;
    rt.stdout().write_all(&lines)?;
    Ok(())
}

fn run(rt: &HostRuntime) -> Result<(), Fault> {
    spellings::show(rt)?;
    values::show(rt)?;
    show_refusals(rt)?;
    show_answer(rt)
}

fn main(rt: HostRuntime) -> anyhow::Result<()> {
    Ok(run(&rt)?)
}
