// Each refusal of a draft and of a row, met at least once. A refused call changes nothing, so one draft serves for several.
use crate::{letter, pair, say, star};
use cells::types::Cell;
use expressions::types::{Column, Item};
use faults::Fault;
use query::drafts::Draft;
use query::types::{DraftError, Join, Refusal, Test};

const NUMBER: Column = Column {
    table: 0,
    column: 1,
};

const CODE: Column = Column {
    table: 0,
    column: 2,
};

const NONE: Column = Column {
    table: 0,
    column: 3,
};

const SECOND: Column = Column {
    table: 1,
    column: 1,
};

const NO_TABLE: Column = Column {
    table: 2,
    column: 1,
};

// The refusal that a draft answered with; a call that found no memory counts as granted.
fn refusal_of(answer: Result<(), DraftError>) -> Result<(), Refusal> {
    match answer {
        Err(DraftError::Refused(refusal)) => Err(refusal),
        _ => Ok(()),
    }
}

pub(crate) fn show_tables(rt: &HostRuntime) -> Result<(), Fault> {
    let heading = pair()?;
    let mut full = star(rt.alloc(), 6)?;
    say(rt, "a seventh table", full.add_table(heading, NUMBER, 1))?;
    let mut draft = star(rt.alloc(), 1)?;
    say(
        rt,
        "a new table joined by a column that it lacks",
        draft.add_table(heading, NUMBER, 3),
    )?;
    say(
        rt,
        "a new table joined by columns of two kinds",
        draft.add_table(heading, NUMBER, 2),
    )
}

fn join(left: Column, right: Column) -> Join {
    Join { left, right }
}

// Fills a draft of two tables up to ten joins.
fn fill_joins(draft: &mut Draft) -> Result<(), Fault> {
    for _ in 0..9 {
        draft.add_join(join(NUMBER, SECOND))?;
    }
    Ok(())
}

pub(crate) fn show_joins(rt: &HostRuntime) -> Result<(), Fault> {
    let mut draft = star(rt.alloc(), 2)?;
    say(
        rt,
        "a join to a table that there is not",
        draft.add_join(join(NUMBER, NO_TABLE)),
    )?;
    say(
        rt,
        "a join of a table with itself",
        draft.add_join(join(NUMBER, NUMBER)),
    )?;
    say(
        rt,
        "a join of columns of two kinds",
        draft.add_join(join(CODE, SECOND)),
    )?;
    fill_joins(&mut draft)?;
    say(rt, "an eleventh join", draft.add_join(join(NUMBER, SECOND)))
}

fn filter(draft: &mut Draft, left: &[Item]) -> Result<(), Refusal> {
    refusal_of(draft.add_filter(Test::AtMost, left, &[Item::Number(9)]))
}

fn fill_filters(draft: &mut Draft) {
    for _ in 0..8 {
        let _ = filter(draft, &[Item::Column(NUMBER)]);
    }
}

pub(crate) fn show_filters(rt: &HostRuntime) -> Result<(), Fault> {
    let mut draft = star(rt.alloc(), 1)?;
    say(
        rt,
        "a sum that lacks its second part",
        filter(&mut draft, &[Item::Add, Item::Number(1)]),
    )?;
    say(
        rt,
        "a code column in an expression",
        filter(&mut draft, &[Item::Column(CODE)]),
    )?;
    fill_filters(&mut draft);
    say(
        rt,
        "a ninth filter",
        filter(&mut draft, &[Item::Column(NUMBER)]),
    )
}

fn fill_shown(draft: &mut Draft) -> Result<(), Fault> {
    for _ in 0..6 {
        draft.show_code(CODE)?;
    }
    Ok(())
}

pub(crate) fn show_shown(rt: &HostRuntime) -> Result<(), Fault> {
    let mut draft = star(rt.alloc(), 1)?;
    say(
        rt,
        "a shown number out of range",
        refusal_of(draft.show_value(&[Item::Number(1_000_000_000_000)])),
    )?;
    say(
        rt,
        "a shown column that there is not",
        refusal_of(draft.show_code(NONE)),
    )?;
    fill_shown(&mut draft)?;
    say(
        rt,
        "a seventh shown thing",
        refusal_of(draft.show_value(&[Item::Number(1)])),
    )
}

pub(crate) fn show_rows(rt: &HostRuntime) -> Result<(), Fault> {
    let draft = star(rt.alloc(), 1)?;
    let five = Cell::Number(5);
    say(
        rt,
        "a row that fits",
        draft.accepts(0, &[five, letter(b'A')]),
    )?;
    say(
        rt,
        "a row of a table that there is not",
        draft.accepts(1, &[five, letter(b'A')]),
    )?;
    say(rt, "a row that is short", draft.accepts(0, &[five]))?;
    say(
        rt,
        "a row with an unlawful code",
        draft.accepts(0, &[five, letter(b'a')]),
    )?;
    say(
        rt,
        "a row with its kinds turned round",
        draft.accepts(0, &[letter(b'A'), five]),
    )
}
