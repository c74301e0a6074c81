// The overtime query: punches of more than 480 minutes, with the crew that made them.
use cells::headings::Heading;
use cells::types::Kind;
use expressions::types::{Column, Item};
use faults::Fault;
use query::drafts::Draft;
use query::types::Test;
use std::alloc::Global;

// Table 0 is the punches: a crew's code, the minute it came and the minute it left. Table 1 is the crews: a code and a size.
pub(crate) fn draft(heap: Global) -> Result<Draft, Fault> {
    let mut punch = Heading::new(Kind::Code);
    punch.push(Kind::Number)?;
    punch.push(Kind::Number)?;
    let mut crew = Heading::new(Kind::Code);
    crew.push(Kind::Number)?;
    let mut draft = Draft::new(heap, punch)?;
    draft.add_table(
        crew,
        Column {
            table: 0,
            column: 1,
        },
        1,
    )?;
    let came = Item::Column(Column {
        table: 0,
        column: 2,
    });
    let left = Item::Column(Column {
        table: 0,
        column: 3,
    });
    let day = Item::Number(480);
    draft.add_filter(Test::Less, &[day], &[Item::Sub, left, came])?;
    draft.show_code(Column {
        table: 1,
        column: 1,
    })?;
    draft.show_value(&[Item::Sub, Item::Sub, left, came, day])?;
    Ok(draft)
}

// What a table is called.
pub(crate) fn name_of(table: usize) -> &'static str {
    ["punch", "crew"].get(table).copied().unwrap_or("other")
}

// The kinds of a table's columns; none where there is no such table.
pub(crate) fn kinds_of(draft: &Draft, table: usize) -> &[Kind] {
    let heading = draft.headings().get(table);
    heading.map_or(&[], |heading| heading.columns())
}
