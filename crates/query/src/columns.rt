// What a draft's questions ask of columns.
ghost use Rattle.std.specs.Prelude.{◌≡◌, map};
ghost use Rattle.cells.specs.Headings.{columns};
ghost use Rattle.query.specs.Queries.{column_kind, item_fits, columns_fit};

use cells::headings::Heading;
use cells::types::Kind;
use expressions::types::{Column, Item};

// The kind of a column, if it exists.
pub(crate) fn column_kind(headings: &[Heading], c: Column) -> Option<Kind>
    ensures value { result ≡ column_kind (map columns headings.now) c }
{
    headings.get(c.table)?.kind(c.column)
}

fn item_fits(headings: &[Heading], item: Item) -> bool
    ensures value { result ≡ item_fits (map columns headings.now) item }
{
    match item {
        Item::Column(c) => column_kind(headings, c) == Some(Kind::Number),
        _ => true,
    }
}

// Does every column among the items exist, and is it a number column?
pub(crate) fn columns_fit(headings: &[Heading], items: &[Item]) -> bool
    ensures value { result ≡ columns_fit (map columns headings.now) items.now }
{
    items.iter().all(|item| item_fits(headings, *item))
}
