// Expressions as prefix lists of items: the check of one, and its value over cells.
#![tactic(auto)]

ghost use Rattle.std.specs.Prelude.{◌≡◌, true, Decides};
ghost use Rattle.expressions.specs.Expressions.{TreeOfIsExact, WellFormed, well_formed, value_of};
ghost use Rattle.expressions.specs.Readings.{cells_read};

use cells::types::Cell;

mod evaluation;
pub mod types;

use types::{Column, Item};

const MOST_ITEMS: usize = 31;

const DEEPEST: u8 = 6;

// By hand: a query always sees a cell, so a column that does not exist reads as 0 (a rule of the project).
// The cell that is seen in a column; the number 0 where there is no such column.
pub fn cell_at(cells: &[[Cell; 6]; 6], column: Column) -> Cell
    ensures value { result ≡ cells_read cells.now column.table column.column }
{
    cells
        .get(column.table)
        .and_then(|row| basis::numbered(row, column.column))
        .unwrap_or(Cell::Number(0))
}

// The value of the expression that the items are, over these cells; None if they are not well formed.
pub fn value(items: &[Item], cells: &[[Cell; 6]; 6]) -> Option<i64>
    ensures value { result ≡ value_of (cells_read cells.now) items.now }
{
    if items.len() > MOST_ITEMS {
        return None;
    }
    let (value, rest) = evaluation::eval(items, DEEPEST, cells)?;
    rest.is_empty().then_some(value)
}

// Are the items an expression within the limits? They are if they have a value, whatever the cells.
pub fn well_formed(items: &[Item]) -> bool
    ensures value { result ≡ well_formed items.now }
    ensures law { Decides result (WellFormed items.now) }
{
    value(items, &[[Cell::Number(0); 6]; 6]).is_some()
}

// Items are the prefix form of at most one expression, and `tree_of` finds it.
pub fn tree_is_exact() -> bool
    ensures value { result ≡ true }
    ensures law { TreeOfIsExact }
{
    true
}
