// The evaluation of items by recursion, from the first on.
ghost use Rattle.std.specs.Prelude.{◌≡◌, ◌≤◌, length, MatchOption};
ghost use Rattle.expressions.specs.Evaluations.{Found, FoundTwo, NotFound, NotFoundTwo};
ghost use Rattle.expressions.specs.Readings.{cells_read, number_in};

use crate::cell_at;
use crate::types::{Column, Item};
use cells::types::Cell;

// By hand: what a query sees is a number always, 0 where there is none (a rule of the project).
// The number that a column sees; 0 where there is no such column.
fn number_at(cells: &[[Cell; 6]; 6], column: Column) -> i64
    ensures value { result ≡ number_in (cells_read cells.now column.table column.column) }
{
    match cell_at(cells, column) {
        Cell::Number(z) if cells::lawful_number(z) => z,
        _ => 0,
    }
}

// The value of the expression that the items begin with, its operators nested at most `deep` deep, and the items behind it.
// By hand: the items fall at each call and the cells stay, so a struct of both would be made for each call.
#[cycle(eval_eval_two)]
pub(crate) fn eval<'a>(
    items: &'a [Item],
    deep: u8,
    cells: &[[Cell; 6]; 6],
) -> Option<(i64, &'a [Item])>
    requires short { length items.now ≤ 31 }
    ensures value { MatchOption result (NotFound items.now deep) (λ p. Found (cells_read cells.now) items.now deep p.1.now p.0) }
{
    let (first, rest) = items.split_first()?;
    match *first {
        Item::Number(z) if cells::lawful_number(z) => Some((z, rest)),
        Item::Number(_) => None,
        Item::Column(column) => Some((number_at(cells, column), rest)),
        Item::Add => {
            let (a, b, rest) = eval_two(rest, deep, cells)?;
            Some((a + b, rest))
        }
        Item::Sub => {
            let (a, b, rest) = eval_two(rest, deep, cells)?;
            Some((a - b, rest))
        }
    }
}

// The values of an operator's two expressions, which the items begin with, and the items behind them.
#[cycle(eval_eval_two)]
fn eval_two<'a>(
    items: &'a [Item],
    deep: u8,
    cells: &[[Cell; 6]; 6],
) -> Option<(i64, i64, &'a [Item])>
    requires short { length items.now ≤ 31 }
    ensures value { MatchOption result (NotFoundTwo items.now deep) (λ p. FoundTwo (cells_read cells.now) items.now deep p.2.now p.0 p.1) }
{
    let deep = deep.checked_sub(1)?;
    let (a, rest) = eval(items, deep, cells)?;
    let (b, rest) = eval(rest, deep, cells)?;
    Some((a, b, rest))
}
