// A row: up to six cells, plain data.
ghost use Rattle.std.specs.Prelude.{◌≡◌, ◌<◌, ◌≤◌, length, take, MatchOption};
ghost use Rattle.basis.specs.Lists.{numbered};
ghost use Rattle.cells.specs.Rows.{cells_of};

use crate::types::Cell;

// At most six cells; places behind `len` mean nothing.
// By hand: it is `Copy`, plain data that anyone may write, and the kit's `ArrayVec` is not.
#[derive(Clone, Copy, Debug)]
pub struct Row {
    pub cells: [Cell; 6],
    pub len: usize,
}

impl Row {
    // A row of no cells.
    pub const EMPTY: Row = Row {
        cells: [Cell::Number(0); 6],
        len: 0,
    };

    // A row of these cells, if there are at most six.
    // By hand: a `TryFrom` would name an error that says no more than None does.
    pub fn of(cells: &[Cell]) -> Option<Row>
        ensures value { MatchOption result (6 < length cells.now) (λ row. cells_of row ≡ cells.now) }
    {
        if cells.len() > 6 {
            return None;
        }
        let mut held = [Cell::Number(0); 6];
        held[..cells.len()].copy_from_slice(cells);
        Some(Row {
            cells: held,
            len: cells.len(),
        })
    }

    // Its cells.
    pub fn as_slice(&self) -> &[Cell]
        ensures value { result.now ≡ cells_of self.now }
        ensures fits { length result.now ≤ 6 }
    {
        &self.cells[..self.len.min(6)]
    }

    // The cell in a column, counted from 1, if the row has one.
    pub fn cell(&self, column: usize) -> Option<Cell>
        ensures value { result ≡ numbered (cells_of self.now) column }
    {
        basis::numbered(self.as_slice(), column)
    }
}
