// Cells of either kind as keys: numbers before codes.
ghost use Rattle.std.specs.Prelude.{Some};
ghost use Rattle.keys.specs.Keys.{same_cell, less_cell, cell_hash};
ghost use Rattle.keys.specs.CellOrder.{same_cell_decides, cell_ordered};
ghost use Rattle.std.proofs.Common.{ap, rules};

use crate::Key;
use cells::types::Cell;

impl Key for Cell {
    ghost cell = { λ c. c };

    ghost within = { Some };

    ghost equals = { same_cell };

    ghost less = { less_cell };

    ghost hashed = { cell_hash };

    ghost holds = { Prim.search rules };

    ghost only = { Prim.search rules };

    ghost decides = { same_cell_decides };

    ghost ordered = { cell_ordered };

    ghost hashes = { λ a b e. ap cell_hash ((same_cell_decides a b).0 e) };

    ghost matches = { Prim.search rules };

    ghost agrees = { Prim.search rules };

    fn of(c: &Cell) -> Option<Cell> {
        Some(*c)
    }

    fn to_cell(self) -> Cell {
        self
    }

    fn same(&self, other: &Cell) -> bool {
        *self == *other
    }

    fn before(&self, other: &Cell) -> bool {
        // By hand: of `*self < *other` it stays open that the codes' arrays have twelve places.
        match (self, other) {
            (Cell::Number(a), Cell::Number(b)) => a < b,
            (Cell::Code(a), Cell::Code(b)) => a.before(b),
            (a, b) => a.kind() < b.kind(),
        }
    }

    fn hash(&self) -> u64 {
        match self {
            Cell::Number(z) => z.hash(),
            Cell::Code(c) => c.hash(),
        }
    }
}
