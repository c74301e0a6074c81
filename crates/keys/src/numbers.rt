// Numbers as keys.
ghost use Rattle.std.specs.Prelude.{int_lt, unsigned_abs};
ghost use Rattle.cells.specs.declared.types.Cell.TheVariants as cell;
ghost use Rattle.keys.specs.Keys.{number_in, same_number};
ghost use Rattle.std.proofs.Common.{rules};

use crate::Key;
use cells::types::Cell;

impl Key for i64 {
    ghost cell = { cell.Number };

    ghost within = { number_in };

    ghost equals = { same_number };

    ghost less = { int_lt };

    ghost hashed = { unsigned_abs };

    ghost holds = { Prim.search rules };

    ghost only = { Prim.search rules };

    ghost decides = { Prim.search rules };

    ghost ordered = { Prim.search rules };

    ghost hashes = { Prim.search rules };

    ghost matches = { Prim.search rules };

    ghost agrees = { Prim.search rules };

    fn of(c: &Cell) -> Option<i64> {
        match c {
            Cell::Number(z) => Some(*z),
            Cell::Code(_) => None,
        }
    }

    fn to_cell(self) -> Cell {
        Cell::Number(self)
    }

    fn same(&self, other: &i64) -> bool {
        *self == *other
    }

    fn before(&self, other: &i64) -> bool {
        *self < *other
    }

    fn hash(&self) -> u64 {
        self.unsigned_abs()
    }
}
