// Codes as keys.
ghost use Rattle.std.specs.Prelude.{◌≡◌, fold};
ghost use Rattle.std.proofs.Common.{ap, rules};
ghost use Rattle.cells.specs.declared.types.Cell.TheVariants as cell;
ghost use Rattle.keys.specs.Keys.{code_in, same_code, less_code, ByText, code_hash, hash_step};
ghost use Rattle.keys.specs.CodeOrder.{same_code_decides, code_ordered};

use crate::Key;
use cells::types::{Cell, Code};

impl Key for Code {
    ghost cell = { cell.Code };

    ghost within = { code_in };

    ghost equals = { same_code };

    ghost less = { less_code };

    ghost hashed = { code_hash };

    ghost holds = { Prim.search rules };

    ghost only = { Prim.search rules };

    ghost decides = { same_code_decides };

    ghost ordered = { code_ordered };

    ghost hashes = { λ a b e. ap code_hash ((same_code_decides a b).0 e) };

    ghost matches = { Prim.search rules };

    ghost agrees = { Prim.search rules };

    fn of(c: &Cell) -> Option<Code> {
        match c {
            Cell::Number(_) => None,
            Cell::Code(code) => Some(*code),
        }
    }

    fn to_cell(self) -> Cell {
        Cell::Code(self)
    }

    fn same(&self, other: &Code) -> bool {
        *self == *other
    }

    // Out of line, so that a search by numbers stays small.
    #[inline(never)]
    fn before(&self, other: &Code) -> bool
        ensures value { result ≡ less_code self.now other.now }
        ensures law { ByText self.now other.now result }
    {
        // By hand: of `*self < *other` it stays open that both arrays have twelve places; a pair of both under `<` costs three times this.
        self.bytes
            .cmp(&other.bytes)
            .then_with(|| self.len.cmp(&other.len))
            .is_lt()
    }

    fn hash(&self) -> u64 {
        let weighed = |hash: u32, byte: &u8| hash.wrapping_mul(37).wrapping_add(u32::from(*byte));
        u64::from(self.bytes.iter().fold(0, weighed))
    }
}
