// The kinds of key that an index is written for: numbers, codes, and cells of either kind.
#![tactic(auto)]

ghost use Rattle.std.specs.Prelude.{◌≡◌, ℕ, Bool, true, Some, Decides, Option};
ghost use Rattle.cells.specs.declared.types.Cell.{Cell};
ghost use Rattle.keys.specs.Keys.{same_cell, less_cell, is_key};
ghost use Rattle.keys.specs.Orders.{StrictOrder};

mod codes;
mod either;
mod numbers;

use cells::types::Cell;

// A kind of key: the cells that hold one, an equality, a strict total order and a hash.
pub trait Key: Copy {
    ghost cell: { Self → Cell };

    ghost within: { Cell → Option Self };

    ghost equals: { Self → Self → Bool };

    ghost less: { Self → Self → Bool };

    ghost hashed: { Self → ℕ };

    // The key that a cell holds.
    // By hand: a `TryFrom` would name an error that says no more than None does.
    fn of(c: &Cell) -> Option<Self>
        ensures value { result ≡ within c.now };

    // The cell that holds it.
    // By hand: the laws below speak of a function, and of an `Into<Cell>` a clause knows a relation alone.
    fn to_cell(self) -> Cell
        ensures value { result ≡ cell self };

    // By hand: with `Eq` and `Ord` as bounds, further laws would have to tie `==` and `<` to `equals` and `less`.
    // Are the two equal?
    fn same(&self, other: &Self) -> bool
        ensures value { result ≡ equals self.now other.now };

    // Does it come before the other?
    fn before(&self, other: &Self) -> bool
        ensures value { result ≡ less self.now other.now };

    // A number that equal keys share.
    // By hand: a derived hash has other values, and the printed costs of questions rest on these.
    fn hash(&self) -> u64
        ensures value { result ≡ hashed self.now };

    // The cell of a key holds that key, and no other cell does.
    ghost holds: { (k : Self) → within (cell k) ≡ Some k };

    ghost only: { (c : Cell) (k : Self) → within c ≡ Some k → c ≡ cell k };

    ghost decides: { (a b : Self) → Decides (equals a b) (a ≡ b) };

    ghost ordered: { StrictOrder less };

    // Equal keys have equal hashes.
    ghost hashes: { (a b : Self) → equals a b ≡ true → hashed a ≡ hashed b };

    // Cells are equal, and in order, as their keys are.
    ghost matches: { (c : Cell) (k : Self) → same_cell c (cell k) ≡ is_key equals (within c) k };

    ghost agrees: { (a b : Self) → less_cell (cell a) (cell b) ≡ less a b };
}
