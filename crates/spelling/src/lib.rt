// Cells as bytes: each cell's spelling, and the exact reading of a spelling.
#![tactic(auto)]

ghost use Rattle.std.specs.Prelude.{◌≡◌, true, Some};
ghost use Rattle.basis.specs.Reading.{Exactly};
ghost use Rattle.cells.specs.Cells.{kind_of, lawful};
ghost use Rattle.spelling.specs.Spelling.{spelling, Wanted, OneSpelling};

mod naturals;
mod reads;
mod text;

use cells::types::Cell;
pub use reads::{read, read_code, read_number};
pub use text::calls::{spell, spell_number};
pub use text::{ShortText, Text};

// Spells the cell, and reads the bytes for its own kind.
pub fn reread(cell: &Cell) -> Option<Cell>
    ensures value { Exactly result (Wanted (kind_of cell.now) (spelling cell.now)) }
    ensures law { lawful cell.now ≡ true → result ≡ Some cell.now }
{
    let text = spell(cell);
    read(cell.kind(), text.as_slice())
}

// By hand: each function that states a theorem answers true, so that it has a body that can be turned.
// No two lawful cells of one kind are spelled alike.
pub fn one_spelling() -> bool
    ensures value { result ≡ true }
    ensures law { OneSpelling }
{
    true
}
