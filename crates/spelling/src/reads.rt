// The exact reading of a cell's spelling.
ghost use Rattle.basis.specs.Reading.{Exactly};
ghost use Rattle.cells.specs.declared.types.Cell.TheVariants as cell;
ghost use Rattle.spelling.specs.Spelling.{Spells, Wanted};

use crate::naturals::read_natural;
use cells::types::{Cell, Code, Kind};

// By hand: `parse` takes a `+`, a 0 in front and `-0` too, and to refuse those by spelling its number costs four times this.
// The number that the bytes spell.
pub fn read_number(s: &[u8]) -> Option<i64>
    ensures value { Exactly result (λ z. Spells s.now (cell.Number z)) }
{
    match s {
        [b'-', digits @ ..] => match read_natural(digits)? {
            0 => None,
            n => Some(-(n as i64)),
        },
        _ => read_natural(s).map(u64::cast_signed),
    }
}

// The code that the bytes spell.
pub fn read_code(s: &[u8]) -> Option<Code>
    ensures value { Exactly result (λ c. Spells s.now (cell.Code c)) }
{
    if s.len() > 12 {
        return None;
    }
    let mut bytes = [0u8; 12];
    bytes[..s.len()].copy_from_slice(s);
    let code = Code {
        bytes,
        len: s.len() as u8,
    };
    Cell::Code(code).is_lawful().then_some(code)
}

// By hand: bytes are read for a kind that is wanted, and a `TryFrom` has no place for that.
// The cell of this kind that the bytes spell, or else the one of the other kind.
pub fn read(kind: Kind, s: &[u8]) -> Option<Cell>
    ensures value { Exactly result (Wanted kind s.now) }
{
    match kind {
        Kind::Number => read_number(s)
            .map(Cell::Number)
            .or_else(|| read_code(s).map(Cell::Code)),
        Kind::Code => read_code(s)
            .map(Cell::Code)
            .or_else(|| read_number(s).map(Cell::Number)),
    }
}
