// Cells and what is made of them: kinds, lawfulness, headings and rows.
#![tactic(auto)]

ghost use Rattle.std.specs.Prelude.{◌≡◌};
ghost use Rattle.cells.specs.Cells.{lawful_number, code_byte, lawful_code, lawful, kind_of, same_kind, fits, blank, read_cell};

pub mod headings;
pub mod rows;
pub mod types;

use types::{Cell, Code, Kind};

const LARGEST: i64 = 999_999_999_999;

// Is it a number that a cell may hold?
pub fn lawful_number(z: i64) -> bool
    ensures value { result ≡ lawful_number z }
{
    (-LARGEST..=LARGEST).contains(&z)
}

// Is it a byte that a code may hold?
pub fn code_byte(b: u8) -> bool
    ensures value { result ≡ code_byte b }
{
    matches!(b, b'A'..=b'Z' | b'0'..=b'9' | b'-')
}

fn lawful_code(c: &Code) -> bool
    ensures value { result ≡ lawful_code c.now }
{
    if !(1..=12).contains(&c.len) {
        return false;
    }
    let (text, rest) = c.bytes.split_at(usize::from(c.len));
    text.iter().all(|b| code_byte(*b)) && rest.iter().all(|b| *b == 0)
}

impl Cell {
    // What kind of cell it is.
    pub fn kind(&self) -> Kind
        ensures value { result ≡ kind_of self.now }
    {
        match self {
            Cell::Number(_) => Kind::Number,
            Cell::Code(_) => Kind::Code,
        }
    }

    // Is it lawful?
    pub fn is_lawful(&self) -> bool
        ensures value { result ≡ lawful self.now }
    {
        match self {
            Cell::Number(z) => lawful_number(*z),
            Cell::Code(c) => lawful_code(c),
        }
    }

    // Is it lawful and of this kind?
    pub fn fits(&self, kind: Kind) -> bool
        ensures value { result ≡ fits kind self.now }
    {
        self.kind() == kind && self.is_lawful()
    }
}

// What a column of this kind reads where it has no fitting cell.
fn blank(kind: Kind) -> Cell
    ensures value { result ≡ blank kind }
{
    match kind {
        Kind::Number => Cell::Number(0),
        Kind::Code => Cell::Code(Code {
            bytes: [b'0', 0, 0, 0, 0, 0, 0, 0, 0, 0, 0, 0],
            len: 1,
        }),
    }
}

// The cell that a query sees in a column: what is kept there if it fits the column's kind, else a blank.
pub fn read_cell(kind: Option<Kind>, kept: Option<Cell>) -> Cell
    ensures value { result ≡ read_cell kind kept }
{
    match (kind, kept) {
        (None, _) => blank(Kind::Number),
        (Some(k), Some(c)) if c.fits(k) => c,
        (Some(k), _) => blank(k),
    }
}
