// How a number or a cell is spelled.
ghost use Rattle.std.specs.Prelude.{◌≡◌, ◌+◌, ◌≤◌, ◌++◌, [], length};
ghost use Rattle.std.specs.Fmt.{signed_decimal};
ghost use Rattle.cells.specs.Cells.{code_text};
ghost use Rattle.spelling.specs.Spelling.{text_of, spelling};

use crate::text::{ShortText, Text};
use cells::types::{Cell, Code};
use itoa::Buffer;

impl<const N: usize> ShortText<N> {
    // No bytes yet.
    pub fn new() -> ShortText<N>
        ensures value { text_of result ≡ [] }
    {
        ShortText {
            bytes: [0; N],
            len: 0,
        }
    }

    // Adds these bytes at the end.
    pub fn push_all(&mut self, bytes: &[u8])
        requires { length (text_of self.old) + length bytes.now ≤ N }
        ensures value { text_of self.new ≡ text_of self.old ++ bytes.now }
    {
        let end = self.len + bytes.len();
        let places = &mut self.bytes[..];
        places[self.len..end].copy_from_slice(bytes);
        self.len = end;
    }

    // The bytes that it holds.
    pub fn as_slice(&self) -> &[u8]
        ensures value { result.now ≡ text_of self.now }
    {
        &self.bytes[..self.len]
    }
}

impl Text {
    fn holding(text: &[u8]) -> Text
        requires { length text.now ≤ 20 }
        ensures value { text_of result ≡ text.now }
    {
        let mut held = Text::new();
        held.push_all(text);
        held
    }
}

// The number in decimal digits, with `-` before those of a negative one.
pub fn spell_number(z: i64) -> Text
    ensures value { text_of result ≡ signed_decimal z }
{
    Text::holding(Buffer::new().format(z).as_bytes())
}

// The code's text.
fn spell_code(code: &Code) -> Text
    ensures value { text_of result ≡ code_text code.now }
{
    Text::holding(&code.bytes[..usize::from(code.len).min(12)])
}

// The cell's spelling, also where the cell is not lawful.
pub fn spell(cell: &Cell) -> Text
    ensures value { text_of result ≡ spelling cell.now }
{
    match cell {
        Cell::Number(z) => spell_number(*z),
        Cell::Code(c) => spell_code(c),
    }
}
