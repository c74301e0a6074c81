// The calls on a heading.
ghost use Rattle.std.specs.Prelude.{◌≡◌, ◌<◌, [], ◌∷◌, ◌++◌, length, codes, decimal, is_ok, if◌then◌else◌, Some};
ghost use Rattle.basis.specs.Lists.{numbered};
ghost use Rattle.basis.specs.Questions.{first_no, answered};
ghost use Rattle.cells.specs.Headings.{columns, push_questions, refusal_number};

use crate::headings::{Heading, HeadingRefusal};
use crate::types::Kind;
use std::error::Error;
use std::fmt;

// A refusal's number.
impl From<HeadingRefusal> for u8 {
    ghost from_gives = { λ refusal number. number ≡ refusal_number refusal };

    fn from(refusal: HeadingRefusal) -> u8 {
        refusal as u8
    }
}

impl fmt::Display for HeadingRefusal {
    ghost output = { λ refusal. Some (codes "refused " ++ decimal (refusal_number refusal)) };

    fn fmt<W: fmt::Write>(&self, f: &mut fmt::Formatter<W>) -> fmt::Result {
        let number = u8::from(*self);
        write!(f, "refused {number}")
    }
}

impl Error for HeadingRefusal {}

impl Heading {
    // A heading with one column.
    pub fn new(first: Kind) -> Heading
        ensures value { columns result ≡ first ∷ [] }
    {
        Heading {
            kinds: [first; 6],
            len: 1,
        }
    }

    // One more column, unless there are six.
    pub fn push(&mut self, kind: Kind) -> Result<(), HeadingRefusal>
        ensures answer { answered refusal_number result ≡ first_no (push_questions (columns self.old)) }
        ensures after { columns self.new ≡ (if is_ok result then columns self.old ++ kind ∷ [] else columns self.old) }
    {
        if self.len >= 6 {
            return Err(HeadingRefusal::SeventhColumn);
        }
        self.kinds[self.len] = kind;
        self.len += 1;
        Ok(())
    }

    // The kinds of its columns, in order.
    pub fn columns(&self) -> &[Kind]
        ensures value { result.now ≡ columns self.now }
    {
        &self.kinds[..self.len]
    }

    // The kind of a column, counted from 1, if there is such a column.
    pub fn kind(&self, column: usize) -> Option<Kind>
        ensures value { result ≡ numbered (columns self.now) column }
    {
        basis::numbered(self.columns(), column)
    }
}
