// Which rows are a table's, and why one is not.
ghost use Rattle.std.specs.Prelude.{◌≡◌, Some};
ghost use Rattle.cells.specs.Headings.{columns};
ghost use Rattle.query.specs.Questions.{refused_text};
ghost use Rattle.query.specs.Rows.{all_fit, row_refusal_number};

use crate::types::RowRefusal;
use cells::headings::Heading;
use cells::types::Cell;
use std::error::Error;
use std::fmt;

// Is every cell lawful and of its column's kind, as far as both go?
pub(crate) fn all_fit(heading: &Heading, cells: &[Cell]) -> bool
    ensures value { result ≡ all_fit (columns heading.now) cells.now }
{
    heading
        .columns()
        .iter()
        .zip(cells)
        .all(|(kind, cell)| cell.fits(*kind))
}

impl From<RowRefusal> for u8 {
    ghost from_gives = { λ refusal number. number ≡ row_refusal_number refusal };

    fn from(refusal: RowRefusal) -> u8 {
        refusal as u8
    }
}

impl fmt::Display for RowRefusal {
    ghost output = { λ refusal. Some (refused_text (row_refusal_number refusal)) };

    fn fmt<W: fmt::Write>(&self, f: &mut fmt::Formatter<W>) -> fmt::Result {
        let number = u8::from(*self);
        write!(f, "refused {number}")
    }
}

impl Error for RowRefusal {}
