// A refusal by its number, and where one comes from.
ghost use Rattle.std.specs.Prelude.{◌≡◌, Some};
ghost use Rattle.query.specs.Questions.{refused_text};
ghost use Rattle.eddy.specs.declared.types.Refusal.TheVariants.{Row, TableFull};
ghost use Rattle.eddy.specs.Refusals.{refusal_number};

use crate::types::Refusal;
use query::types::RowRefusal;
use std::error::Error;
use std::fmt;
use stores::BuildRefusal;

// By hand: the kit's derive writes a `From` with no contract, and a clause names the refusal that each of these gives.
impl From<RowRefusal> for Refusal {
    ghost from_gives = { λ why refusal. refusal ≡ Row why };

    fn from(why: RowRefusal) -> Refusal {
        Refusal::Row(why)
    }
}

impl From<BuildRefusal> for Refusal {
    ghost from_gives = { λ _ refusal. refusal ≡ TableFull };

    fn from(why: BuildRefusal) -> Refusal {
        match why {
            BuildRefusal::Full => Refusal::TableFull,
        }
    }
}

impl From<Refusal> for u8 {
    ghost from_gives = { λ refusal number. number ≡ refusal_number refusal };

    fn from(refusal: Refusal) -> u8 {
        match refusal {
            Refusal::ForeignStore => 20,
            Refusal::SlipOut => 21,
            Refusal::Row(row) => u8::from(row),
            Refusal::Crowded => 25,
            Refusal::TableFull => 26,
            Refusal::NotComplete => 27,
            Refusal::OtherSlip => 28,
            Refusal::PlaceOutside => 29,
            Refusal::LineTooLong => 30,
        }
    }
}

impl fmt::Display for Refusal {
    ghost output = { λ refusal. Some (refused_text (refusal_number refusal)) };

    fn fmt<W: fmt::Write>(&self, f: &mut fmt::Formatter<W>) -> fmt::Result {
        let number = u8::from(*self);
        write!(f, "refused {number}")
    }
}

impl Error for Refusal {}
