// The numbers of a draft's refusals, and what is printed of them.
ghost use Rattle.std.specs.Prelude.{◌≡◌, Some};
ghost use Rattle.query.specs.Questions.{refusal_number, refused_text, error_text};

use crate::types::{DraftError, Refusal};
use std::error::Error;
use std::fmt;

// By hand: `RowRefusal` has the same three impls, since Rust allows no `Display` for every type with a number, and the gate no impl by a macro.
impl From<Refusal> for u8 {
    ghost from_gives = { λ refusal number. number ≡ refusal_number refusal };

    fn from(refusal: Refusal) -> u8 {
        refusal as u8
    }
}

impl fmt::Display for Refusal {
    ghost output = { λ refusal. Some (refused_text (refusal_number refusal)) };

    fn fmt<W: fmt::Write>(&self, f: &mut fmt::Formatter<W>) -> fmt::Result {
        let number = u8::from(*self);
        write!(f, "refused {number}")
    }
}

impl Error for Refusal {}

impl fmt::Display for DraftError {
    ghost output = { λ error. Some (error_text error) };

    fn fmt<W: fmt::Write>(&self, f: &mut fmt::Formatter<W>) -> fmt::Result {
        match self {
            DraftError::Refused(refusal) => write!(f, "{refusal}"),
            DraftError::Memory => write!(f, "out of memory"),
        }
    }
}

impl Error for DraftError {}
