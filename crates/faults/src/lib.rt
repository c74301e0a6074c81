// What can end a program over this library: one error type, so that `?` serves for every call.
#![tactic(auto)]

ghost use Rattle.std.specs.Prelude.{◌≡◌};
ghost use Rattle.faults.specs.Texts.{fault_text};
ghost use Rattle.faults.specs.declared.Fault.TheVariants as fault;
ghost use Rattle.query.specs.declared.types.DraftError.TheVariants as draft;

use cells::headings::HeadingRefusal;
use query::types::{DraftError, Refusal};
use std::alloc::{AllocError, AllocFailed};
use std::error::Error;
use std::{fmt, io};

#[derive(Drop)]
pub enum Fault {
    Heading(HeadingRefusal),
    Draft(DraftError),
    Memory,
    Io(io::Error),
}

// By hand: the kit's derive writes a `From` with no contract, and a clause names the fault that each of these gives.
impl From<HeadingRefusal> for Fault {
    ghost from_gives = { λ refusal r. r ≡ fault.Heading refusal };

    fn from(refusal: HeadingRefusal) -> Fault {
        Fault::Heading(refusal)
    }
}

impl From<Refusal> for Fault {
    ghost from_gives = { λ refusal r. r ≡ fault.Draft (draft.Refused refusal) };

    fn from(refusal: Refusal) -> Fault {
        Fault::Draft(DraftError::Refused(refusal))
    }
}

impl From<DraftError> for Fault {
    ghost from_gives = { λ e r. r ≡ fault.Draft e };

    fn from(e: DraftError) -> Fault {
        Fault::Draft(e)
    }
}

impl From<AllocError> for Fault {
    ghost from_gives = { λ _ r. r ≡ fault.Memory };

    fn from(_e: AllocError) -> Fault {
        Fault::Memory
    }
}

impl<T: Drop> From<AllocFailed<T>> for Fault {
    ghost from_gives = { λ _ r. r ≡ fault.Memory };

    fn from(_e: AllocFailed<T>) -> Fault {
        Fault::Memory
    }
}

impl From<io::Error> for Fault {
    ghost from_gives = { λ e r. r ≡ fault.Io e };

    fn from(e: io::Error) -> Fault {
        Fault::Io(e)
    }
}

// The number that a call refused with, or what failed.
impl fmt::Display for Fault {
    ghost output = { fault_text };

    fn fmt<W: fmt::Write>(&self, f: &mut fmt::Formatter<W>) -> fmt::Result {
        match self {
            Fault::Heading(refusal) => write!(f, "{refusal}"),
            Fault::Draft(e) => write!(f, "{e}"),
            Fault::Memory => write!(f, "out of memory"),
            Fault::Io(e) => write!(f, "{e:?}"),
        }
    }
}

// By hand: a `main` that answers a fault prints it by `Debug`, and a reader wants the number there, not the names of the cases.
impl fmt::Debug for Fault {
    fn fmt<W: fmt::Write>(&self, f: &mut fmt::Formatter<W>) -> fmt::Result {
        write!(f, "{self}")
    }
}

impl Error for Fault {}
