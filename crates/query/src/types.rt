// What a query is made of, and why a draft refuses.
ghost use Rattle.std.specs.Prelude.{◌≡◌};
ghost use Rattle.query.specs.declared.types.DraftError.TheVariants.{Refused, Memory};

use expressions::types::{Column, Item};
use std::alloc::AllocError;

// Two columns of two tables are equal.
#[derive(Clone, Copy, Debug, PartialEq, Eq)]
pub struct Join {
    pub left: Column,
    pub right: Column,
}

// How a filter compares its two expressions.
#[derive(Clone, Copy, Debug, PartialEq, Eq)]
pub enum Test {
    Less,
    AtMost,
    Equal,
}

// A comparison that a combination of rows must pass.
#[derive(Debug, Drop)]
pub struct Filter {
    pub test: Test,
    pub left: Vec<Item>,
    pub right: Vec<Item>,
}

// A value on a line: an expression's, or a code column's.
#[derive(Debug, Drop)]
pub enum Shown {
    Value(Vec<Item>),
    Code(Column),
}

// The question of a draft that was met with no.
#[derive(Clone, Copy, Debug, PartialEq, Eq)]
pub enum Refusal {
    SeventhTable = 10,
    NoSuchColumn = 11,
    KindsDiffer = 12,
    EleventhJoin = 13,
    SameTable = 14,
    NinthFilter = 15,
    IllFormed = 16,
    WrongColumn = 17,
    SeventhShown = 18,
}

// A refusal, or want of memory.
#[derive(Clone, Copy, Debug, PartialEq, Eq)]
pub enum DraftError {
    Refused(Refusal),
    Memory,
}

impl From<Refusal> for DraftError {
    ghost from_gives = { λ refusal error. error ≡ Refused refusal };

    fn from(refusal: Refusal) -> DraftError {
        DraftError::Refused(refusal)
    }
}

impl From<AllocError> for DraftError {
    ghost from_gives = { λ _ error. error ≡ Memory };

    fn from(_e: AllocError) -> DraftError {
        DraftError::Memory
    }
}

// Why a row is not one of a table's.
#[derive(Clone, Copy, Debug, PartialEq, Eq)]
pub enum RowRefusal {
    NoSuchTable = 22,
    ColumnCount = 23,
    UnfitCell = 24,
}
