// A place for one row, and the ends of a chain of places.
use cells::rows::Row;
use cells::types::Cell;

// A row, its build number, and for each column the next newer row of its bucket, or 0.
// By hand: a link is 0 for none: the field is public, and an Option would make a place longer than its fixed memory.
#[derive(Clone, Copy)]
pub struct Place {
    pub row: Row,
    pub stamp: u64,
    pub links: [u16; 6],
}

impl Place {
    // What a caller fills its places with before it hands them in.
    pub const EMPTY: Place = Place {
        row: Row::EMPTY,
        stamp: 0,
        links: [0; 6],
    };
}

// The oldest row of a bucket and the newest, or 0.
// By hand: 0 is for none, as in the links that both are written to; an Option would double the 384 ends (fixed memory).
#[derive(Clone, Copy)]
pub(crate) struct Ends {
    pub head: u16,
    pub tail: u16,
}
