// Kinds and cells: plain data, lawful or not.

// What a column holds.
#[derive(Clone, Copy, Debug, PartialEq, Eq, PartialOrd, Ord)]
pub enum Kind {
    Number,
    Code,
}

// A code: its bytes, with 0 behind its end.
// By hand: it is `Copy`, plain data that may be unlawful, and the kit's `ArrayVec` is not.
#[derive(Clone, Copy, Debug, PartialEq, Eq, PartialOrd, Ord)]
pub struct Code {
    pub bytes: [u8; 12],
    pub len: u8,
}

#[derive(Clone, Copy, Debug, PartialEq, Eq, PartialOrd, Ord)]
pub enum Cell {
    Number(i64),
    Code(Code),
}
