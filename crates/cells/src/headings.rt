// A heading: 1 to 6 columns, counted from 1, each with a kind.
ghost use Rattle.std.specs.Prelude.{◌≡◌, ◌≤◌, length};

use crate::types::Kind;

pub mod calls;

// By hand: it is `Copy`, and the kit's `ArrayVec` is not; seen as a list by a `Model`, it would no longer tell a draft's law how long it is.
#[derive(Clone, Copy, Debug)]
pub struct Heading {
    kinds: [Kind; 6],
    len: usize,
    ghost some: { 1 ≤ len },
    ghost few: { len ≤ 6 },
    ghost places: { length kinds ≡ 6 },
}

// Why a column is not added.
#[derive(Clone, Copy, Debug, PartialEq, Eq)]
pub enum HeadingRefusal {
    SeventhColumn = 9,
}
