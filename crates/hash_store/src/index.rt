// One table's rows and the index over them.
ghost use Rattle.std.specs.Prelude.{◌≡◌, ◌≤◌, vec_len, vec_capacity};
ghost use Rattle.std.specs.Option.{option_copied};
ghost use Rattle.basis.specs.Lists.{numbered};
ghost use Rattle.hash_store.specs.Chains.{rows_in, AllChained, AllNarrow};

use crate::place::{Ends, Place};

pub mod calls;
mod walks;

// The places hold the rows, in building order, and grow within what the caller handed in. For each column and bucket, `ends` has
// the oldest row and the newest; the rows between are linked in the places.
// By hand: `room` is no length, but the limit that was asked for, which may be below what the places suffice for.
#[derive(Drop)]
pub struct TableIndex {
    places: Vec<Place>,
    ends: [Ends; 384],
    room: usize,
    ghost within: { (vec_len places ≤ room) × (room ≤ vec_capacity places) × (room ≤ 1024) },
    ghost chained: { ∥ AllChained (rows_in places.items) places.items ends ∥₁ },
    ghost narrow: { AllNarrow (rows_in places.items) },
}

impl TableIndex {
    // The place with a number, counted from 1, if there is one. It is lent, since it is long to copy for one of its words.
    fn place(&self, number: usize) -> Option<&Place>
        ensures value { option_copied result ≡ numbered self.now.places.items number }
    {
        self.places.get(number.checked_sub(1)?)
    }
}
