// One table's rows and the indexes of its columns.
ghost use Rattle.std.specs.Prelude.{◌≡◌, ◌≤◌, vec_len, vec_capacity};
ghost use Rattle.std.specs.Option.{option_copied};
ghost use Rattle.basis.specs.Lists.{numbered};
ghost use Rattle.sorted_store.specs.Columns.{rows_in, AllCounted, AllListed};

use crate::columns::Columns;
use crate::place::Place;

pub mod calls;

// The places hold the rows, in building order, and grow within what the caller handed in. Each row is in the column of each of
// its cells.
#[derive(Drop)]
pub struct TableIndex {
    places: Vec<Place>,
    columns: Columns,
    ghost within: { (vec_len places ≤ columns.room) × (columns.room ≤ vec_capacity places) × (columns.room ≤ 1024) },
    ghost counted: { AllCounted (rows_in places.items) columns.filled },
    ghost listed: { AllListed (rows_in places.items) columns.entries.items columns.filled columns.room },
}

impl TableIndex {
    // The place with a number, counted from 1, if there is one. It is lent, since it is long to copy for one of its words.
    fn place(&self, number: usize) -> Option<&Place>
        ensures value { option_copied result ≡ numbered self.now.places.items number }
    {
        self.places.get(number.checked_sub(1)?)
    }
}
