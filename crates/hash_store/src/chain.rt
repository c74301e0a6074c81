// The chains that the rows of a table are in: for each column one for each bucket of cells.
ghost use Rattle.std.specs.Prelude.{◌≡◌, ◌<◌};
ghost use Rattle.hash_store.specs.Buckets.{cell_bucket, in_bucket};
ghost use Rattle.hash_store.specs.Chains.{row_in, slot, IsColumn};

use crate::place::Place;
use cells::types::Cell;
use keys::Key;

// The rows whose cell in the column, counted from 1, is of the bucket.
#[derive(Clone, Copy)]
pub(crate) struct Chain {
    pub column: usize,
    bucket: usize,
    ghost column_in: { IsColumn column },
    ghost small: { bucket < 64 },
}

// The bucket of a cell, one of 64.
fn bucket(x: &Cell) -> usize
    ensures value { result ≡ cell_bucket x.now }
    ensures small { result < 64 }
{
    (x.hash() % 64) as usize
}

impl Chain {
    // The chain of the rows that hold the cell in the column, and of those whose cell is in its bucket too.
    pub(crate) fn holding(column: usize, x: &Cell) -> Chain
        requires { IsColumn column }
        ensures column { result.column ≡ column }
        ensures bucket { result.bucket ≡ cell_bucket x.now }
    {
        Chain {
            column,
            bucket: bucket(x),
        }
    }

    // Where it has its ends.
    pub(crate) fn slot(self) -> usize
        ensures value { result ≡ slot self.column self.bucket }
        ensures within { result < 384 }
    {
        (self.column - 1) * 64 + self.bucket
    }

    // Is the row in a place one of its rows?
    pub(crate) fn has(self, p: &Place) -> bool
        ensures value { result ≡ in_bucket self.column self.bucket (row_in p.now) }
    {
        let cell = p.row.cell(self.column);
        cell.is_some_and(|x| bucket(&x) == self.bucket)
    }
}
