// A new row, put in the chain of each of its cells behind the last row there. It takes the place behind the others.
ghost use Rattle.std.specs.Prelude.{◌≡◌, ℕ, ◌<◌, true, List, [], ◌∷◌, ◌++◌, length, ◌≢◌};
ghost use Rattle.cells.specs.Rows.{cells_of};
ghost use Rattle.stores.specs.Tables.{Built};
ghost use Rattle.hash_store.specs.Buckets.{in_bucket};
ghost use Rattle.hash_store.specs.Chains.{rows_in, IsColumn, Chained, AllChained};

use crate::chain::Chain;
use crate::place::{Ends, Place};
use cells::rows::Row;

// Puts the next row in one chain.
fn chain_row(places: &mut [Place], ends: &mut [Ends; 384], chain: Chain)
    requires few { length places.old < 1024 }
    requires chained { Chained (rows_in places.old) places.old ends.old chain.column }
    ensures rows { rows_in places.new ≡ rows_in places.old }
    ensures filed { (r : Built) → in_bucket chain.column chain.bucket r ≡ true → Chained (rows_in places.old ++ r ∷ []) places.new ends.new chain.column }
    ensures others { (rows : List Built) (other : ℕ) → IsColumn other → (other ≢ chain.column) → Chained rows places.old ends.old other → Chained rows places.new ends.new other }
{
    let number = (places.len() + 1) as u16;
    let at = chain.slot();
    let Ends { head, tail } = ends[at];
    if tail == 0 {
        ends[at] = Ends {
            head: number,
            tail: number,
        };
    } else {
        ends[at] = Ends { head, tail: number };
        let last = &mut places[tail as usize - 1];
        last.links[chain.column - 1] = number;
    }
}

// Puts the next row in the chains of its cells.
pub(crate) fn file_row(places: &mut [Place], ends: &mut [Ends; 384], row: Row)
    requires few { length places.old < 1024 }
    requires chained { AllChained (rows_in places.old) places.old ends.old }
    ensures rows { rows_in places.new ≡ rows_in places.old }
    ensures filed { (r : Built) → r.cells ≡ cells_of row → AllChained (rows_in places.old ++ r ∷ []) places.new ends.new }
{
    for (c, x) in row.as_slice().iter().enumerate() {
        chain_row(places, ends, Chain::holding(c + 1, x));
    }
}
