// A walk along a chain: from the row that a question begins behind to the first row that matches.
ghost use Rattle.std.specs.Prelude.{◌≡◌};
ghost use Rattle.stores.specs.Tables.{matches, next_after};
ghost use Rattle.hash_store.specs.Buckets.{cell_bucket, next_filed, begins_behind, visits};
ghost use Rattle.hash_store.specs.Chains.{row_in};
ghost use Rattle.hash_store.specs.Indexes.{table_of};

use super::TableIndex;
use crate::chain::Chain;
use crate::place::Place;
use basis::Probed;
use keys::Key;

// Does the place's cell in the column equal the key?
fn holds<K: Key>(p: &Place, column: usize, key: &K) -> bool
    ensures value { result ≡ matches column (K.cell key.now) (row_in p.now) }
{
    let cell = p.row.cell(column);
    cell.and_then(|x| K::of(&x)).is_some_and(|k| k.same(key))
}

impl TableIndex {
    // The first row that a question looks at, or 0: the link of the row `after`, if that is itself in the chain, else the head.
    // By hand: an Option would be no plainer, since links are 0 for none, and there is no place 0.
    #[inline(always)]
    fn start(&self, chain: Chain, after: usize) -> usize
        ensures value { result ≡ next_filed (table_of self.now).rows chain.column chain.bucket (begins_behind (table_of self.now).rows chain.column chain.bucket after) }
    {
        match self.place(after) {
            Some(p) if chain.has(p) => p.links[chain.column - 1] as usize,
            _ => self.ends[chain.slot()].head as usize,
        }
    }

    // Follows the links of the key's chain until a row above `after` matches.
    pub(super) fn walk<K: Key>(&self, chain: Chain, key: K, after: usize) -> Probed<Option<usize>>
        requires { chain.bucket ≡ cell_bucket (K.cell key) }
        ensures value { result.found ≡ next_after (matches chain.column (K.cell key)) after (table_of self.now).rows }
        ensures cost { result.visited ≡ visits (table_of self.now).rows chain.column (K.cell key) after }
    {
        // By hand: a chain over the links is no plainer, since it has to say how many it passed, found or not.
        let mut at = self.start(chain, after);
        let mut visited = 0;
        while let Some(p) = self.place(at) {
            visited += 1;
            if at > after && holds(p, chain.column, &key) {
                return Probed {
                    found: Some(at),
                    visited,
                };
            }
            at = p.links[chain.column - 1] as usize;
        }
        Probed {
            found: None,
            visited,
        }
    }
}
