// A store with a memory of 32 answers.
ghost use Rattle.std.specs.Prelude.{◌≡◌, ◌<◌, length};
ghost use Rattle.std.specs.List.{AllByRecursion};
ghost use Rattle.caching.specs.Memory.{Right, all_right-prop};

use crate::types::Remembered;
use stores::Store;

pub mod calls;

// Every remembered answer is the one that the store below would give. `turn` is the place that is replaced next.
// By hand: nothing is allocated, so the places are an array, and `turn`, which clauses name, is the one to be replaced next.
#[derive(Drop)]
pub struct Cached<S: Store> {
    inner: S,
    memory: [Option<Remembered>; 32],
    turn: usize,
    ghost turns: { turn < 32 },
    ghost places: { length memory ≡ 32 },
    ghost right: { AllByRecursion (Right (S.Store.tables inner)) memory } by { all_right-prop (S.Store.tables inner) memory },
}
