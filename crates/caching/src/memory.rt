// The memory of answers: recalling one, and forgetting what a build may have made wrong.
ghost use Rattle.std.specs.Prelude.{◌≡◌, [], ◌∷◌, map, is_some};
ghost use Rattle.caching.specs.Memory.{recalled, kept};

use crate::types::{Asked, Remembered};

// Does the place remember the question?
fn remembers(place: &Option<Remembered>, asked: &Asked) -> bool
    ensures value { result ≡ is_some (recalled (place.now ∷ []) asked.now) }
{
    place.is_some_and(|e| e.asked == *asked)
}

// The remembered answer to a question, if there is one.
pub(crate) fn recall(memory: &[Option<Remembered>], asked: &Asked) -> Option<Option<usize>>
    ensures value { result ≡ recalled memory.now asked.now }
{
    let place = memory.iter().find(|place| remembers(place, asked))?;
    place.map(|e| e.answer)
}

// Empties the places that remember none for the table.
pub(crate) fn forget(memory: &mut [Option<Remembered>], table: usize)
    ensures after { memory.new ≡ map (kept table) memory.old }
{
    for place in memory.iter_mut() {
        if place.is_some_and(|e| e.asked.table == table && e.answer.is_none()) {
            *place = None;
        }
    }
}
