// The indexes of six columns in one Vec, each in a stretch of its own.
ghost use Rattle.std.specs.Prelude.{ℕ, ◌*◌, ◌≤◌, vec_len, slice_index};
ghost use Rattle.sorted_store.specs.Columns.{AllSorted};

use cells::types::Cell;
use sorted_index::entry::Entry;

mod calls;

// The column c + 1 has `room` of the entries from c * room on, of which the first `filled[c]` hold a row each, in order.
// By hand: the six columns share the one Vec that the caller hands in, so that a build allocates nothing.
#[derive(Drop)]
pub(crate) struct Columns {
    pub(crate) entries: Vec<Entry<Cell>>,
    pub(crate) filled: [usize; 6],
    pub(crate) room: usize,
    ghost within: { 6 * room ≤ vec_len entries },
    ghost few: { (c : ℕ) → slice_index filled c ≤ room },
    ghost sorted: { AllSorted entries.items filled room },
}
