// What an index holds.

// A key, and the number of a row that has it.
#[derive(Clone, Copy, Debug, PartialEq, Eq)]
pub struct Entry<K> {
    pub key: K,
    pub row: usize,
}
