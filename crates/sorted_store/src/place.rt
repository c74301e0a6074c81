// What a caller hands in for a table.
use cells::rows::Row;
use cells::types::Cell;
use sorted_index::entry::Entry;

// A place for a row and its build number.
#[derive(Clone, Copy)]
pub struct Place {
    pub row: Row,
    pub stamp: u64,
}

impl Place {
    // What a caller fills its places with before it hands them in.
    pub const EMPTY: Place = Place {
        row: Row::EMPTY,
        stamp: 0,
    };

    // The same for a place in an index, of which a row has six.
    pub const EMPTY_ENTRY: Entry<Cell> = Entry {
        key: Cell::Number(0),
        row: 0,
    };
}
