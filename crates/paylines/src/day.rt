// The rows of a small day, some of them unfit: for each the table, and the words that it is read from.
pub const DAY: [(usize, &str); 9] = [
    (1, "B7 12"),
    (0, "B7 420 930"),
    (0, "B9 420 840"),
    (0, "B7 007 930"),
    (0, "B7 420"),
    (2, "B7 12"),
    (0, "b7 420 930"),
    (1, "B9 14"),
    (0, "B9 400 1000"),
];
