// The tables 0 to 5.
pub mod calls;

// By hand: tried `[T; 6]`, and in a caller over any index the goal `of-store-requires`, that six of it are below 2 ^ 63 bytes, stayed open.
#[derive(Drop)]
pub struct SixTables<T>(T, T, T, T, T, T);
