// A short text that is held in place, with no memory of its own.
ghost use Rattle.std.specs.Prelude.{◌≡◌, ◌≤◌, length};

pub mod calls;

// Up to `N` bytes, of which the first `len` are the text; the places behind them mean nothing.
// By hand: it is `Copy` and wants no memory; the kit's `ArrayVec` is not `Copy`, and its `ArrayString` holds no unlawful code's bytes.
#[derive(Clone, Copy, Debug)]
pub struct ShortText<const N: usize> {
    bytes: [u8; N],
    len: usize,
    ghost within: { len ≤ N },
    ghost places: { length bytes ≡ N },
}

// No cell's spelling is longer.
pub type Text = ShortText<20>;
