// Words that every layer's contracts share: definitions and lemmas, and the one function that they all read lists by.
#![tactic(auto)]

ghost use Rattle.std.specs.Prelude.{◌≡◌, slice_set};
ghost use Rattle.basis.specs.Lists.{numbered};

// What a search came to, and how many places it looked at for that.
#[derive(Clone, Copy, Debug, PartialEq, Eq)]
pub struct Probed<T> {
    pub found: T,
    pub visited: usize,
}

// The element with a number, counted from 1, if there is one.
pub fn numbered<T: Copy>(xs: &[T], number: usize) -> Option<T>
    ensures value { result ≡ numbered xs.now number }
{
    xs.get(number.checked_sub(1)?).copied()
}

// The elements with another in a place, if there is such a place.
pub fn replaced<T: Copy, const N: usize>(xs: [T; N], at: usize, x: T) -> [T; N]
    ensures value { result ≡ slice_set xs at x }
{
    let mut changed = xs;
    if at < N {
        changed[at] = x;
    }
    changed
}
