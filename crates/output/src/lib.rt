// Writing a line into a caller's buffer, from a place on.
#![tactic(auto)]

ghost use Rattle.std.specs.Prelude.{◌≡◌, ◌+◌, ◌≤◌, [], ◌∷◌, length, Some, is_ok, if◌then◌else◌, nat_le, codes};
ghost use Rattle.rules.specs.Calls.{laid};
ghost use Rattle.output.specs.Puts.{Puts};

use std::error::Error;
use std::fmt;

// The buffer ends before the line does.
#[derive(Clone, Copy, Debug, PartialEq, Eq)]
pub struct Full {}

impl fmt::Display for Full {
    ghost output = { λ _. Some (codes "the line does not fit") };

    fn fmt<W: fmt::Write>(&self, f: &mut fmt::Formatter<W>) -> fmt::Result {
        write!(f, "the line does not fit")
    }
}

impl Error for Full {}

// Holds the place while a line is written, and sets it where it is to stand at the end.
struct PlaceGuard<'a> {
    place: &'a mut usize,
    end: usize,
}

impl Drop for PlaceGuard<'_> {
    fn drop(self)
        ensures { self.exit.0.now ≡ self.entry.end }
    {
        let PlaceGuard { place, end } = self;
        *place = end;
    }
}

#[tactic(auto, using(std::proofs::lemmas::List::set_past))]
fn put(out: &mut [u8], place: &mut usize, byte: u8) -> Result<(), Full>
    requires { place.old ≤ length out.old }
    ensures { Puts out.old place.old (byte ∷ []) out.new place.new (is_ok result) }
{
    // By hand: the place counts what was written of a line that may not fit; of a slice after `get_mut` nothing is known.
    if *place >= out.len() {
        return Err(Full {});
    }
    out[*place] = byte;
    *place += 1;
    Ok(())
}

// By hand: a struct of the two borrows would serve one call of two private functions, and its fact would still be asked by write_line.
fn put_all(out: &mut [u8], place: &mut usize, bytes: &[u8]) -> Result<(), Full>
    requires { place.old ≤ length out.old }
    ensures { Puts out.old place.old bytes.now out.new place.new (is_ok result) }
{
    for b in bytes {
        put(out, place, *b)?;
    }
    Ok(())
}

// Writes a line from the place on and moves the place behind it. Where the buffer ends before the line does, the line's beginning
// is written and the place put back.
pub fn write_line(out: &mut [u8], place: &mut usize, line: &[u8]) -> Result<(), Full>
    requires { place.old ≤ length out.old }
    ensures answer { is_ok result ≡ nat_le (place.old + length line.now) (length out.old) }
    ensures bytes { out.new ≡ laid out.old place.old line.now }
    ensures after { place.new ≡ (if is_ok result then place.old + length line.now else place.old) }
{
    let start = *place;
    let mut guard = PlaceGuard { place, end: start };
    put_all(out, guard.place, line)?;
    guard.end = *guard.place;
    Ok(())
}
