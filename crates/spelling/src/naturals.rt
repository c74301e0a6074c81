// The reading of digits with no sign.
ghost use Rattle.std.specs.Prelude.{◌≡◌, ◌^◌, ◌<◌, decimal};
ghost use Rattle.basis.specs.Reading.{Exactly};

// The number that the bytes spell with no sign: one to twelve digits, and no 0 before another.
pub(crate) fn read_natural(s: &[u8]) -> Option<u64>
    ensures value { Exactly result (λ n. (n < 10 ^ 12) × (decimal n ≡ s.now)) }
{
    if s.is_empty() || s.len() > 12 {
        return None;
    }
    if s[0] == b'0' && s.len() > 1 {
        return None;
    }
    let mut n: u64 = 0;
    for b in s {
        n = n * 10 + u64::from(char::from(*b).to_digit(10)?);
    }
    Some(n)
}
