// Hexadecimal digits.
ghost use Rattle.std.specs.Prelude.{◌≡◌, ◌+◌, ◌*◌, ◌<◌, MatchOption};
ghost use Rattle.bench.specs.Digits.{value_of, upper_of};

// The value of a digit of either case.
pub(crate) fn value(c: u8) -> Option<u8>
    ensures { MatchOption result (value_of c ≡ 16) (λ v. (value_of c ≡ v) × (v < 16)) }
{
    match c {
        b'0'..=b'9' => Some(c - b'0'),
        b'A'..=b'F' => Some(c - b'A' + 10),
        b'a'..=b'f' => Some(c - b'a' + 10),
        _ => None,
    }
}

// The byte that two digits code. Of a high digit no more counts than the value of one.
pub(crate) fn byte(high: u8, low: u8) -> u8
    requires { low < 16 }
    ensures { high < 16 → result ≡ 16 * high + low }
{
    16 * (high % 16) + low
}

// The digit of a value, in upper case.
pub(crate) fn upper(v: u8) -> u8
    requires { v < 16 }
    ensures { result ≡ upper_of v }
{
    if v < 10 { b'0' + v } else { b'A' + (v - 10) }
}
