// Punycode (L23 of SCOPE), what its coder and its decoder share: one digit, one threshold, and the bias for the next number.
// Numbers are u64, in which every sum fits for lists of up to 2^32 code points.
#![tactic(auto)]

ghost use Rattle.std.specs.Prelude.{◌^◌, ◌<◌, ◌≡◌};
ghost use Rattle.punycode.specs.Punycode.{digit as digit_of, value as value_as, adapt as adapt_of};
ghost use Rattle.punycode.specs.Steps.{Threshold, Halved};

// The octet of a digit.
#[tactic(auto, unfolding(crate::specs::Punycode::digit))]
pub fn digit(v: u64) -> u8
    requires { v < 36 }
    ensures { result ≡ digit_of v }
{
    if v < 26 {
        b'a' + v as u8
    } else {
        b'0' + (v - 26) as u8
    }
}

// The digit of an octet. Most are small letters, so they are asked for first.
#[tactic(auto, unfolding(crate::specs::Punycode::value))]
pub fn value_of(c: u8) -> Option<u64>
    ensures { result ≡ value_as c }
{
    match c {
        b'a'..=b'z' => Some(u64::from(c - b'a')),
        b'A'..=b'Z' => Some(u64::from(c - b'A')),
        b'0'..=b'9' => Some(u64::from(c - b'0') + 26),
        _ => None,
    }
}

// A digit below this ends its number.
#[tactic(auto, unfolding(crate::specs::Punycode::threshold))]
pub fn threshold(k: u64, bias: u64) -> u64
    ensures { Threshold k bias result }
{
    k.saturating_sub(bias).clamp(1, 26)
}

// What counts of a number, for the bias behind it.
fn halved(delta: u64, first: bool) -> u64
    ensures { Halved delta first result }
{
    delta / if first { 700 } else { 2 }
}

// The bias behind the number `delta`, when there are so many code points.
#[tactic(auto, using(crate::proofs::Scaling::scaling))]
pub fn adapt(delta: u64, points: u64, first: bool) -> u64
    requires { (delta < 2 ^ 56) × (0 < points) }
    ensures { result ≡ adapt_of delta points first }
{
    let part = halved(delta, first);
    let mut d = part + part / points;
    let mut k = 0;
    while 455 < d {
        d /= 35;
        k += 36;
    }
    k + 36 * d / (d + 38)
}
