// The coder of Punycode (L23 of SCOPE): code points become a text. It keeps nothing but a few numbers and goes over the code
// points again for each different one of them from 128 on, so that short lists, as labels are, cost next to nothing.
#![tactic(auto)]

ghost use Rattle.std.specs.List.{reduce};
ghost use Rattle.std.specs.Prelude.{◌^◌, ◌<◌, ◌≤◌, ◌≡◌, [], ◌∷◌, length, nat_le, min, filter};
ghost use Rattle.octets.specs.Puts.{Puts};
ghost use Rattle.punycode.specs.Punycode.{below, integer, numbers, encode as encode_of};
ghost use Rattle.coder.specs.Steps.{Ready, Turned, Passes, Able, Rounded, Points, Begins, delimiter_at};

// How far the coder is: what the next number comes to so far, its bias, how many code points are written, and the place
// behind what was written.
#[derive(Clone, Copy)]
struct Coder {
    delta: u64,
    bias: u64,
    h: u64,
    at: usize,
}

// Writes the digits of a number from the place `at` on.
#[tactic(auto, using(crate::proofs::Digits::going))]
fn put_integer(out: &mut [u8], at: usize, bias: u64, delta: u64) -> Option<usize>
    requires { (at ≤ length out.old) × (delta < 2 ^ 56) }
    ensures { Puts out.old out.new at (integer delta bias 36 delta) result }
{
    let mut q = delta;
    let mut k = 36;
    for i in at..out.len() {
        let t = punycode::threshold(k, bias);
        if q < t {
            out[i] = punycode::digit(q);
            return Some(i + 1);
        }
        let rest = q - t;
        out[i] = punycode::digit(t + rest % (36 - t));
        q = rest / (36 - t);
        k += 36;
    }
    None
}

// The smallest code point from n on, if there is one.
fn least(points: &[u32], n: u64) -> Option<u64>
    ensures { result ≡ reduce min (filter (λ c. nat_le n c) points.now) }
{
    points
        .iter()
        .map(|&c| u64::from(c))
        .filter(|&c| n <= c)
        .min()
}

// One code point of a pass: one below n is a place more, n itself is written, and one above n has no place yet. Where
// there is no room, there is no way on.
#[tactic(auto, using(crate::proofs::Passing::turning))]
fn turn(out: &mut [u8], c: u64, n: u64, b: u64, s: Coder) -> Option<Coder>
    requires { Ready (length out.old) 1 s }
    ensures { Turned out.old out.new b n c s result }
{
    if c < n {
        return Some(Coder {
            delta: s.delta + 1,
            ..s
        });
    }
    if n < c {
        return Some(s);
    }
    let Some(at) = put_integer(out, s.at, s.bias, s.delta) else {
        return None;
    };
    Some(Coder {
        delta: 0,
        bias: punycode::adapt(s.delta, s.h + 1, s.h == b),
        h: s.h + 1,
        at,
    })
}

// All code points, for those that are n.
#[tactic(auto, using(crate::proofs::Passing::walking))]
fn pass(points: &[u32], out: &mut [u8], n: u64, b: u64, s: Coder) -> Option<Coder>
    requires { Ready (length out.old) (length points.now) s }
    ensures { Passes out.old out.new b n points.now s result }
{
    let mut t = s;
    for &c in points {
        t = turn(&mut *out, u64::from(c), n, b, t)?;
    }
    Some(t)
}

// From n to the next code point m that is there, and a pass at it.
#[tactic(auto, using(crate::proofs::Rounds::rounding))]
fn round(points: &[u32], out: &mut [u8], n: u64, m: u64, b: u64, s: Coder) -> Option<Coder>
    requires { Able (length out.old) points.now n m s }
    ensures { Rounded out.old out.new b n m points.now s result }
{
    let delta = s.delta + (m - n) * (s.h + 1);
    let t = pass(points, out, m, b, Coder { delta, ..s })?;
    Some(Coder {
        delta: t.delta + 1,
        ..t
    })
}

// A pass for each different code point from 128 on, the smallest first, behind the b others.
#[tactic(auto, using(crate::proofs::Rounds::rounds))]
fn passes(points: &[u32], out: &mut [u8], b: u64, at: usize) -> Option<usize>
    requires { Begins (length out.old) points.now b at }
    ensures { Puts out.old out.new at (numbers points.now b) result }
{
    let mut s = Coder {
        delta: 0,
        bias: 72,
        h: b,
        at,
    };
    let mut n = 128;
    while let Some(m) = least(points, n) {
        s = round(points, &mut *out, n, m, b, s)?;
        n = m + 1;
    }
    Some(s.at)
}

// Writes one octet, if there is room.
#[tactic(auto, using(crate::proofs::Coding::one))]
fn put_octet(out: &mut [u8], at: usize, x: u8) -> Option<usize>
    requires { at ≤ length out.old }
    ensures { Puts out.old out.new at (x ∷ []) result }
{
    if at < out.len() {
        out[at] = x;
        Some(at + 1)
    } else {
        None
    }
}

// One code point as it is, if it is below 128.
#[tactic(auto, using(crate::proofs::Coding::basic))]
fn put_basic(out: &mut [u8], at: usize, c: u32) -> Option<usize>
    requires { at ≤ length out.old }
    ensures { Puts out.old out.new at (below 128 (c ∷ [])) result }
{
    if c < 128 {
        put_octet(out, at, c as u8)
    } else {
        Some(at)
    }
}

// The code points below 128, in their order.
#[tactic(auto, using(crate::proofs::Coding::basics))]
fn put_basics(points: &[u32], out: &mut [u8]) -> Option<usize>
    ensures { Puts out.old out.new 0 (below 128 points.now) result }
{
    let mut at = 0;
    for &c in points {
        at = put_basic(&mut *out, at, c)?;
    }
    Some(at)
}

// The delimiter, if something stands before it.
#[tactic(auto, using(crate::proofs::Coding::delimiting))]
fn put_delimiter(out: &mut [u8], at: usize) -> Option<usize>
    requires { at ≤ length out.old }
    ensures { Puts out.old out.new at (delimiter_at at) result }
{
    if at == 0 {
        Some(at)
    } else {
        put_octet(out, at, b'-')
    }
}

// Writes the Punycode of code points into `out`, and answers how long it is (L23).
#[tactic(auto, using(crate::proofs::Coding::encoding))]
pub fn encode(points: &[u32], out: &mut [u8]) -> Option<usize>
    requires { Points (length out.old) points.now }
    ensures { Puts out.old out.new 0 (encode_of points.now) result }
{
    let Some(b) = put_basics(points, &mut *out) else {
        return None;
    };
    let Some(at) = put_delimiter(&mut *out, b) else {
        return None;
    };
    passes(points, out, b as u64, at)
}
