// Code points: those of a text in UTF-8 (L20 of SCOPE), in lower case (L21), and the text of code points.
#![tactic(auto)]

ghost use Rattle.std.specs.Prelude.{◌+◌, ◌<◌, ◌≤◌, ◌≡◌, true, length, drop};
ghost use Rattle.octets.specs.Puts.{Puts};
ghost use Rattle.utf8.specs.Utf8.{tails, points as points_of, encoded_one, encoded, scalars};
ghost use Rattle.utf8.specs.Lowering.{lower_point};
ghost use Rattle.codepoints.specs.Reading.{small_of, Begun, Gives, Reads};

// What a text stands for: so many code points; nothing, as it is ill-formed; or more than there is room for.
#[derive(Clone, Copy)]
pub enum Read {
    Points(usize),
    Bad,
    Full,
}

// A code point and the place behind it.
#[derive(Clone, Copy)]
struct Point {
    number: u32,
    end: usize,
}

// A code point in lower case (L21).
#[tactic(auto, unfolding(utf8::specs::Lowering::lower_point), using(std::proofs::lemmas::Bool::Decides::nat_tests))]
fn lower_point(p: u32) -> u32
    requires { p < 0x200000 }
    ensures { result ≡ lower_point p }
{
    match p {
        0xD7 | 0x3A2 => p,
        0x41..=0x5A | 0xC0..=0xDE | 0x391..=0x3AB | 0x410..=0x42F => p + 32,
        0x400..=0x40F => p + 80,
        _ => p,
    }
}

// Reads the rest of a code point, whose first octet has been read, from the place `at` on. The ranges of its octets are all
// there is to test (L20), so that the number itself never is. Or there is none, as the text is ill-formed, whatever follows.
#[tactic(auto, using(crate::proofs::Reading::resting))]
fn rest_of(s: &[u8], at: usize, first: utf8::Lead) -> Option<Point>
    requires at_in_bounds { at ≤ length s.now }
    requires begun { Begun first.following first.low first.high first.bits }
    ensures { Gives s.now at (tails (drop at s.now) first.following first.low first.high first.bits) result }
{
    let following = usize::from(first.following);
    if s.len() - at < following {
        return None;
    }
    let end = at + following;
    let mut low = first.low;
    let mut high = first.high;
    let mut number = u32::from(first.bits);
    for i in at..end {
        let x = s[i];
        if x < low || high < x {
            return None;
        }
        number = number * 64 + u32::from(x - 0x80);
        low = 0x80;
        high = 0xBF;
    }
    Some(Point { number, end })
}

// Reads the code point that begins at a place, or none, as the text is ill-formed.
#[tactic(auto, using(crate::proofs::Reading::pointing))]
fn point_at(s: &[u8], i: usize) -> Option<Point>
    requires { i < length s.now }
    ensures { Gives s.now (i + 1) (points_of (drop i s.now)) result }
{
    let first = utf8::lead_of(s[i])?;
    rest_of(s, i + 1, first)
}

// Stores the code points of a text, in lower case (L21), at the beginning of `out`. Where there is no room for the next one
// it goes no further: a stranger may have sent the text, as long as he likes.
#[tactic(auto, using(crate::proofs::Walking::walking))]
pub fn read_small(s: &[u8], out: &mut [u32]) -> Read
    ensures { Reads out.old out.new (small_of (points_of s.now)) result }
{
    let mut n = 0;
    let mut i = 0;
    while i < s.len() {
        let Some(point) = point_at(s, i) else {
            return Read::Bad;
        };
        if out.len() <= n {
            return Read::Full;
        }
        out[n] = lower_point(point.number);
        n += 1;
        i = point.end;
    }
    Read::Points(n)
}

// Writes the one to four octets of a code point over `out` from the place `at` on (L20).
#[tactic(auto, using(crate::proofs::Encoding::laying))]
fn put_point(out: &mut [u8], at: usize, p: u32) -> Option<usize>
    requires p_bound { p < 0x110000 }
    requires at_in_bounds { at ≤ length out.old }
    ensures { Puts out.old out.new at (encoded_one p) result }
{
    let room = out.len() - at;
    if p < 0x80 {
        if room < 1 {
            return None;
        }
        out[at] = p as u8;
        return Some(at + 1);
    }
    if p < 0x800 {
        if room < 2 {
            return None;
        }
        out[at] = (0xC0 + p / 64) as u8;
        out[at + 1] = (0x80 + p % 64) as u8;
        return Some(at + 2);
    }
    if p < 0x10000 {
        if room < 3 {
            return None;
        }
        out[at] = (0xE0 + p / 4096) as u8;
        out[at + 1] = (0x80 + p / 64 % 64) as u8;
        out[at + 2] = (0x80 + p % 64) as u8;
        return Some(at + 3);
    }
    if room < 4 {
        return None;
    }
    out[at] = (0xF0 + p / 262144) as u8;
    out[at + 1] = (0x80 + p / 4096 % 64) as u8;
    out[at + 2] = (0x80 + p / 64 % 64) as u8;
    out[at + 3] = (0x80 + p % 64) as u8;
    Some(at + 4)
}

// Writes code points over `out` from the place `at` on (L20), as long as there is room.
#[tactic(auto, using(crate::proofs::Encoding::writing))]
pub fn write(points: &[u32], out: &mut [u8], at: usize) -> Option<usize>
    requires points_value { scalars points.now ≡ true }
    requires at_in_bounds { at ≤ length out.old }
    ensures { Puts out.old out.new at (encoded points.now) result }
{
    let mut to = at;
    for &p in points {
        match put_point(&mut *out, to, p) {
            Some(next) => {
                to = next;
            }
            None => {
                return None;
            }
        }
    }
    Some(to)
}
