// UTF-8 (L20 of SCOPE) and its lower case (L21). A text is gone through octet by octet, and no code point is ever put
// together: every range of L21 lies in two octets, so that what an octet becomes depends only on its neighbours.
#![tactic(auto)]

ghost use Rattle.std.specs.Prelude.{◌+◌, ◌<◌, ◌≤◌, ◌≡◌, ◌∷◌, length, get_or};
ghost use Rattle.octets.specs.Octets.{same_octets, lowered};
ghost use Rattle.octets.specs.Written.{put_at};
ghost use Rattle.utf8.specs.Utf8.{lead, lead_of, well_formed};
ghost use Rattle.utf8.specs.Lowering.{lower_text};
ghost use Rattle.utf8.specs.Steps.{all_ascii, second_of, first_of, lower_at, octetwise, small_at, moves as moves_of, Follows};

// What the first octet of a code point tells: how many octets follow, from `low` to `high` the next of them, and its own part
// of the number.
#[derive(Clone, Copy)]
pub struct Lead {
    pub following: u8,
    pub low: u8,
    pub high: u8,
    pub bits: u8,
}

impl Lead {
    fn new(following: u8, low: u8, high: u8, bits: u8) -> Self
        ensures { result ≡ lead following low high bits }
    {
        Lead {
            following,
            low,
            high,
            bits,
        }
    }
}

// What has to follow: `missing` octets, from `low` to `high` the next of them.
#[derive(Clone, Copy)]
struct Next {
    missing: u8,
    low: u8,
    high: u8,
}

// What an octet tells, if it is the first of a code point (L20).
#[tactic(auto, unfolding(crate::specs::Utf8::lead_of), using(std::proofs::lemmas::Bool::Decides::nat_tests))]
pub fn lead_of(x: u8) -> Option<Lead>
    ensures { result ≡ lead_of x }
{
    if x < 0x80 {
        return Some(Lead::new(0, 0, 0, x));
    }
    match x {
        0xC2..=0xDF => Some(Lead::new(1, 0x80, 0xBF, x - 0xC0)),
        0xE0 => Some(Lead::new(2, 0xA0, 0xBF, 0)),
        0xED => Some(Lead::new(2, 0x80, 0x9F, 0xD)),
        0xE1..=0xEF => Some(Lead::new(2, 0x80, 0xBF, x - 0xE0)),
        0xF0 => Some(Lead::new(3, 0x90, 0xBF, 0)),
        0xF1..=0xF3 => Some(Lead::new(3, 0x80, 0xBF, x - 0xF0)),
        0xF4 => Some(Lead::new(3, 0x80, 0x8F, 4)),
        _ => None,
    }
}

// What has to follow one octet, of which this had to follow; or none, as the text is ill-formed, whatever follows.
#[tactic(auto, using(crate::proofs::Telling::following))]
fn follow(x: u8, next: Next) -> Option<Next>
    ensures { Follows x next result }
{
    if next.missing == 0 {
        let first = lead_of(x)?;
        return Some(Next {
            missing: first.following,
            low: first.low,
            high: first.high,
        });
    }
    if x < next.low || next.high < x {
        return None;
    }
    Some(Next {
        missing: next.missing - 1,
        low: 0x80,
        high: 0xBF,
    })
}

// Is it well formed (L20)?
#[tactic(auto, using(crate::proofs::Telling::telling))]
pub fn is_text(s: &[u8]) -> bool
    ensures { result ≡ well_formed s.now }
{
    let mut next = Next {
        missing: 0,
        low: 0,
        high: 0,
    };
    for &x in s {
        let Some(after) = follow(x, next) else {
            return false;
        };
        next = after;
    }
    next.missing == 0
}

// Is it ASCII?
pub fn is_ascii(s: &[u8]) -> bool
    ensures { result ≡ all_ascii s.now }
{
    s.is_ascii()
}

// Writes `src` into `out` from the place `at` on, its ASCII capitals made small, and answers whether it is ASCII: then that
// is its lower case. The octets are put together bit by bit, which is below 128 just where each of them is. One loop does
// both, and compiles to vector instructions, for nearly every address goes no further.
#[tactic(auto, using(crate::proofs::Walking::making_ascii))]
pub fn put_ascii(out: &mut [u8], at: usize, src: &[u8]) -> bool
    requires { at + length src.now ≤ length out.old }
    ensures value { result ≡ all_ascii src.now }
    ensures out_after { out.new ≡ put_at out.old at (lowered src.now) }
{
    let mut bits = 0;
    for (i, &x) in src.iter().enumerate() {
        out[at + i] = octets::lower(x);
        bits = bits | x;
    }
    bits < 0x80
}

// An octet from 80 to BF, by the octet before it.
#[tactic(auto, unfolding(crate::specs::Steps::second_of), using(std::proofs::lemmas::Bool::Decides::nat_tests))]
fn second_of(a: u8, y: u8) -> u8
    requires { (0x80 ≤ y) × (y < 0xC0) }
    ensures { result ≡ second_of a y }
{
    match (a, y) {
        (0xC3, 0x97) | (0xCE, 0xA2) => y,
        (0xC3, 0x80..=0x9E) => y + 32,
        (0xCE, 0x91..=0x9F) => y + 32,
        (0xCE, 0xA0..=0xAB) => y - 32,
        (0xD0, 0x80..=0x8F) => y + 16,
        (0xD0, 0x90..=0x9F) => y + 32,
        (0xD0, 0xA0..=0xAF) => y - 32,
        _ => y,
    }
}

// An octet from C0 on, by the octet behind it.
#[tactic(auto, unfolding(crate::specs::Steps::first_of), using(std::proofs::lemmas::Bool::Decides::nat_tests))]
fn first_of(x: u8, y: u8) -> u8
    ensures { result ≡ first_of x y }
{
    match (x, y) {
        (0xCE, 0xA2) => x,
        (0xCE, 0xA0..=0xAB) => 0xCF,
        (0xD0, 0x80..=0x8F | 0xA0..=0xAF) => 0xD1,
        _ => x,
    }
}

#[tactic(auto, using(crate::proofs::Around::lowering_at))]
fn lower_at(a: u8, x: u8, b: u8) -> u8
    ensures { result ≡ lower_at a x b }
{
    match x {
        0..=0x7F => octets::lower(x),
        0x80..=0xBF => second_of(a, x),
        _ => first_of(x, b),
    }
}

// The octet before a place; at the beginning a 0, which begins nothing.
fn octet_before(s: &[u8], i: usize) -> u8
    requires { i < length s.now }
    ensures { result ≡ get_or (0 ∷ s.now) i 0 }
{
    if i == 0 { 0 } else { s[i - 1] }
}

// The octet behind a place; at the end a 0, which follows nothing.
fn octet_behind(s: &[u8], i: usize) -> u8
    requires { i < length s.now }
    ensures { result ≡ get_or s.now (i + 1) 0 }
{
    if i + 1 < s.len() { s[i + 1] } else { 0 }
}

// The octet at a place, in lower case.
#[tactic(auto, using(crate::proofs::Around::around))]
fn small_at(s: &[u8], i: usize) -> u8
    requires { i < length s.now }
    ensures { result ≡ small_at s.now i }
{
    lower_at(octet_before(s, i), s[i], octet_behind(s, i))
}

// Does an octet become another, by the octet before it? Without a branch, for this is asked of every octet of every address
// of a table that is not ASCII.
#[tactic(auto, unfolding(crate::specs::Steps::moves))]
fn moves(a: u8, x: u8) -> bool
    ensures { result ≡ moves_of a x }
{
    ((0x41 <= x) & (x <= 0x5A))
        | (((0x80 <= x) & (x <= 0x9E) & (x != 0x97)) & (a == 0xC3))
        | (((0x91 <= x) & (x <= 0xAB) & (x != 0xA2)) & (a == 0xCE))
        | (((0x80 <= x) & (x <= 0xAF)) & (a == 0xD0))
}

// Does each octet stay as it is, if the text is well formed? Whether it is need not be asked where the answer is yes: then
// there is no ASCII capital either.
#[tactic(auto, using(crate::proofs::Staying::staying))]
pub fn is_steady(s: &[u8]) -> bool
    ensures { result ≡ same_octets (octetwise 0 s.now) s.now }
{
    let mut all = true;
    let mut before = 0;
    for &x in s {
        all = all & !moves(before, x);
        before = x;
    }
    all
}

fn put_octetwise(out: &mut [u8], at: usize, src: &[u8])
    requires { at + length src.now ≤ length out.old }
    ensures { out.new ≡ put_at out.old at (octetwise 0 src.now) }
{
    for i in 0..src.len() {
        out[at + i] = small_at(src, i);
    }
}

// Writes `src` into `out` from the place `at` on, in lower case (L21). Whether it is well formed is asked of the whole text,
// before the first octet is written.
#[tactic(auto, using(crate::proofs::Walking::putting_text))]
pub fn put_lower(out: &mut [u8], at: usize, src: &[u8])
    requires { at + length src.now ≤ length out.old }
    ensures { out.new ≡ put_at out.old at (lower_text src.now) }
{
    if is_text(src) {
        put_octetwise(&mut *out, at, src);
    } else {
        octets::put_lower(&mut *out, at, src);
    }
}
