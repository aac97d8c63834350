// The common ground: blanks told (L1 of SCOPE); octets compared, searched, copied as they are or with capitals made small
// (L8), tested for zeros, and read and written as numbers with the least octet first (T2). Each function's meaning is one
// definition of specs/.
#![tactic(auto)]

ghost use Rattle.std.specs.Prelude.{ℕ, Bool, true, false, ◌+◌, ◌≤◌, ◌<◌, max, ◌≡◌, eqb, length, take, drop, replicate};
ghost use Rattle.std.specs.List.{list_any, position_or_len};
ghost use Rattle.octets.specs.Tests.{every, Computes};
ghost use Rattle.octets.specs.Octets.{blank, same_octets, lower as lower_of, lowered, same_name, starts_with, all_zero};
ghost use Rattle.octets.specs.Finding.{length_before, Skipped};
ghost use Rattle.octets.specs.Numbers.{number, digits};
ghost use Rattle.octets.specs.Written.{put_at};

// Is it a space or a tab (L1)?
#[tactic(auto, unfolding(crate::specs::Octets::blank))]
pub fn is_blank(x: u8) -> bool
    ensures { result ≡ blank x }
{
    matches!(x, b' ' | b'\t')
}

// How many octets are compared in line, before the library compares all by a call.
const NEAR: usize = 16;

// Do octets at one of the first `NEAR` places differ? No way leads out of the loop early, so that it compiles to vector
// instructions: they are compared at once.
#[tactic(auto, using(crate::proofs::Comparing::differing))]
fn differ(a: &[u8], b: &[u8]) -> bool
    requires { (16 ≤ length a.now) × (16 ≤ length b.now) }
    ensures { result ≡ true → false ≡ same_octets a.now b.now }
{
    let mut found = false;
    for i in 0..NEAR {
        found = found | (a[i] != b[i]);
    }
    found
}

// Are the two runs equal? Lengths first, and then the first octets: most runs that differ do so there.
#[tactic(auto, using(crate::proofs::Comparing::near))]
pub fn same(a: &[u8], b: &[u8]) -> bool
    ensures { result ≡ same_octets a.now b.now }
{
    if a.len() != b.len() || (NEAR <= a.len() && differ(a, b)) {
        return false;
    }
    a == b
}

// The octet with an ASCII capital made small, any other as it is (L8).
#[tactic(auto, using(crate::proofs::Letters::lower_is))]
pub fn lower(x: u8) -> u8
    ensures { result ≡ lower_of x }
{
    x.to_ascii_lowercase()
}

// Are the two names equal, ASCII capitals and small letters being alike (B11)?
pub fn same_name(a: &[u8], b: &[u8]) -> bool
    ensures { result ≡ same_name a.now b.now }
{
    a.eq_ignore_ascii_case(b)
}

// Does `s` go on with `text` at the place `at`?
pub fn goes_on(s: &[u8], at: usize, text: &[u8]) -> bool
    ensures { result ≡ starts_with text.now (drop at s.now) }
{
    s[at.min(s.len())..].starts_with(text)
}

// Are there only zeros? The largest octet is kept and no way leads out of the loop early, so that it
// compiles to vector instructions: whole tables are tested so at each call.
#[tactic(auto, using(crate::proofs::Zeros::zeroing))]
pub fn is_zero(s: &[u8]) -> bool
    ensures { result ≡ all_zero s.now }
{
    let mut most = 0;
    for &x in s {
        most = most.max(x);
    }
    most == 0
}

// Is there an `x` among the elements? No way leads out of the loop early, so that it compiles to vector instructions:
// several are compared at once.
pub fn has<T: Copy + PartialEq>(s: &[T], x: T) -> bool
    ensures { result ≡ list_any (λ y. T.eq y x) s.now }
{
    let mut found = false;
    for &y in s {
        found = found | (y == x);
    }
    found
}

// From the place `at` on, skips pieces of `WIDTH` elements that hold no `x`, up to where the next `x` or the end is less
// than `WIDTH` elements away.
#[tactic(auto, using(crate::proofs::Finding::skipping))]
fn skip<T: Copy + PartialEq, const WIDTH: usize>(s: &[T], at: usize, x: T) -> usize
    requires { (0 < WIDTH) × (at ≤ length s.now) }
    ensures { Skipped (λ y. T.eq y x) s.now at WIDTH result }
{
    let mut i = at;
    while WIDTH <= s.len() - i {
        if has(&s[i..i + WIDTH], x) {
            return i;
        }
        i += WIDTH;
    }
    i
}

// The place of the next `x` from the place `from` on, or the end. Most elements before it are skipped by `WIDE`, of the
// rest most by 8.
pub fn first_from<T: Copy + PartialEq, const WIDE: usize>(s: &[T], from: usize, x: T) -> usize
    requires { (0 < WIDE) × (from ≤ length s.now) }
    ensures { result ≡ from + position_or_len (λ y. T.eq y x) (drop from s.now) }
{
    let near = skip::<T, WIDE>(s, from, x);
    let nearer = skip::<T, 8>(s, near, x);
    skip::<T, 1>(s, nearer, x)
}

// The place of the next `x` from the place `from` on, or the end.
pub fn find(s: &[u8], from: usize, x: u8) -> usize
    ensures { result ≡ from + length_before x (drop from s.now) }
{
    if s.len() <= from {
        return from;
    }
    first_from::<u8, 32>(s, from, x)
}

// Does each octet pass the test? No way leads out of the loop early, so that it compiles to vector instructions where the
// test does.
pub fn all<F: Fn(u8) -> bool>(s: &[u8], test: F) -> bool
    requires { F.IsAlwaysCallable test }
    ensures { (p : ℕ → Bool) → Computes (F.post test) p → result ≡ every p s.now }
{
    let mut passed = true;
    for &x in s {
        passed = passed & test(x);
    }
    passed
}

// Writes `src` over `out` from the place `at` on. A loop, and not `copy_from_slice`: that becomes a call of `memmove`, and
// the library calls nothing but `memcpy` and `memset`.
pub fn put(out: &mut [u8], at: usize, src: &[u8])
    requires { at + length src.now ≤ length out.old }
    ensures { out.new ≡ put_at out.old at src.now }
{
    for (i, &x) in src.iter().enumerate() {
        out[at + i] = x;
    }
}

// Writes `src` into `out` from the place `at` on, its ASCII capitals as small letters (L8).
pub fn put_lower(out: &mut [u8], at: usize, src: &[u8])
    requires { at + length src.now ≤ length out.old }
    ensures { out.new ≡ put_at out.old at (lowered src.now) }
{
    for (i, &x) in src.iter().enumerate() {
        out[at + i] = lower(x);
    }
}

// Makes every octet of `out` an `x`.
pub fn fill(out: &mut [u8], x: u8)
    ensures { out.new ≡ replicate (length out.old) x }
{
    out.fill(x);
}

// The number that stands in the `width` octets from the place `at` on, the least octet first (T2).
#[tactic(auto, using(crate::proofs::Numerals::reading))]
pub fn number_at(s: &[u8], at: usize, width: usize) -> u64
    requires { (width ≤ 8) × (at + width ≤ length s.now) }
    ensures { result ≡ number (take width (drop at s.now)) }
{
    let mut n = 0;
    for k in (0..width).rev() {
        n = n * 256 + u64::from(s[at + k]);
    }
    n
}

// Writes a number into the `width` octets from the place `at` on, the least octet first (T2).
#[tactic(auto, using(crate::proofs::Copying::numbering))]
pub fn put_number(out: &mut [u8], at: usize, width: usize, n: u64)
    requires { at + width ≤ length out.old }
    ensures { out.new ≡ put_at out.old at (digits width n) }
{
    let mut rest = n;
    for place in &mut out[at..at + width] {
        *place = (rest % 256) as u8;
        rest /= 256;
    }
}
