// Plain addresses whose labels are ASCII (SCOPE, L6 to L8), also by the old rule (T16), and local parts. A test of an address
// passes over it once, atom by atom and label by label.
#![tactic(auto)]

ghost use Rattle.std.specs.Prelude.{◌≡◌, eqb, drop};
ghost use Rattle.octets.specs.Octets.{same_octets, lower as lower_of, lowered};
ghost use Rattle.octets.specs.Tests.{every};
ghost use Rattle.utf8.specs.Lowering.{lower_text};
ghost use Rattle.asciiaddress.specs.Ascii.{ascii_domain, ascii_plain, was_canonical};
ghost use Rattle.asciiaddress.specs.Answers.{local_of, label_shape, small_ascii, lower_sides, ascii_canonical};

use runs::Class;

// How many octets such an address may have: as many as its form (L6, T16).
const LONGEST: usize = 254;

// How many octets a local part may have (L6).
const LONGEST_LOCAL: usize = 64;

// How many octets such a label may have: as many as its form (L7, T16).
const LONGEST_LABEL: usize = 63;

// The local part that `s` opens with and an `@` follows: atoms with a dot between two of them (L6).
#[tactic(auto, using(crate::proofs::Atoms::reading_atoms))]
pub fn local_part(s: &[u8]) -> Option<usize>
    ensures { result ≡ local_of s.now }
{
    let mut i = 0;
    while i < s.len() {
        let end = runs::run_end(s, i, Class::Atom);
        if s.len() <= end {
            return None;
        }
        if end == i {
            return None;
        }
        if s[end] == b'@' {
            if end <= LONGEST_LOCAL {
                return Some(end);
            }
            return None;
        }
        if s[end] != b'.' {
            return None;
        }
        i = end + 1;
    }
    None
}

// Has a run of letters, digits and hyphens the length and the ends of a label?
#[tactic(auto, unfolding(crate::specs::Answers::label_shape, crate::specs::Ascii::free_ends), using(std::proofs::lemmas::Bool::Decides::nat_tests))]
fn shaped(run: &[u8]) -> bool
    ensures { result ≡ label_shape run.now }
{
    let n = run.len();
    n != 0 && n <= LONGEST_LABEL && run[0] != b'-' && run[n - 1] != b'-'
}

// Is what stands from the place `at` on a domain of such labels, with a dot between two of them (L7)?
#[tactic(auto, using(crate::proofs::Labels::labelling))]
pub fn is_domain(s: &[u8], at: usize) -> bool
    ensures { result ≡ ascii_domain (drop at s.now) }
{
    let mut i = at;
    while i < s.len() {
        let end = runs::run_end(s, i, Class::Label);
        if !shaped(&s[i..end]) {
            return false;
        }
        if s.len() <= end {
            return true;
        }
        if s[end] != b'.' {
            return false;
        }
        i = end + 1;
    }
    false
}

// Is it a plain address with labels in ASCII, and nothing else? The length first: a long text costs nothing.
#[tactic(auto, using(crate::proofs::Plain::being_plain))]
pub fn is_plain(s: &[u8]) -> bool
    ensures { result ≡ ascii_plain s.now }
{
    if LONGEST < s.len() {
        return false;
    }
    match local_part(s) {
        Some(n) => is_domain(s, n + 1),
        None => false,
    }
}

#[tactic(auto, unfolding(octets::specs::Octets::lower), using(std::proofs::lemmas::Bool::Decides::nat_tests))]
fn small(x: u8) -> bool
    ensures { result ≡ eqb (lower_of x) x }
{
    !x.is_ascii_uppercase()
}

// Is there no ASCII capital?
fn is_small(s: &[u8]) -> bool
    ensures { result ≡ same_octets (lowered s.now) s.now }
{
    octets::all(s, small)
}

#[tactic(auto, unfolding(crate::specs::Answers::small_ascii), using(std::proofs::lemmas::Bool::Decides::nat_tests))]
fn small_ascii(x: u8) -> bool
    ensures { result ≡ small_ascii x }
{
    x.is_ascii() & !x.is_ascii_uppercase()
}

// Is there nothing but ASCII, and no capital? Every address of a table is tested so at each call, and nearly all go no
// further.
fn is_small_ascii(s: &[u8]) -> bool
    ensures { result ≡ every small_ascii s.now }
{
    octets::all(s, small_ascii)
}

// Is a local part in lower case? Nearly all that come here are well formed and are, which the first test tells without
// asking whether they are well formed.
#[tactic(auto, using(crate::proofs::Forms::local_small))]
fn is_small_text(s: &[u8]) -> bool
    ensures { result ≡ same_octets (lower_text s.now) s.now }
{
    utf8::is_steady(s) || (!utf8::is_text(s) && is_small(s))
}

// Is it in lower case on both sides (L8)?
#[tactic(auto, using(crate::proofs::Forms::being_own))]
fn is_own_form(s: &[u8]) -> bool
    ensures { result ≡ same_octets (lower_sides s.now) s.now }
{
    if is_small_ascii(s) {
        return true;
    }
    let at = octets::find(s, 0, b'@');
    is_small_text(&s[..at]) && is_small(&s[at..])
}

// Is it such an address that is its own form (L8)?
#[tactic(auto, using(crate::proofs::Forms::being_canonical))]
pub fn is_canonical(s: &[u8]) -> bool
    ensures { result ≡ ascii_canonical s.now }
{
    is_plain(s) && is_own_form(s)
}

// Is it one by the old rule (T16)?
#[tactic(auto, using(crate::proofs::Forms::having_been_canonical))]
pub fn was_canonical(s: &[u8]) -> bool
    ensures { result ≡ was_canonical s.now }
{
    is_plain(s) && is_small(s)
}
