// Labels in any script, and their forms in ASCII (SCOPE, L7, L22). A label is judged as it stands, then brought into form, and
// the form is measured.
#![tactic(auto)]

ghost use Rattle.std.specs.Prelude.{◌≤◌, ◌≡◌, false, ◌++◌, length};
ghost use Rattle.std.specs.Prelude.{Some};
ghost use Rattle.octets.specs.Octets.{lowered};
ghost use Rattle.octets.specs.Puts.{Puts, PutsText};
ghost use Rattle.utf8.specs.Utf8.{points as points_of};
ghost use Rattle.utf8.specs.Steps.{all_ascii};
ghost use Rattle.codepoints.specs.Reading.{small_of};
ghost use Rattle.labels.specs.Labels.{label_octet, opening, label_form};
ghost use Rattle.labels.specs.Answers.{judged as judged_of, code_of, fitting, label_of};

use codepoints::Read;

// How many octets the form of a label may have (L7).
const LONGEST_LABEL: usize = 63;

// How many of them are left for the code behind the opening.
const LONGEST_CODE: usize = 59;

// What the form of a label opens with that is not ASCII (L22).
const OPENING: [u8; 4] = *b"xn--";

#[tactic(auto, unfolding(crate::specs::Labels::label_octet, runs::specs::Runs::belongs), using(std::proofs::lemmas::Bool::Decides::nat_tests))]
fn label_octet(x: u8) -> bool
    ensures { result ≡ label_octet x }
{
    x.is_ascii_alphanumeric() | (x == b'-') | (128 <= x)
}

// Is it a label as it stands, whatever its form (L7)?
#[tactic(auto, unfolding(crate::specs::Answers::judged, asciiaddress::specs::Ascii::free_ends), using(std::proofs::lemmas::Bool::Decides::nat_tests))]
fn judged(s: &[u8]) -> bool
    ensures { result ≡ judged_of s.now }
{
    let n = s.len();
    n != 0 && s[0] != b'-' && s[n - 1] != b'-' && octets::all(s, label_octet)
}

// Writes the form of a label in ASCII.
#[tactic(auto, using(crate::proofs::Writing::putting_small))]
fn put_small(s: &[u8], out: &mut [u8], at: usize) -> Option<usize>
    requires { at ≤ length out.old }
    ensures { PutsText out.old out.new at (fitting (Some (lowered s.now))) result }
{
    if LONGEST_LABEL < s.len() || out.len() - at < s.len() {
        return None;
    }
    octets::put_lower(out, at, s);
    Some(at + s.len())
}

// Writes the Punycode of a label's code points, in lower case. More of them than there is room for are not coded at all, since
// each takes an octet at least: a stranger may send long labels.
#[tactic(auto, using(crate::proofs::Writing::putting_code))]
fn put_code(s: &[u8], out: &mut [u8]) -> Option<usize>
    requires { length out.old ≤ 59 }
    ensures { PutsText out.old out.new 0 (code_of (small_of (points_of s.now))) result }
{
    let mut points = [0u32; LONGEST_CODE];
    match codepoints::read_small(s, &mut points) {
        Read::Points(n) => coder::encode(&points[..n], out),
        Read::Bad => None,
        Read::Full => None,
    }
}

// Writes the opening and a code behind it, where both have room.
#[tactic(auto, using(crate::proofs::Writing::putting_opened))]
fn put_opened(code: &[u8], out: &mut [u8], at: usize) -> Option<usize>
    requires at_in_bounds { at ≤ length out.old }
    requires code_len_bound { length code.now ≤ 59 }
    ensures { Puts out.old out.new at (opening ++ code.now) result }
{
    if out.len() - at < 4 + code.len() {
        return None;
    }
    octets::put(out, at, &OPENING);
    octets::put(out, at + 4, code);
    Some(at + 4 + code.len())
}

// Writes the form of a label that is not ASCII. The code has room for 59 octets, so that the form has 63 at most.
#[tactic(auto, using(crate::proofs::Writing::putting_coded))]
fn put_coded(s: &[u8], out: &mut [u8], at: usize) -> Option<usize>
    requires at_in_bounds { at ≤ length out.old }
    requires s_value { all_ascii s.now ≡ false }
    ensures { PutsText out.old out.new at (fitting (label_form s.now)) result }
{
    let mut code = [0u8; LONGEST_CODE];
    match put_code(s, &mut code) {
        Some(n) => put_opened(&code[..n], out, at),
        None => None,
    }
}

// Writes the form of a label from a place on, and answers the place behind it. There is none where it is no label, or where
// there is no room.
#[tactic(auto, using(crate::proofs::Writing::putting_label))]
pub fn put_label(s: &[u8], out: &mut [u8], at: usize) -> Option<usize>
    requires { at ≤ length out.old }
    ensures { PutsText out.old out.new at (label_of s.now) result }
{
    if !judged(s) {
        return None;
    }
    if utf8::is_ascii(s) {
        return put_small(s, out, at);
    }
    put_coded(s, out, at)
}
