// What lists and dates share: blanks and comments skipped (SCOPE, L11 and D5); and quoted strings passed, which lists have
// (L3). A reader is given the text and a place in it, and answers a place.
#![tactic(auto)]

ghost use Rattle.std.specs.Prelude.{suc, ◌+◌, ◌<◌, ◌≡◌, false, drop};
ghost use Rattle.tokens.specs.Tokens.{control, kind_of, depth, skipped, after_quote};
ghost use Rattle.tokens.specs.Answers.{reached, takes as takes_of, step_in, opened, Opening, Passed};

// Comments may stand one inside the other so deep, the outermost at 1 (L2).
const DEPTH: usize = 16;

// What an octet is inside a comment or a quoted string.
#[derive(Clone, Copy)]
pub enum OctetKind {
    Closes,
    Escapes,
    Control,
    Plain,
}

// What reading inside a comment or a quoted string comes to at a place: it goes on at another place, it has come to
// the end and to the place behind it, or the text is unreadable.
#[derive(Clone, Copy)]
enum StepIn {
    On(usize),
    Ends(usize),
    Stops,
}

// Is it an octet below 32, or 127, the tab excepted (L1)?
#[tactic(auto, unfolding(crate::specs::Tokens::control))]
pub fn is_control(x: u8) -> bool
    ensures { result ≡ control x }
{
    x != b'\t' && x.is_ascii_control()
}

// What `x` is inside a comment or a quoted string that `closing` closes.
#[tactic(auto, unfolding(crate::specs::Tokens::kind_of))]
fn kind_of(closing: u8, x: u8) -> OctetKind
    ensures { result ≡ kind_of closing x }
{
    if x == closing {
        OctetKind::Closes
    } else if x == b'\\' {
        OctetKind::Escapes
    } else if is_control(x) {
        OctetKind::Control
    } else {
        OctetKind::Plain
    }
}

// Does an octet stand at the place `at` that a backslash before it may take? A control octet is none (L5).
#[tactic(auto, using(crate::proofs::Telling::telling))]
fn takes(s: &[u8], at: usize) -> bool
    ensures { result ≡ takes_of (drop at s.now) }
{
    at < s.len() && !is_control(s[at])
}

// What stands at the place `at` inside a comment or a quoted string that `closing` closes.
#[tactic(auto, using(crate::proofs::Stepping::stepping))]
fn step_in(closing: u8, s: &[u8], at: usize) -> StepIn
    ensures { result ≡ step_in closing at (drop at s.now) }
{
    if s.len() <= at {
        return StepIn::Stops;
    }
    match kind_of(closing, s[at]) {
        OctetKind::Closes => StepIn::Ends(at + 1),
        OctetKind::Escapes if takes(s, at + 1) => StepIn::On(at + 2),
        OctetKind::Escapes | OctetKind::Control => StepIn::Stops,
        OctetKind::Plain => StepIn::On(at + 1),
    }
}

// A comment opens at the place `at`, where `room` more may be open, this one counted: reads to behind its end.
#[cycle(comment_content)]
fn comment(s: &[u8], at: usize, room: usize) -> Option<usize>
    requires { Opening s.now at room }
    ensures { Passed s.now at (opened room) (opened room) result }
{
    if room == 0 {
        return None;
    }
    content(s, at + 1, room - 1)
}

// The content of a comment from the place `at` on, where `room` more may be open: reads to behind the comment's end. Its
// octets are read in a loop, so that a long comment takes no more of the stack than a short one.
#[cycle(comment_content)]
fn content(s: &[u8], at: usize, room: usize) -> Option<usize>
    requires { room < depth }
    ensures { Passed s.now at (suc (opened (room + 1))) (opened (room + 1)) result }
{
    let mut i = at;
    while i < s.len() {
        if s[i] == b'(' {
            match comment(s, i, room) {
                Some(n) => i = n,
                None => return None,
            }
        } else {
            match step_in(b')', s, i) {
                StepIn::On(n) => i = n,
                StepIn::Ends(n) => return Some(n),
                StepIn::Stops => return None,
            }
        }
    }
    None
}

// The place behind all spaces, tabs and comments from the place `at` on.
#[tactic(auto, using(crate::proofs::Skipping::skipping))]
pub fn skip(s: &[u8], at: usize) -> Option<usize>
    ensures { result ≡ reached s.now (skipped (drop at s.now)) }
{
    let mut i = at;
    while i < s.len() {
        if octets::is_blank(s[i]) {
            i += 1;
        } else if s[i] == b'(' {
            i = comment(s, i, DEPTH)?;
        } else {
            return Some(i);
        }
    }
    Some(s.len())
}

// The place behind a quoted string whose opening quote stands before the place `at`.
#[tactic(auto, using(crate::proofs::Quoting::quoting))]
pub fn quoted(s: &[u8], at: usize) -> Option<usize>
    ensures { result ≡ reached s.now (after_quote false (drop at s.now)) }
{
    let mut i = at;
    while i < s.len() {
        match step_in(b'"', s, i) {
            StepIn::On(n) => i = n,
            StepIn::Ends(n) => return Some(n),
            StepIn::Stops => return None,
        }
    }
    None
}
