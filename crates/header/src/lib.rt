// Header blocks (SCOPE, page B): the field that begins at a place, whether a whole block is readable, a value unfolded, and
// multipart/report told. What is right is said by specs/Header.antt; specs/Answers.antt leads from there to places.
#![tactic(auto)]

ghost use Rattle.std.specs.Prelude.{◌+◌, ◌≤◌, ◌<◌, ◌≡◌, get_or, drop};
ghost use Rattle.std.proofs.Math.ListN.{length};
ghost use Rattle.octets.specs.Written.{onto};
ghost use Rattle.runs.specs.Runs.{run_length};
ghost use Rattle.header.specs.Header.{of_ending, over, closes, raw_length, unfolded, readable as readable_of, may_follow, is_report};
ghost use Rattle.header.specs.Lines.{line_length, text_length};
ghost use Rattle.header.specs.Answers.{step_at};

use runs::Class;

// How long a block may be (B1).
pub const LIMIT: usize = 65536;

// What stands at a place where a line begins: the block is over; the block is unreadable; or a field, whose name
// lies from there to name_end and its value, not unfolded yet, from value to end, where the next line begins (B14).
#[derive(Clone, Copy)]
pub enum Step {
    Over,
    Broken,
    Field {
        name_end: usize,
        value: usize,
        end: usize,
    },
}

// The octet at the place `at`, and 0 past the end.
fn peek(s: &[u8], at: usize) -> u8
    ensures { result ≡ get_or s.now at 0 }
{
    s.get(at).copied().unwrap_or(0)
}

// Is the octet at the place `at` one of a line ending: an LF, or a CR directly before one (B2, B3)?
#[tactic(auto, unfolding(crate::specs::Header::of_ending))]
fn ends_at(s: &[u8], at: usize) -> bool
    requires { at < length s.now }
    ensures { result ≡ of_ending (get_or s.now at 0) (get_or s.now (at + 1) 0) }
{
    match s[at] {
        b'\n' => true,
        b'\r' => peek(s, at + 1) == b'\n',
        _ => false,
    }
}

// Is the octet at the place `at` the last of a field: an LF that neither space nor tab follows (B6)?
#[tactic(auto, unfolding(crate::specs::Header::closes))]
fn closes_at(s: &[u8], at: usize) -> bool
    requires { at < length s.now }
    ensures { result ≡ closes (get_or s.now at 0) (get_or s.now (at + 1) 0) }
{
    s[at] == b'\n' && !runs::within(Class::Blank, peek(s, at + 1))
}

// The end of the field whose value begins at the place `at`.
#[tactic(auto, using(crate::proofs::Counting::closing))]
fn raw_end(s: &[u8], at: usize) -> usize
    ensures { result ≡ at + raw_length (drop at s.now) }
{
    let mut i = octets::find(s, at, b'\n');
    while i < s.len() {
        if closes_at(s, i) {
            return i + 1;
        }
        i = octets::find(s, i + 1, b'\n');
    }
    i
}

// Is the block over at the place `at`, where a line begins (B5)?
#[tactic(auto, using(crate::proofs::Telling::telling))]
fn over_at(block: &[u8], at: usize) -> bool
    ensures { result ≡ over (drop at block.now) }
{
    block.len() <= at || ends_at(block, at)
}

// The end of the name that begins at the place `at`. It is a function of its own so that, compiled into the next one, its loop
// knows the class: of all loops over a block, this is the one that looks at each octet by itself.
fn name_end(s: &[u8], at: usize) -> usize
    ensures { result ≡ at + run_length Class.Name (drop at s.now) }
{
    runs::run_end(s, at, Class::Name)
}

// What stands at the place `at`, where a line begins. A continuation with no field above has no name, since neither space
// nor tab is of one; so it is no field (B6).
#[tactic(auto, using(crate::proofs::Stepping::stepping))]
pub fn field_at(block: &[u8], at: usize) -> Step
    ensures { result ≡ step_at block.now at }
{
    if over_at(block, at) {
        return Step::Over;
    }
    let name_end = name_end(block, at);
    // Two tests, not one joined by `||`: joined, the compiler walks the name with two counters, which takes a third longer.
    if name_end == at {
        return Step::Broken;
    }
    if peek(block, name_end) != b':' {
        return Step::Broken;
    }
    let value = name_end + 1;
    let end = raw_end(block, value);
    Step::Field {
        name_end,
        value,
        end,
    }
}

// A place in a block where a line begins.
#[derive(Clone, Copy)]
pub struct Cursor {
    pub at: usize,
}

impl Cursor {
    // What stands at the cursor. Behind a field the next line begins, at the field's end.
    pub fn step(self, block: &[u8]) -> Step
        ensures { result ≡ step_at block.now self.at }
    {
        let at = self.at;
        field_at(block, at)
    }
}

// Is the block one of fields alone, up to its end, and no longer than a block may be (B1, B8)?
#[tactic(auto, using(crate::proofs::Fields::reading))]
pub fn readable(block: &[u8]) -> bool
    ensures { result ≡ readable_of block.now }
{
    if LIMIT < block.len() {
        return false;
    }
    let mut here = Cursor { at: 0 };
    loop {
        match here.step(block) {
            Step::Over => return true,
            Step::Broken => return false,
            Step::Field { end, .. } => here = Cursor { at: end },
        }
    }
}

// The end of the text of the line from the place `at` on, whose LF, or the end, is at the place `lf`.
#[tactic(auto, using(crate::proofs::LineByLine::texts))]
fn text_end(s: &[u8], at: usize, lf: usize) -> usize
    requires { lf ≡ at + line_length (drop at s.now) }
    ensures { result ≡ at + text_length (drop at s.now) }
{
    if at < lf && ends_at(s, lf - 1) {
        lf - 1
    } else {
        lf
    }
}

// Writes the value `raw` without its line endings (B9) over the beginning of `out`, and answers how many octets that are.
// The text of each line is copied whole.
#[tactic(auto, using(crate::proofs::LineByLine::unfolds))]
pub fn unfold(raw: &[u8], out: &mut [u8]) -> usize
    requires { length raw.now ≤ length out.old }
    ensures value { result ≡ length (unfolded raw.now) }
    ensures out_after { out.new ≡ onto (unfolded raw.now) out.old }
{
    let mut n = 0;
    let mut i = 0;
    while i < raw.len() {
        let lf = octets::find(raw, i, b'\n');
        let end = text_end(raw, i, lf);
        octets::put(out, n, &raw[i..end]);
        n += end - i;
        i = lf + 1;
    }
    n
}

// May what stands at the place `at` follow the name of a type (B13)?
#[tactic(auto, using(crate::proofs::Telling::telling))]
fn may_follow(s: &[u8], at: usize) -> bool
    ensures { result ≡ may_follow (drop at s.now) }
{
    match s.get(at) {
        None => true,
        Some(&x) => runs::within(Class::Blank, x) | (x == b';') | (x == b'('),
    }
}

// Is the value of a Content-Type multipart/report, which has 16 octets (B13)?
#[tactic(auto, using(crate::proofs::Reporting::reporting))]
pub fn is_report(value: &[u8]) -> bool
    ensures { result ≡ is_report value.now }
{
    let at = runs::run_end(value, 0, Class::Blank);
    if value.len() - at < 16 {
        return false;
    }
    let end = at + 16;
    octets::same_name(&value[at..end], b"multipart/report") && may_follow(value, end)
}
