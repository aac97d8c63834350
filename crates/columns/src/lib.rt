// One column of a line of the listing (W8, W9): a text, a number, a time or a preference, each with the octet behind it,
// written into a lent buffer. What they are stands in specs/Columns.antt.
#![tactic(auto)]

ghost use Rattle.columns.specs.Columns.{decimal, time_text, preference_text, ended};
ghost use Rattle.columns.specs.Putting.{Room, Put};

// Writes `text` from the place `at` on and `end` behind it, and answers the place behind both.
#[tactic(auto, using(crate::proofs::Placing::ending))]
pub fn put_text(out: &mut [u8], at: usize, text: &[u8], end: u8) -> usize
    requires { Room out.old at (ended text.now end) }
    ensures { Put out.old out.new at (ended text.now end) result }
{
    octets::put(out, at, text);
    let o = at + text.len();
    out[o] = end;
    o + 1
}

// Writes a number in base ten (W9): the digits before the last, by a call of itself that goes at most 19 deep, and the
// last.
pub fn put_decimal(out: &mut [u8], at: usize, n: u64) -> usize
    requires { Room out.old at (decimal n) }
    ensures { Put out.old out.new at (decimal n) result }
{
    if n < 10 {
        out[at] = b'0' + n as u8;
        return at + 1;
    }
    let o = put_decimal(out, at, n / 10);
    out[o] = b'0' + (n % 10) as u8;
    o + 1
}

// Writes a number and `end` behind it.
#[tactic(auto, using(crate::proofs::Placing::ending))]
pub fn put_number(out: &mut [u8], at: usize, n: u64, end: u8) -> usize
    requires { Room out.old at (ended (decimal n) end) }
    ensures { Put out.old out.new at (ended (decimal n) end) result }
{
    let o = put_decimal(out, at, n);
    out[o] = end;
    o + 1
}

// Writes a time, or a hyphen where there is none (W9), and a space behind it.
pub fn put_time(out: &mut [u8], at: usize, time: Option<u64>) -> usize
    requires { Room out.old at (ended (time_text time) 32) }
    ensures { Put out.old out.new at (ended (time_text time) 32) result }
{
    match time {
        Some(seconds) => put_number(out, at, seconds, b' '),
        None => put_text(out, at, b"-", b' '),
    }
}

// Writes the preference, `mutual` or `none` (W8), and a space behind it.
#[tactic(auto, using(crate::proofs::Placing::choosing))]
pub fn put_preference(out: &mut [u8], at: usize, mutual: bool) -> usize
    requires { Room out.old at (ended (preference_text «mutual») 32) }
    ensures { Put out.old out.new at (ended (preference_text «mutual») 32) result }
{
    let text: &[u8] = if mutual { b"mutual" } else { b"none" };
    put_text(out, at, text, b' ')
}
