// What a text goes on with at a place: its next four characters, with blanks anywhere, and the octets that they stand for
// (SCOPE, F9). What is right is said by `decode` of letters/specs/Base64.antt; specs/Steps.antt leads from there to places.
#![tactic(auto)]

ghost use Rattle.std.specs.Prelude.{◌+◌, ◌*◌, ◌≤◌, ◌<◌, ◌≡◌, length, drop};
ghost use Rattle.octets.specs.Octets.{without_blanks};
ghost use Rattle.letters.specs.Tables.{Signs};
ghost use Rattle.groups.specs.Steps.{NextLetter, step_of, NextGroup, WholeGroup};

use letters::Group;
use runs::Class;

// What a text goes on with: three octets and the place behind their characters, its last octets, its
// end, or what is not Base64.
#[derive(Clone, Copy)]
pub enum Next {
    Three(u8, u8, u8, usize),
    Two(u8, u8),
    One(u8),
    End,
    Broken,
}

// The next character from the place `at` on that is no blank, with the place behind it.
#[tactic(auto, using(crate::proofs::Blanks::lettered))]
fn next_letter(src: &[u8], at: usize) -> Option<(u8, usize)>
    ensures { NextLetter src.now at result }
{
    let i = runs::run_end(src, at, Class::Blank);
    if i < src.len() {
        Some((src[i], i + 1))
    } else {
        None
    }
}

// What a text goes on with, whose next four characters are a group and end at the place `n`. A group with
// pads is the last: only blanks may follow it (F9).
#[tactic(auto, unfolding(crate::specs::Steps::step_of), using(crate::proofs::Nexts::stepping))]
fn step(src: &[u8], group: Group, n: usize) -> Next
    ensures { result ≡ step_of group n (without_blanks (drop n src.now)) }
{
    match group {
        Group::Three(x, y, z) => Next::Three(x, y, z, n),
        Group::Two(x, y) => match next_letter(src, n) {
            None => Next::Two(x, y),
            Some(_) => Next::Broken,
        },
        Group::One(x) => match next_letter(src, n) {
            None => Next::One(x),
            Some(_) => Next::Broken,
        },
        Group::Broken => Next::Broken,
    }
}

// What the text goes on with from the place `at` on, with blanks anywhere.
#[tactic(auto, using(crate::proofs::Nexts::spacing))]
pub fn next_group(table: &[u8; 256], src: &[u8], at: usize) -> Next
    requires { Signs table.now }
    ensures { NextGroup src.now at result }
{
    let Some((a, i)) = next_letter(src, at) else {
        return Next::End;
    };
    let Some((b, j)) = next_letter(src, i) else {
        return Next::Broken;
    };
    let Some((c, k)) = next_letter(src, j) else {
        return Next::Broken;
    };
    let Some((d, n)) = next_letter(src, k) else {
        return Next::Broken;
    };
    step(src, letters::group_of(table, a, b, c, d), n)
}

// The 24 bits of four values.
fn bits(p: u8, q: u8, r: u8, s: u8) -> u32
    requires { (p < 64) × (q < 64) × (r < 64) × (s < 64) }
    ensures { result ≡ p * 262144 + q * 4096 + r * 64 + s }
{
    u32::from(p) * 262144 + u32::from(q) * 4096 + u32::from(r) * 64 + u32::from(s)
}

// The octets of the four characters from the place `at` on, where all are letters. Nearly all groups of a text are such: they
// are taken by this, where no character is compared with a blank and no answer goes through memory, and the others by
// `next_group`.
#[tactic(auto, unfolding(crate::specs::Steps::WholeGroup))]
pub fn whole_group(table: &[u8; 256], src: &[u8], at: usize) -> Option<[u8; 3]>
    requires { Signs table.now × (at ≤ length src.now) }
    ensures { WholeGroup src.now at result }
{
    let &[a, b, c, d, ..] = &src[at..] else {
        return None;
    };
    let p = letters::code_of(table, a);
    let q = letters::code_of(table, b);
    let r = letters::code_of(table, c);
    let s = letters::code_of(table, d);
    if 64 <= p || 64 <= q || 64 <= r || 64 <= s {
        return None;
    }
    let [_, x, y, z] = bits(p, q, r, s).to_be_bytes();
    Some([x, y, z])
}
