// The letters of Base64 (SCOPE, F9): the letter of a value, what a character stands for, and what four characters do. What
// is right is said by specs/Base64.antt. Texts are decoded by the crate `keydata`, and octets written as lines by the crate
// `keylines`.
#![tactic(auto)]

ghost use Rattle.std.specs.Prelude.{◌<◌, ◌≡◌};
ghost use Rattle.letters.specs.Base64.{letter, sign_of, closed, group_of};
ghost use Rattle.letters.specs.Tables.{Letters, code_of, Signs, Low};

// What a character stands for.
#[derive(Clone, Copy)]
pub enum Sign {
    Value(u8),
    Pad,
    Other,
}

// What four characters stand for.
#[derive(Clone, Copy)]
pub enum Group {
    Three(u8, u8, u8),
    Two(u8, u8),
    One(u8),
    Broken,
}

// The letter of each value. Looking letters up, where the values are as good as random, takes about a tenth of the time of
// choosing them by tests.
#[tactic(auto, using(crate::proofs::Alphabet::lettering))]
pub fn letters() -> [u8; 64]
    ensures { Letters result }
{
    *b"ABCDEFGHIJKLMNOPQRSTUVWXYZabcdefghijklmnopqrstuvwxyz0123456789+/"
}

// The letter of a value.
pub fn letter_of(letters: &[u8; 64], value: u8) -> u8
    requires { Letters letters.now × (value < 64) }
    ensures { result ≡ letter value }
{
    letters[usize::from(value)]
}

// For each octet what it stands for as a character: a value, 64 for the pad, 65 for nothing. It is made
// once a text: looking characters up in it takes about a fifth of the time of comparing them.
#[tactic(auto, using(crate::proofs::Alphabet::tabling))]
pub fn signs() -> [u8; 256]
    ensures { Signs result }
{
    let letters = letters();
    let mut table = [65u8; 256];
    for value in 0..64u8 {
        table[usize::from(letter_of(&letters, value))] = value;
    }
    table[usize::from(b'=')] = 64;
    table
}

// What a character stands for, as the number that the table has.
pub fn code_of(table: &[u8; 256], x: u8) -> u8
    requires { Signs table.now }
    ensures { result ≡ code_of (sign_of x) }
{
    table[usize::from(x)]
}

// What a character stands for.
#[tactic(auto, using(crate::proofs::Alphabet::finding))]
fn sign_of(table: &[u8; 256], x: u8) -> Sign
    requires { Signs table.now }
    ensures { (result ≡ sign_of x) × Low result }
{
    let code = code_of(table, x);
    match code {
        0..=63 => Sign::Value(code),
        64 => Sign::Pad,
        _ => Sign::Other,
    }
}

// The three octets of four values.
#[tactic(auto, unfolding(crate::specs::Base64::closed))]
fn three(p: u8, q: u8, r: u8, s: u8) -> Group
    requires { (p < 64) × (q < 64) × (r < 64) × (s < 64) }
    ensures { result ≡ closed p q (Sign.Value r) (Sign.Value s) }
{
    Group::Three(p * 4 + q / 16, q % 16 * 16 + r / 4, r % 4 * 64 + s)
}

// The two octets of three values, where the last two bits are zero (F9).
#[tactic(auto, unfolding(crate::specs::Base64::closed))]
fn two(p: u8, q: u8, r: u8) -> Group
    requires { (p < 64) × (q < 64) × (r < 64) }
    ensures { result ≡ closed p q (Sign.Value r) Sign.Pad }
{
    if r % 4 == 0 {
        Group::Two(p * 4 + q / 16, q % 16 * 16 + r / 4)
    } else {
        Group::Broken
    }
}

// The octet of two values, where the last four bits are zero (F9).
#[tactic(auto, unfolding(crate::specs::Base64::closed))]
fn one(p: u8, q: u8) -> Group
    requires { (p < 64) × (q < 64) }
    ensures { result ≡ closed p q Sign.Pad Sign.Pad }
{
    if q % 16 == 0 {
        Group::One(p * 4 + q / 16)
    } else {
        Group::Broken
    }
}

// What four characters stand for.
#[tactic(auto, unfolding(crate::specs::Base64::closed, crate::specs::Base64::grouped))]
pub fn group_of(table: &[u8; 256], a: u8, b: u8, c: u8, d: u8) -> Group
    requires { Signs table.now }
    ensures { result ≡ group_of a b c d }
{
    match (
        sign_of(table, a),
        sign_of(table, b),
        sign_of(table, c),
        sign_of(table, d),
    ) {
        (Sign::Value(p), Sign::Value(q), Sign::Value(r), Sign::Value(s)) => three(p, q, r, s),
        (Sign::Value(p), Sign::Value(q), Sign::Value(r), Sign::Pad) => two(p, q, r),
        (Sign::Value(p), Sign::Value(q), Sign::Pad, Sign::Pad) => one(p, q),
        _ => Group::Broken,
    }
}
