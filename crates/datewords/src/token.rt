// The tokens of a date: runs of digits, runs of letters, signs with their digits, commas and colons (SCOPE, D4), with
// blanks and comments between them (D5). A long run costs its length.
ghost use Rattle.std.specs.Prelude.{◌+◌, ◌<◌, ◌≡◌, length, get_or, drop};
ghost use Rattle.datewords.specs.Words.{opening_of, further, first_token};
ghost use Rattle.datewords.specs.Answers.{token_in, Inside};

use runs::Class;

// What a token is shows in its first octet.
#[derive(Clone, Copy)]
pub enum Opening {
    Number,
    Word,
    Plus,
    Minus,
    Mark,
}

// The token at a place; or the end; or a comment that cannot be read.
#[derive(Clone, Copy)]
pub enum WordAt {
    Between { from: usize, to: usize },
    End,
    Unreadable,
}

// What the octet opens. Commas and colons are marks, and so is an octet that opens no token of a date: no place takes it (D4).
#[tactic(auto, using(crate::proofs::Opened::opening))]
pub fn opened_by(x: u8) -> Opening
    ensures { result ≡ opening_of x }
{
    if runs::within(Class::Digit, x) {
        return Opening::Number;
    }
    if runs::within(Class::Letter, x) {
        return Opening::Word;
    }
    if x == b'+' {
        return Opening::Plus;
    }
    if x == b'-' {
        return Opening::Minus;
    }
    Opening::Mark
}

// The end of the token that begins at the place `at`.
#[tactic(auto, using(crate::proofs::Opened::ending))]
fn token_end(s: &[u8], at: usize) -> usize
    requires { at < length s.now }
    ensures { result ≡ (at + 1) + further (opening_of (get_or s.now at 0)) (drop (at + 1) s.now) }
{
    match opened_by(s[at]) {
        Opening::Number | Opening::Plus | Opening::Minus => runs::run_end(s, at + 1, Class::Digit),
        Opening::Word => runs::run_end(s, at + 1, Class::Letter),
        Opening::Mark => at + 1,
    }
}

// The first token from the place `at` on.
#[tactic(auto, using(crate::proofs::Finding::finding))]
pub fn token(s: &[u8], at: usize) -> WordAt
    ensures result_value { token_in s.now result ≡ first_token (drop at s.now) }
    ensures inside { Inside s.now result }
{
    match tokens::skip(s, at) {
        None => WordAt::Unreadable,
        Some(from) => {
            if s.len() <= from {
                return WordAt::End;
            }
            let to = token_end(s, from);
            WordAt::Between { from, to }
        }
    }
}
