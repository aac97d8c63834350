// The tokens of a list: the signs `,` `<` `>` `:` `;`, words and addresses (SCOPE, L9, L10, L12), with blanks and comments
// between them (L11). A long run costs its length.
ghost use Rattle.std.specs.Prelude.{◌<◌, ◌≡◌, true, length, get_or, drop};
ghost use Rattle.address.specs.Address.{address_octet};
ghost use Rattle.addresslist.specs.List.{opening_of, run_token, quoted_token, token_at, first_token};
ghost use Rattle.addresslist.specs.Answers.{found_in, Inside};

use grammar::Sort;
use runs::Class;

// What an octet opens.
#[derive(Clone, Copy)]
pub enum Start {
    Run,
    Quote,
    Sign(Sort),
    Nothing,
}

// The token at a place; or the end; or what cannot be read.
#[derive(Clone, Copy)]
pub enum TokenAt {
    Address { from: usize, to: usize },
    Other { sort: Sort, to: usize },
    End,
    Unreadable,
}

// What the octet opens; a control octet, a bracket or a backslash opens nothing (L5, L15).
#[tactic(auto, unfolding(crate::specs::List::opening_of))]
pub fn opened_by(x: u8) -> Start
    ensures { result ≡ opening_of x }
{
    if runs::within(Class::Address, x) {
        return Start::Run;
    }
    match x {
        b'"' => Start::Quote,
        b',' => Start::Sign(Sort::Comma),
        b'<' => Start::Sign(Sort::Less),
        b'>' => Start::Sign(Sort::Greater),
        b':' => Start::Sign(Sort::Colon),
        b';' => Start::Sign(Sort::Semicolon),
        _ => Start::Nothing,
    }
}

// The run that begins at the place `from`: an address as a whole, or words; with an `@` in it and no address it is
// unreadable (L12).
#[tactic(auto, using(crate::proofs::Finding::finding_run))]
fn run(list: &[u8], from: usize) -> TokenAt
    requires { (from < length list.now) × (address_octet (get_or list.now from 0) ≡ true) }
    ensures result_value { found_in list.now result ≡ run_token (drop from list.now) }
    ensures inside { Inside list.now from result }
{
    let to = runs::run_end(list, from, Class::Address);
    let text = &list[from..to];
    if address::is_plain(text) {
        return TokenAt::Address { from, to };
    }
    if text.contains(&b'@') {
        return TokenAt::Unreadable;
    }
    TokenAt::Other {
        sort: Sort::Word,
        to,
    }
}

// The quoted string whose opening quote stands at the place `from`: a word (L10).
#[tactic(auto, using(crate::proofs::Finding::finding_quoted))]
fn quoted(list: &[u8], from: usize) -> TokenAt
    requires { from < length list.now }
    ensures result_value { found_in list.now result ≡ quoted_token (drop from list.now) }
    ensures inside { Inside list.now from result }
{
    match tokens::quoted(list, from + 1) {
        Some(to) => TokenAt::Other {
            sort: Sort::Word,
            to,
        },
        None => TokenAt::Unreadable,
    }
}

// The token whose first octet stands at the place `from`.
#[tactic(auto, using(crate::proofs::Finding::finding_at))]
fn token_at(list: &[u8], from: usize) -> TokenAt
    requires { from < length list.now }
    ensures result_value { found_in list.now result ≡ token_at (drop from list.now) }
    ensures inside { Inside list.now from result }
{
    match opened_by(list[from]) {
        Start::Run => run(list, from),
        Start::Quote => quoted(list, from),
        Start::Sign(sort) => TokenAt::Other { sort, to: from + 1 },
        Start::Nothing => TokenAt::Unreadable,
    }
}

// The first token from the place `at` on.
#[tactic(auto, using(crate::proofs::Finding::finding))]
pub fn token(list: &[u8], at: usize) -> TokenAt
    ensures result_value { found_in list.now result ≡ first_token (drop at list.now) }
    ensures inside { Inside list.now at result }
{
    match tokens::skip(list, at) {
        Some(from) => {
            if list.len() <= from {
                return TokenAt::End;
            }
            token_at(list, from)
        }
        None => TokenAt::Unreadable,
    }
}
