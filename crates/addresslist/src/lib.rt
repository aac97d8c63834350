// Lists of addresses (SCOPE, L9 to L18), read from the front a token at a time. A cursor is a place in a list and in the
// grammar of lists; the next address is handed out from it, with the cursor behind.
#![tactic(auto)]

pub mod token; // the tokens of a list

ghost use Rattle.std.specs.Prelude.{◌≡◌, []};
ghost use Rattle.octets.specs.Options.{only_one, or_else};
ghost use Rattle.addresslist.specs.List.{addresses};
ghost use Rattle.addresslist.specs.Answers.{beginning, Hands, counted_of, only_in, Within};

use grammar::Stage;
use token::TokenAt;

#[derive(Clone, Copy)]
pub struct ListCursor {
    pub at: usize,
    pub stage: Stage,
    pub inside: bool,
}

// The next address and the cursor behind it; or the list has ended; or it is unreadable.
#[derive(Clone, Copy)]
pub enum NextAddress {
    Address {
        from: usize,
        to: usize,
        next: ListCursor,
    },
    End,
    Unreadable,
}

// Where the one address stands of a list that has no other.
#[derive(Clone, Copy)]
pub struct OnlyAddress {
    pub from: usize,
    pub to: usize,
}

// The cursor before the first token.
pub fn start() -> ListCursor
    ensures { result ≡ beginning }
{
    ListCursor {
        at: 0,
        stage: Stage::Place,
        inside: false,
    }
}

// The next address from the cursor on. Of an unreadable list addresses may be handed out before the place where that shows.
#[tactic(auto, using(crate::proofs::Moving::nearing))]
pub fn next_address(list: &[u8], cursor: ListCursor) -> NextAddress
    ensures { Hands list.now cursor result }
{
    let mut here = cursor;
    loop {
        match token::token(list, here.at) {
            TokenAt::Address { from, to } => {
                let Some((stage, inside)) = grammar::after_address(here.stage, here.inside) else {
                    return NextAddress::Unreadable;
                };
                let next = ListCursor {
                    at: to,
                    stage,
                    inside,
                };
                return NextAddress::Address { from, to, next };
            }
            TokenAt::Other { sort, to } => {
                let Some((stage, inside)) = grammar::after(here.stage, here.inside, sort) else {
                    return NextAddress::Unreadable;
                };
                here = ListCursor {
                    at: to,
                    stage,
                    inside,
                };
            }
            TokenAt::End if grammar::may_end(here.stage, here.inside) => return NextAddress::End,
            TokenAt::End | TokenAt::Unreadable => return NextAddress::Unreadable,
        }
    }
}

// How many addresses a list has, equal ones as often as they stand (L17).
#[tactic(auto, using(crate::proofs::Counting::counting))]
pub fn count(list: &[u8]) -> Option<usize>
    ensures { result ≡ counted_of (addresses list.now) }
{
    let mut n = 0;
    let mut here = start();
    loop {
        match next_address(list, here) {
            NextAddress::Address { next, .. } => {
                n += 1;
                here = next;
            }
            NextAddress::End => return Some(n),
            NextAddress::Unreadable => return None,
        }
    }
}

// The one address of a list of exactly one.
#[tactic(auto, using(crate::proofs::Lone::alone))]
pub fn only_address(list: &[u8]) -> Option<OnlyAddress>
    ensures result_value { only_in list.now result ≡ only_one (or_else [] (addresses list.now)) }
    ensures within { Within list.now result }
{
    let NextAddress::Address { from, to, next } = next_address(list, start()) else {
        return None;
    };
    match next_address(list, next) {
        NextAddress::End => Some(OnlyAddress { from, to }),
        NextAddress::Address { .. } | NextAddress::Unreadable => None,
    }
}
