// The keys that a message brings: that of the Autocrypt field that counts (F13), and those of accepted gossip (G5). What
// is right is said by specs/Keys.antt. A key has at most `limit` octets.
//
// Values are unfolded into a lent text, which has to be as long as the block. What it holds afterwards means nothing, nor
// does what a lent key or address holds behind the length that is answered.
#![tactic(auto)]

ghost use Rattle.roll.specs.Roll.{unrolled};
ghost use Rattle.fields.specs.Fields.{fields_in};
ghost use Rattle.keyowner.specs.Answers.{OwnAs};
ghost use Rattle.keys.specs.Keys.{counted_in};
ghost use Rattle.keys.specs.Answers.{Takes, TakenAs, Seeks, ValidAs, Weighs, Hears, HeardAs};

use fields::{Kind, Survey};
use keyowner::{Accepted, OwnKey};
use slots::Slot;

// The value of a field, unfolded: its length, and where the next line begins.
#[derive(Clone, Copy)]
enum Taken {
    Value { length: usize, end: usize },
    NoValue,
}

// A valid Autocrypt field: what it brings, and where the next line begins.
#[derive(Clone, Copy)]
struct Valid {
    own: OwnKey,
    end: usize,
}

// Accepted gossip: what it brings, and where the next line begins.
#[derive(Clone, Copy)]
pub struct Heard {
    pub gossip: Accepted,
    pub end: usize,
}

// The value of the first field of the kind from the place `at` on, unfolded to the front of the text.
#[tactic(auto, using(crate::proofs::Walking::taking))]
fn take_value(block: &[u8], at: usize, last: usize, kind: Kind, text: &mut [u8]) -> Taken
    requires { Takes kind block.now at last text.old }
    ensures { TakenAs kind block.now at text.new result }
{
    match fields::find(block, at, last, kind) {
        Some(field) => Taken::Value {
            length: field.unfold(block, text),
            end: field.end,
        },
        None => Taken::NoValue,
    }
}

// The first Autocrypt field from the place `at` on that is valid for the sender (F12), its key written to the front of
// `key`.
#[tactic(auto, using(crate::proofs::ValidFields::trying))]
fn next_valid(
    block: &[u8],
    limit: usize,
    at: usize,
    last: usize,
    sender: &[u8],
    text: &mut [u8],
    key: &mut [u8],
) -> Option<Valid>
    requires { Seeks limit block.now at last sender.now text.old key.old }
    ensures { ValidAs limit sender.now block.now at key.new result }
{
    let mut place = at;
    while let Taken::Value { length, end } = take_value(block, place, last, Kind::Autocrypt, text) {
        if let Some(own) = keyowner::valid_for(&text[0..length], limit, sender, key) {
            return Some(Valid { own, end });
        }
        place = end;
    }
    None
}

// The Autocrypt field that counts, its key written to the front of `key`: there is a valid one and no second (F13). The
// key of a second one is read into spare memory, which has room for the longest key of a table.
#[tactic(auto, using(crate::proofs::Counting::counting))]
pub fn counted_field(
    block: &[u8],
    limit: usize,
    survey: Survey,
    sender: &[u8],
    text: &mut [u8],
    key: &mut [u8],
) -> Option<OwnKey>
    requires { Weighs limit block.now survey sender.now text.old key.old }
    ensures { OwnAs limit sender.now (counted_in limit (fields_in block.now) sender.now) key.new result }
{
    let span = survey.autocrypt;
    let last = span.last;
    let first = next_valid(block, limit, span.first, last, sender, text, key)?;
    let mut spare = [0u8; Slot::KEY_LIMIT];
    match next_valid(block, limit, first.end, last, sender, text, &mut spare) {
        Some(_) => None,
        None => Some(first.own),
    }
}

// The next accepted gossip of the payload from the place `at` on (G5), its address and key written to the front of
// `address` and `key`.
#[tactic(auto, using(crate::proofs::GossipFields::hearing))]
pub fn next_gossip(
    payload: &[u8],
    limit: usize,
    at: usize,
    recipients: &[u8],
    tags: &[u32],
    places: &[u16],
    text: &mut [u8],
    address: &mut [u8],
    key: &mut [u8],
) -> Option<Heard>
    requires { Hears limit payload.now at recipients.now tags.now places.now text.old address.old key.old }
    ensures { HeardAs limit (unrolled recipients.now) payload.now at address.new key.new result }
{
    let mut place = at;
    let kind = Kind::AutocryptGossip;
    while let Taken::Value { length, end } = take_value(payload, place, payload.len(), kind, text) {
        let value = &text[0..length];
        if let Some(gossip) = keyowner::accept(
            value, limit, recipients, tags, places, address, key,
        ) {
            return Some(Heard { gossip, end });
        }
        place = end;
    }
    None
}
