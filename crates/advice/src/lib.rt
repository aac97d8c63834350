// Recommending (page A): what is advised for one recipient, and where the key to encrypt to lies in the table. What is
// right is said by specs/Advice.antt, over entries; specs/Places.antt leads from there to the table.
#![tactic(auto)]

ghost use Rattle.std.specs.Prelude.{◌≤◌, ◌≡◌, true, []};
ghost use Rattle.octets.specs.Options.{or_else, is_some};
ghost use Rattle.address.specs.Address.{plain, canonical as canonical_of};
ghost use Rattle.addresslist.specs.List.{addresses};
ghost use Rattle.heads.specs.Head.{time_limit};
ghost use Rattle.table.specs.Tagged.{Open};
ghost use Rattle.lookup.specs.Held.{held_of};
ghost use Rattle.advice.specs.Advice.{raised, advice_in};
ghost use Rattle.advice.specs.Places.{rated_as, key_part, target_part, target_at};

use addresslist::NextAddress;
use heads::Head;
use lookup::Held;
use slots::Slot;

// A3: 35 days, in seconds. A key is advised against where last seen lies further than that above its timestamp.
const PATIENCE: u64 = 3024000;

// What is advised, from the lowest to the highest (A1): a list gets the lowest of its recipients' advices (A5).
#[derive(Clone, Copy, PartialEq, Eq, PartialOrd, Ord)]
pub enum Advice {
    Disable,
    Discourage,
    Available,
    Encrypt,
}

// A part of the table: so many octets from a place on, counted from the table's first octet. An empty one has start and
// length 0 (A6, A7).
#[derive(Clone, Copy)]
pub struct Part {
    pub start: usize,
    pub length: usize,
}

impl Part {
    pub const EMPTY: Self = Self {
        start: 0,
        length: 0,
    };
}

// What the entry with these numbers gets before reply and preferences are looked at (A2).
#[tactic(auto, unfolding(crate::specs::Places::rated_as, crate::specs::Advice::stale))]
fn rate(entry: Head) -> Advice
    requires { entry.timestamp ≤ time_limit }
    ensures { result ≡ rated_as entry }
{
    if entry.direct {
        if entry.timestamp + PATIENCE < entry.last_seen {
            Advice::Discourage
        } else {
            Advice::Available
        }
    } else if entry.gossip {
        Advice::Discourage
    } else {
        Advice::Disable
    }
}

// What reply and preferences make of it (A4): with a reply discourage and available become encrypt, and with both
// preferences available does.
#[tactic(auto, unfolding(crate::specs::Advice::raised))]
fn raise(advice: Advice, reply: bool, both: bool) -> Advice
    ensures { result ≡ raised reply both advice }
{
    match advice {
        Advice::Discourage if reply => Advice::Encrypt,
        Advice::Available if reply || both => Advice::Encrypt,
        _ => advice,
    }
}

// What the table has of an address: its canonical form is looked for (T15).
#[tactic(auto, using(crate::proofs::Locating::locating))]
fn locate(table: &[u8], tags: &[u32; Slot::MOST], address: &[u8]) -> Option<Held>
    requires { Open table.now tags.now × (plain address.now ≡ true) }
    ensures { result ≡ held_of table.now (canonical_of address.now) }
{
    let mut form = [0u8; address::LONGEST];
    let n = address::form_of(address, &mut form);
    lookup::entry_of(table, tags, &form[..n])
}

// What is advised for one recipient (A2, A4).
#[tactic(auto, using(crate::proofs::Advising::advising))]
pub fn advise(
    table: &[u8],
    tags: &[u32; Slot::MOST],
    address: &[u8],
    mutual: bool,
    reply: bool,
) -> Advice
    requires { Open table.now tags.now × (plain address.now ≡ true) }
    ensures { result ≡ advice_in table.now «mutual» reply address.now }
{
    match locate(table, tags, address) {
        Some(held) => {
            let both = mutual & held.numbers.mutual;
            raise(rate(held.numbers), reply, both)
        }
        None => Advice::Disable,
    }
}

// Where the key to encrypt to lies, of the entry with these numbers, whose keys begin there (A2).
#[tactic(auto, unfolding(crate::specs::Places::key_part))]
fn key_part(numbers: Head, direct: usize, gossip: usize) -> Part
    ensures { result ≡ key_part numbers direct gossip }
{
    if numbers.direct {
        Part {
            start: direct,
            length: numbers.direct_length,
        }
    } else if numbers.gossip {
        Part {
            start: gossip,
            length: numbers.gossip_length,
        }
    } else {
        Part::EMPTY
    }
}

// Where the key to encrypt to lies for one recipient (A6); an empty part where there is none (A7).
#[tactic(auto, using(crate::proofs::Targets::targeting))]
fn target(table: &[u8], tags: &[u32; Slot::MOST], address: &[u8]) -> Part
    requires { Open table.now tags.now × (plain address.now ≡ true) }
    ensures { result ≡ target_part table.now address.now }
{
    match locate(table, tags, address) {
        Some(held) => key_part(held.numbers, held.direct, held.gossip),
        None => Part::EMPTY,
    }
}

// Where the key to encrypt to lies for the recipient at a place of the list, the first being at 0 (A6, A10); past the list
// the part is empty (A7).
#[tactic(auto, using(crate::proofs::Targets::reaching))]
pub fn target_at(table: &[u8], tags: &[u32; Slot::MOST], recipients: &[u8], place: usize) -> Part
    requires { Open table.now tags.now × (is_some (addresses recipients.now) ≡ true) }
    ensures { result ≡ target_at table.now (or_else [] (addresses recipients.now)) place }
{
    let mut left = place;
    let mut here = addresslist::start();
    loop {
        match addresslist::next_address(recipients, here) {
            NextAddress::Address { from, to, next } => {
                if left == 0 {
                    return target(table, tags, &recipients[from..to]);
                }
                left -= 1;
                here = next;
            }
            NextAddress::End | NextAddress::Unreadable => return Part::EMPTY,
        }
    }
}
