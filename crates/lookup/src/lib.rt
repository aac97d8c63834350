// Looking through a table: whether it is sound (T13), where an address stands in it (T15), and what it has of an address.
// The check makes a tag for each slot and hands them out; whoever looks for an address later compares these first.
#![tactic(auto)]

ghost use Rattle.std.specs.Prelude.{◌<◌, ◌≡◌, length};
ghost use Rattle.slots.specs.Slot.{slot_length};
ghost use Rattle.table.specs.Table.{most_slots, slots as slots_of, has_address, lowest, found, in_lower, right_by, whole};
ghost use Rattle.table.specs.Tagged.{tag_at, Tagged, Open};
ghost use Rattle.lookup.specs.Looking.{Seeks, Judges, Compares, Checks};
ghost use Rattle.lookup.specs.Held.{held_of};

use heads::Head;
use slots::{Slot, Spelling};
use table::Checked;

// What a table has of an address: the numbers of its entry, and where the entry's two keys begin in the table.
#[derive(Clone, Copy)]
pub struct Held {
    pub numbers: Head,
    pub direct: usize,
    pub gossip: usize,
}

// So many slots are looked through one by one sooner than their tags are compared at once.
const FEW: usize = 8;

// Is the slot used, and this its address (T12)? First octets that differ are told without a call: where all addresses have
// one tag, there would be one for each pair.
#[tactic(auto, unfolding(table::specs::Table::has_address))]
fn holds(slot: &[u8], address: &[u8]) -> bool
    requires { length slot.now ≡ slot_length }
    ensures { result ≡ has_address address.now slot.now }
{
    let own = slots::address_of(slot);
    if !own.is_empty() && !address.is_empty() && own[0] != address[0] {
        return false;
    }
    slots::is_marked(slot) && octets::same(own, address)
}

// The lowest of the first `n` slots that holds the address (T12): tags are compared before addresses, and the first equal
// address leads out of the scan.
#[tactic(auto, using(crate::proofs::Searching::searching))]
fn search(
    table: &[u8],
    tags: &[u32; Slot::MOST],
    address: &[u8],
    tag: u32,
    n: usize,
) -> Option<usize>
    requires { Seeks table.now tags.now address.now tag n }
    ensures { result ≡ lowest (has_address address.now) table.now 0 n }
{
    for i in 0..n {
        if tags[i] == tag && holds(table::slot_at(table, i), address) {
            return Some(i);
        }
    }
    None
}

// The lowest of the first `n` slots that holds the address, as `search` finds it. Where there are more than a few slots,
// they are looked through only if one of them has the tag: all tags are compared first, several at once.
#[tactic(auto, using(crate::proofs::Searching::sifting))]
pub fn lowest_with(
    table: &[u8],
    tags: &[u32; Slot::MOST],
    address: &[u8],
    tag: u32,
    n: usize,
) -> Option<usize>
    requires { Seeks table.now tags.now address.now tag n }
    ensures { result ≡ lowest (has_address address.now) table.now 0 n }
{
    if FEW < n && !tags::is_among(tags, n, tag) {
        return None;
    }
    search(table, tags, address, tag, n)
}

// The slot that holds the canonical address (T15).
#[tactic(auto, using(crate::proofs::Searching::finding))]
pub fn find(table: &[u8], tags: &[u32; Slot::MOST], address: &[u8]) -> Option<usize>
    requires { Tagged table.now tags.now }
    ensures { result ≡ found table.now address.now }
{
    lowest_with(
        table,
        tags,
        address,
        tags::tag_of(address),
        table::count(table),
    )
}

// What the table has of the address.
#[tactic(auto, using(crate::proofs::Holding::holding))]
pub fn entry_of(table: &[u8], tags: &[u32; Slot::MOST], address: &[u8]) -> Option<Held>
    requires { Open table.now tags.now }
    ensures { result ≡ held_of table.now address.now }
{
    let i = find(table, tags, address)?;
    let at = i * Slot::LEN;
    Some(Held {
        numbers: table::numbers(table, i),
        direct: at + Slot::DIRECT_AT,
        gossip: at + Slot::GOSSIP_AT,
    })
}

// The tag of the slot: that of its address, and 0 where it is not used.
#[tactic(auto, unfolding(table::specs::Tagged::tag_at))]
pub fn tag_at(table: &[u8], i: usize) -> u32
    requires { i < slots_of table.now }
    ensures { result ≡ tag_at table.now i }
{
    let slot = table::slot_at(table, i);
    if slots::is_marked(slot) {
        tags::tag_of(slots::address_of(slot))
    } else {
        0
    }
}

// Does the address of the used slot stand in a lower one (T8.3)?
#[tactic(auto, using(crate::proofs::Checking::looking_lower))]
fn in_lower(table: &[u8], tags: &[u32; Slot::MOST], i: usize) -> bool
    requires { Compares table.now tags.now i }
    ensures { result ≡ in_lower table.now i }
{
    let lower = lowest_with(table, tags, table::address(table, i), tags[i], i);
    matches!(lower, Some(_))
}

// Is the slot free, or sound with its address in no lower slot (R2)?
#[tactic(auto, using(crate::proofs::Checking::being_right))]
fn is_right(table: &[u8], tags: &[u32; Slot::MOST], i: usize, how: Spelling) -> bool
    requires { Judges table.now tags.now i }
    ensures { result ≡ right_by how table.now i }
{
    let slot = table::slot_at(table, i);
    if !slots::is_marked(slot) {
        return slots::is_free(slot);
    }
    slots::is_sound(slot, how) && !in_lower(table, tags, i)
}

// Is the length that of 1 to 256 whole slots (R1)?
#[tactic(auto, unfolding(table::specs::Table::whole))]
fn is_whole(table: &[u8]) -> bool
    ensures { result ≡ whole table.now }
{
    let n = table::count(table);
    table.len() % Slot::LEN == 0 && (1..=Slot::MOST).contains(&n)
}

// Is it a table (R1, R2), with addresses in the one spelling or the other (T16)? Every call asks this first, and gets the
// tags with the answer. Those of the slots that are passed are there for the slots above.
#[tactic(auto, using(crate::proofs::Checking::judging))]
pub fn check(table: &[u8], tags: &mut [u32; Slot::MOST], how: Spelling) -> Checked
    requires { length tags.old ≡ most_slots }
    ensures { Checks how table.now tags.new result }
{
    if !is_whole(table) {
        return Checked::Length;
    }
    for i in 0..table::count(table) {
        tags[i] = tag_at(table, i);
        if !is_right(table, tags, i, how) {
            return Checked::Slot(i);
        }
    }
    Checked::Sound
}
