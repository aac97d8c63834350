// The table of slots (page T): the free slots, what a slot holds, and the one slot that is lent on to a writer. Whether a
// table is sound, and where an address stands in it, is answered by the crate `lookup`.
#![tactic(auto)]

ghost use Rattle.std.specs.Prelude.{◌<◌, ◌≤◌, ◌≡◌, true, length, set};
ghost use Rattle.heads.specs.Head.{head_of};
ghost use Rattle.slots.specs.Slot.{slot_length, address_room, key_limit, free_slot, marked, address_of, sound_by, sound};
ghost use Rattle.slots.specs.declared.Spelling.TheVariants.{Ascii};
ghost use Rattle.heads.specs.Entry.{newcomer, renamed, seen_by, with_direct, with_gossip};
ghost use Rattle.slots.specs.Entry.{entry_of, slot_of};
ghost use Rattle.tags.specs.Tags.{tag_of};
ghost use Rattle.table.specs.Table.{most_slots, slots as slots_of, slot_at, with_slot, lowest_free, free_count};
ghost use Rattle.table.specs.Tagged.{Tagged, Begins};

use heads::Head;
use slots::Slot;

// What the check finds: a sound table; a length that is not that of 1 to 256 whole slots (R1); or the lowest slot that is
// neither free nor sound (R2).
#[derive(Clone, Copy)]
pub enum Checked {
    Sound,
    Length,
    Slot(usize),
}

// How many whole slots there are (T1).
#[tactic(auto, unfolding(crate::specs::Table::slots))]
pub fn count(table: &[u8]) -> usize
    ensures { result ≡ slots_of table.now }
{
    table.len() / Slot::LEN
}

// One slot as a part of the table.
#[tactic(auto, using(crate::proofs::Slots::lending), unfolding(crate::specs::Table::slots))]
pub fn slot_at(table: &[u8], i: usize) -> &[u8]
    requires { i < slots_of table.now }
    ensures { (result.now ≡ slot_at table.now i) × (length result.now ≡ slot_length) }
{
    let at = i * Slot::LEN;
    &table[at..at + Slot::LEN]
}

// Is the slot used?
pub fn is_used(table: &[u8], i: usize) -> bool
    requires { i < slots_of table.now }
    ensures { result ≡ marked (slot_at table.now i) }
{
    slots::is_marked(slot_at(table, i))
}

// The free slot with the lowest index (U4). In a sound table a slot without the mark is free (T4).
#[tactic(auto, using(crate::proofs::Scanning::finding_free))]
pub fn lowest_free(table: &[u8]) -> Option<usize>
    ensures { result ≡ lowest_free table.now }
{
    for i in 0..count(table) {
        if !is_used(table, i) {
            return Some(i);
        }
    }
    None
}

// How many slots are free (R8).
#[tactic(auto, using(crate::proofs::Scanning::tallying))]
pub fn count_free(table: &[u8]) -> usize
    ensures { result ≡ free_count table.now }
{
    let mut many = 0;
    for i in 0..count(table) {
        if !is_used(table, i) {
            many += 1;
        }
    }
    many
}

// The lengths, bits and times of an entry.
pub fn numbers(table: &[u8], i: usize) -> Head
    requires { i < slots_of table.now }
    ensures { result ≡ head_of (slot_at table.now i) }
{
    slots::head_of(slot_at(table, i))
}

// The address of an entry.
pub fn address(table: &[u8], i: usize) -> &[u8]
    requires { i < slots_of table.now }
    ensures { result.now ≡ address_of (slot_at table.now i) }
{
    slots::address_of(slot_at(table, i))
}

// Puts the tag of an address beside a slot.
fn put_tag(tags: &mut [u32; Slot::MOST], i: usize, address: &[u8])
    requires { i < most_slots }
    ensures { tags.new ≡ set tags.old i (tag_of address.now) }
{
    tags[i] = tags::tag_of(address);
}

// Begins the entry of an address in a slot, and keeps the tags true.
#[tactic(auto, using(crate::proofs::Slots::lending, crate::proofs::Tags::begin_room, crate::proofs::Tags::begin_tagged), unfolding(crate::specs::Table::slots))]
pub fn begin(table: &mut [u8], tags: &mut [u32; Slot::MOST], i: usize, address: &[u8])
    requires { Begins table.old tags.old i address.now }
    ensures table_after { table.new ≡ with_slot table.old i (slot_of (newcomer address.now)) }
    ensures tagged { Tagged table.new tags.new }
{
    put_tag(tags, i, address);
    let at = i * Slot::LEN;
    slots::begin(&mut table[at..at + Slot::LEN], address);
}

// Frees a slot (T4).
#[tactic(auto, using(crate::proofs::Slots::lending), unfolding(crate::specs::Table::slots))]
pub fn clear(table: &mut [u8], i: usize)
    requires { i < slots_of table.old }
    ensures { table.new ≡ with_slot table.old i free_slot }
{
    let at = i * Slot::LEN;
    octets::fill(&mut table[at..at + Slot::LEN], 0);
}

// Gives an entry another address, in a slot that was sound by the old rule (T17).
#[tactic(auto, using(crate::proofs::Slots::lending), unfolding(crate::specs::Table::slots))]
pub fn set_address(table: &mut [u8], i: usize, address: &[u8])
    requires { (i < slots_of table.old) × (sound_by Ascii (slot_at table.old i) ≡ true) × (length address.now ≤ address_room) }
    ensures { table.new ≡ with_slot table.old i (slot_of (renamed address.now (entry_of (slot_at table.old i)))) }
{
    let at = i * Slot::LEN;
    slots::set_address(&mut table[at..at + Slot::LEN], address);
}

// Raises last seen of an entry to the date; it never falls (U7).
#[tactic(auto, using(crate::proofs::Slots::lending), unfolding(crate::specs::Table::slots))]
pub fn raise_seen(table: &mut [u8], i: usize, date: u64)
    requires { (i < slots_of table.old) × (sound (slot_at table.old i) ≡ true) }
    ensures { table.new ≡ with_slot table.old i (slot_of (seen_by date (entry_of (slot_at table.old i)))) }
{
    let at = i * Slot::LEN;
    slots::raise_seen(&mut table[at..at + Slot::LEN], date);
}

// Sets timestamp, key and preference of an entry's direct half.
#[tactic(auto, using(crate::proofs::Slots::lending), unfolding(crate::specs::Table::slots))]
pub fn set_direct(table: &mut [u8], i: usize, timestamp: u64, key: &[u8], mutual: bool)
    requires { (i < slots_of table.old) × (sound (slot_at table.old i) ≡ true) × (length key.now ≤ key_limit) }
    ensures { table.new ≡ with_slot table.old i
        (slot_of (with_direct (record { timestamp = timestamp; key = key.now; «mutual» = «mutual» }) (entry_of (slot_at table.old i)))) }
{
    let at = i * Slot::LEN;
    slots::set_direct(&mut table[at..at + Slot::LEN], timestamp, key, mutual);
}

// Sets timestamp and key of an entry's gossip half.
#[tactic(auto, using(crate::proofs::Slots::lending), unfolding(crate::specs::Table::slots))]
pub fn set_gossip(table: &mut [u8], i: usize, timestamp: u64, key: &[u8])
    requires { (i < slots_of table.old) × (sound (slot_at table.old i) ≡ true) × (length key.now ≤ key_limit) }
    ensures { table.new ≡ with_slot table.old i
        (slot_of (with_gossip (record { timestamp = timestamp; key = key.now }) (entry_of (slot_at table.old i)))) }
{
    let at = i * Slot::LEN;
    slots::set_gossip(&mut table[at..at + Slot::LEN], timestamp, key);
}
