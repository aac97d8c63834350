// What one slot of the table holds, told as eleven numbers in lent memory (T14): used or not, the bits, the three times,
// and where the address and the keys lie in the table.
#![tactic(auto)]

ghost use Rattle.std.specs.Prelude.{◌+◌, ◌^◌, ◌<◌, ◌≤◌, ◌≡◌, length};
ghost use Rattle.octets.specs.Written.{onto};
ghost use Rattle.slots.specs.Slot.{slot_length};
ghost use Rattle.entry.specs.Shown.{shown_count, start_of, told, used_at, shown_at};

use heads::Head;
use slots::Slot;

// How many numbers tell a slot.
pub const SHOWN: usize = 11;

// Where a part starts, so many octets from an offset on in the slot that begins at `at`: at 0 where it is empty.
#[tactic(auto, unfolding(crate::specs::Shown::start_of))]
fn start_of(at: usize, offset: usize, count: usize) -> u64
    requires { at + offset < 2 ^ 64 }
    ensures { result ≡ start_of at offset count }
{
    if count == 0 { 0 } else { (at + offset) as u64 }
}

// The eleven numbers of a used slot that begins at `at`: the first five, and start and length of address, direct key and
// gossip key.
#[tactic(auto, unfolding(crate::specs::Shown::told, crate::specs::Shown::stated, crate::specs::Shown::parts, crate::specs::Shown::placed))]
fn told(at: usize, n: Head) -> [u64; SHOWN]
    requires { at + slot_length < 2 ^ 64 }
    ensures { result ≡ told 1 at n }
{
    [
        1,
        n.bits(),
        n.last_seen,
        n.timestamp,
        n.gossip_timestamp,
        start_of(at, Slot::ADDRESS_AT, n.address_length),
        n.address_length as u64,
        start_of(at, Slot::DIRECT_AT, n.direct_length),
        n.direct_length as u64,
        start_of(at, Slot::GOSSIP_AT, n.gossip_length),
        n.gossip_length as u64,
    ]
}

// Is there such a slot, and is it used?
#[tactic(auto, unfolding(crate::specs::Shown::used_at))]
fn is_used(table: &[u8], slot: usize) -> bool
    ensures { result ≡ used_at table.now slot }
{
    slot < table::count(table) && table::is_used(table, slot)
}

// The numbers of a slot. Where there is no entry they are zeros (T14).
#[tactic(auto, using(crate::proofs::Telling::telling), unfolding(crate::specs::Shown::shown_at))]
fn shown(table: &[u8], slot: usize) -> [u64; SHOWN]
    ensures { result ≡ shown_at table.now slot }
{
    if is_used(table, slot) {
        told(slot * Slot::LEN, table::numbers(table, slot))
    } else {
        [0; SHOWN]
    }
}

// Writes the numbers of a slot to the front of `numbers`.
#[tactic(auto, unfolding(octets::specs::Written::onto))]
pub fn tell(table: &[u8], slot: usize, numbers: &mut [u64])
    requires { shown_count ≤ length numbers.old }
    ensures { numbers.new ≡ onto (shown_at table.now slot) numbers.old }
{
    numbers[..SHOWN].copy_from_slice(&shown(table, slot));
}
