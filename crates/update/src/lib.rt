// Where a message is put: the sender's entry and those of the addresses that it has gossip about, each in its own slot or
// in the lowest free one (U4). What is right is said by specs/Update.antt. The tags that the table was opened with stay
// its tags.
#![tactic(auto)]

ghost use Rattle.std.specs.Prelude.{◌≤◌, ◌<◌, ◌≡◌, true, length};
ghost use Rattle.std.specs.Prelude.{Some, None};
ghost use Rattle.address.specs.Address.{is_canonical};
ghost use Rattle.heads.specs.Head.{time_limit};
ghost use Rattle.slots.specs.Slot.{key_limit, sound};
ghost use Rattle.heads.specs.Entry.{seen_by, with_direct};
ghost use Rattle.slots.specs.Entry.{entry_of, slot_of};
ghost use Rattle.table.specs.Table.{slots, slot_at, with_slot, found};
ghost use Rattle.table.specs.Tagged.{Open};
ghost use Rattle.update.specs.Update.{younger, updated, younger_gossip, heard, begun, put};

use slots::Slot;

// The slot of an address, begun in the lowest free one where it has none (U4).
#[tactic(auto, using(crate::proofs::Placing::placing))]
fn place(table: &mut [u8], tags: &mut [u32; Slot::MOST], address: &[u8]) -> Option<usize>
    requires { Open table.old tags.old × (is_canonical address.now ≡ true) }
    ensures value { result ≡ found (begun table.old address.now) address.now }
    ensures table_after { table.new ≡ begun table.old address.now }
    ensures fact { Open table.new tags.new }
{
    if let Some(i) = lookup::find(table, tags, address) {
        return Some(i);
    }
    let i = table::lowest_free(table)?;
    table::begin(table, tags, i, address);
    Some(i)
}

// Is there a direct half in the slot that is younger than the date (U6)?
#[tactic(auto, using(crate::proofs::Writing::weighing))]
fn has_younger(table: &[u8], i: usize, date: u64) -> bool
    requires { i < slots table.now }
    ensures { result ≡ younger date (entry_of (slot_at table.now i)).direct }
{
    Some(date) < table::numbers(table, i).direct_time()
}

// Is there a gossip half in the slot that is younger than the date (G7)?
#[tactic(auto, using(crate::proofs::Writing::weighing))]
fn has_younger_gossip(table: &[u8], i: usize, date: u64) -> bool
    requires { i < slots table.now }
    ensures { result ≡ younger_gossip date (entry_of (slot_at table.now i)).gossip }
{
    Some(date) < table::numbers(table, i).gossip_time()
}

// A message of the sender without a field that counts: it only raises last seen (U6, U7, U9).
#[tactic(auto, using(crate::proofs::Writing::seeing))]
pub fn update_keyless(table: &mut [u8], tags: &mut [u32; Slot::MOST], sender: &[u8], date: u64)
    requires { Open table.old tags.old × (is_canonical sender.now ≡ true) × (date ≤ time_limit) }
    ensures table_after { table.new ≡ put table.old sender.now (updated date None) }
    ensures fact { Open table.new tags.new }
{
    if let Some(i) = place(table, tags, sender)
        && !has_younger(table, i, date)
    {
        table::raise_seen(table, i, date);
    }
}

// Raises last seen to the date and sets the direct half: what a field that counts does to an entry (U7, U8).
#[tactic(auto, using(crate::proofs::Writing::setting))]
fn set_field(table: &mut [u8], i: usize, date: u64, key: &[u8], mutual: bool)
    requires { (i < slots table.old) × (sound (slot_at table.old i) ≡ true) × (date ≤ time_limit)
        × (1 ≤ length key.now) × (length key.now ≤ key_limit) }
    ensures { table.new ≡ with_slot table.old i
        (slot_of (with_direct (record { timestamp = date; key = key.now; «mutual» = «mutual» })
        (seen_by date (entry_of (slot_at table.old i))))) }
{
    table::raise_seen(table, i, date);
    table::set_direct(table, i, date, key, mutual);
}

// A message of the sender with a field that counts (U6, U7, U8).
#[tactic(auto, using(crate::proofs::Writing::keying))]
pub fn update_with_key(
    table: &mut [u8],
    tags: &mut [u32; Slot::MOST],
    sender: &[u8],
    date: u64,
    key: &[u8],
    mutual: bool,
)
    requires { Open table.old tags.old × (is_canonical sender.now ≡ true) × (date ≤ time_limit)
        × (1 ≤ length key.now) × (length key.now ≤ key_limit) }
    ensures table_after { table.new ≡ put table.old sender.now
        (updated date (Some (record { timestamp = date; key = key.now; «mutual» = «mutual» }))) }
    ensures fact { Open table.new tags.new }
{
    if let Some(i) = place(table, tags, sender)
        && !has_younger(table, i, date)
    {
        set_field(table, i, date, key, mutual);
    }
}

// Gossip about an address (G7, G8).
#[tactic(auto, using(crate::proofs::Writing::hearing))]
pub fn hear(table: &mut [u8], tags: &mut [u32; Slot::MOST], address: &[u8], date: u64, key: &[u8])
    requires { Open table.old tags.old × (is_canonical address.now ≡ true) × (date ≤ time_limit)
        × (1 ≤ length key.now) × (length key.now ≤ key_limit) }
    ensures table_after { table.new ≡ put table.old address.now (heard date key.now) }
    ensures fact { Open table.new tags.new }
{
    if let Some(i) = place(table, tags, address)
        && !has_younger_gossip(table, i, date)
    {
        table::set_gossip(table, i, date, key);
    }
}
