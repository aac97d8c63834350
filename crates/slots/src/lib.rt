// One slot of the table and the entry that it holds (page T): what stands where, whether it is free or sound, and the
// writers of slots. A slot is lent as a part of 4,392 octets.
#![tactic(auto)]

ghost use Rattle.std.specs.Prelude.{◌+◌, ◌≤◌, min, ◌≡◌, true, length, take, drop};
ghost use Rattle.octets.specs.Octets.{all_zero};
ghost use Rattle.octets.specs.Written.{put_at};
ghost use Rattle.heads.specs.Head.{head_of, head_octets};
ghost use Rattle.heads.specs.Entry.{newcomer, renamed, seen_by, with_direct, with_gossip};
ghost use Rattle.slots.specs.Slot.{slot_length, key_limit, address_room, free, marked, spelled, zero_padding, sound_by, sound, address_of};
ghost use Rattle.slots.specs.Entry.{padded, entry_of, slot_of};
ghost use Rattle.slots.specs.declared.Spelling.TheVariants.{Ascii};

use heads::Head;

// The layout of a slot (T3): behind the mark and the numbers, 40 octets in all, stand the address and the two keys, each
// in a room of its own.
#[derive(Clone, Copy)]
pub struct Slot;

impl Slot {
    // T1: a table has at most 256 slots.
    pub const MOST: usize = 256;

    // T4: what opens a used slot.
    pub const MARK: [u8; 2] = *b"A1";

    // T3, T8.6: the room for a key, and the most octets that one has.
    pub const KEY_LIMIT: usize = 2048;

    // T3: the room for an address.
    pub const ADDRESS_ROOM: usize = 256;

    // T3: where each room begins, by the one before it.
    pub const ADDRESS_AT: usize = Head::LEN;

    pub const DIRECT_AT: usize = Self::ADDRESS_AT + Self::ADDRESS_ROOM;

    pub const GOSSIP_AT: usize = Self::DIRECT_AT + Self::KEY_LIMIT;

    // T1: how many octets a slot has.
    pub const LEN: usize = Self::GOSSIP_AT + Self::KEY_LIMIT;
}

// How the addresses of a table are spelled: in canonical form (T8.2), or as they were kept while only ASCII capitals were
// made small (T16).
#[derive(Clone, Copy)]
pub enum Spelling {
    Canonical,
    Ascii,
}

// T8.8: is a room of the slot zero behind a length? A length beyond the room leaves nothing to test.
#[tactic(auto, using(crate::proofs::Reading::behind_read))]
fn zero_behind(slot: &[u8], at: usize, room: usize, count: usize) -> bool
    requires { at + room ≤ length slot.now }
    ensures { result ≡ all_zero (drop count (take room (drop at slot.now))) }
{
    let n = count.min(room);
    octets::is_zero(&slot[at + n..at + room])
}

// T4: is every octet zero?
#[tactic(auto, unfolding(crate::specs::Slot::free))]
pub fn is_free(slot: &[u8]) -> bool
    ensures { result ≡ free slot.now }
{
    octets::is_zero(slot)
}

// T4: does the slot open with the mark?
#[tactic(auto, using(crate::proofs::Reading::marked_read))]
pub fn is_marked(slot: &[u8]) -> bool
    requires { length slot.now ≡ slot_length }
    ensures { result ≡ marked slot.now }
{
    slot.starts_with(&Slot::MARK)
}

// The numbers of octets 2 to 39.
#[tactic(auto, using(heads::proofs::Reading::head_first))]
pub fn head_of(slot: &[u8]) -> Head
    requires { length slot.now ≡ slot_length }
    ensures { result ≡ head_of slot.now }
{
    Head::read(&slot[0..Head::LEN])
}

// The address: as much of its room as its length says, and all of it where the length says more.
#[tactic(auto, using(crate::proofs::Reading::address_read))]
pub fn address_of(slot: &[u8]) -> &[u8]
    requires { length slot.now ≡ slot_length }
    ensures { result.now ≡ address_of slot.now }
{
    let n = octets::number_at(slot, Head::ADDRESS_LENGTH_AT, Head::LENGTH_WIDTH) as usize;
    let end = Slot::ADDRESS_AT + n.min(Slot::ADDRESS_ROOM);
    &slot[Slot::ADDRESS_AT..end]
}

// T8.2, T16: has an address the spelling that is asked for?
#[tactic(auto, unfolding(crate::specs::Slot::spelled))]
fn is_spelled(address: &[u8], how: Spelling) -> bool
    ensures { result ≡ spelled how address.now }
{
    match how {
        Spelling::Canonical => address::is_canonical(address),
        Spelling::Ascii => asciiaddress::was_canonical(address),
    }
}

// T8.4, T8.8: is all zero that has to be? The lengths are those of the head.
#[tactic(auto, using(heads::proofs::Reading::clear_first), unfolding(crate::specs::Slot::zero_padding))]
fn is_padding_zero(slot: &[u8], n: Head) -> bool
    requires { length slot.now ≡ slot_length }
    ensures { result ≡ zero_padding n slot.now }
{
    heads::is_clear(&slot[0..Head::LEN])
        & zero_behind(slot, Slot::ADDRESS_AT, Slot::ADDRESS_ROOM, n.address_length)
        & zero_behind(slot, Slot::DIRECT_AT, Slot::KEY_LIMIT, n.direct_length)
        & zero_behind(slot, Slot::GOSSIP_AT, Slot::KEY_LIMIT, n.gossip_length)
}

// T8, but for the lower slots: every condition is looked at, since nearly every slot that is asked about is sound.
#[tactic(auto, unfolding(crate::specs::Slot::sound_by))]
pub fn is_sound(slot: &[u8], how: Spelling) -> bool
    requires { length slot.now ≡ slot_length }
    ensures { result ≡ sound_by how slot.now }
{
    let n = head_of(slot);
    is_marked(slot)
        & is_spelled(address_of(slot), how)
        & is_padding_zero(slot, n)
        & n.seen_sound()
        & n.direct_sound(Slot::KEY_LIMIT)
        & n.gossip_sound(Slot::KEY_LIMIT)
}

// Writes octets 2 to 39.
#[tactic(auto, using(crate::proofs::Writing::putting))]
fn put_head(slot: &mut [u8], n: Head)
    requires { length slot.old ≡ slot_length }
    ensures { slot.new ≡ put_at slot.old 2 (head_octets n) }
{
    n.put(&mut slot[0..Head::LEN]);
}

// T8.8: writes a text into its room of the slot, and zeros behind it.
#[tactic(auto, using(crate::proofs::Writing::putting))]
fn put_padded(slot: &mut [u8], at: usize, room: usize, text: &[u8])
    requires { (at + room ≤ length slot.old) × (length text.now ≤ room) }
    ensures { slot.new ≡ put_at slot.old at (padded room text.now) }
{
    octets::put(slot, at, text);
    octets::fill(&mut slot[at + text.len()..at + room], 0);
}

// Begins the entry of an address, whatever stood in the slot.
#[tactic(auto, using(crate::proofs::Writing::putting))]
pub fn begin(slot: &mut [u8], address: &[u8])
    requires { (length slot.old ≡ slot_length) × (length address.now ≤ address_room) }
    ensures { slot.new ≡ slot_of (newcomer address.now) }
{
    octets::fill(slot, 0);
    octets::put(slot, 0, &Slot::MARK);
    put_head(slot, Head::empty(address.len()));
    octets::put(slot, Slot::ADDRESS_AT, address);
}

// Gives the entry another address, in a slot that was sound by the old rule (T17).
#[tactic(auto, using(crate::proofs::Entries::changing))]
pub fn set_address(slot: &mut [u8], address: &[u8])
    requires { (length slot.old ≡ slot_length) × (sound_by Ascii slot.old ≡ true) × (length address.now ≤ address_room) }
    ensures { slot.new ≡ slot_of (renamed address.now (entry_of slot.old)) }
{
    let n = head_of(slot).with_address(address.len());
    put_head(slot, n);
    put_padded(slot, Slot::ADDRESS_AT, Slot::ADDRESS_ROOM, address);
}

// Raises last seen to the date; it never falls (U7).
#[tactic(auto, using(crate::proofs::Entries::changing))]
pub fn raise_seen(slot: &mut [u8], date: u64)
    requires { (length slot.old ≡ slot_length) × (sound slot.old ≡ true) }
    ensures { slot.new ≡ slot_of (seen_by date (entry_of slot.old)) }
{
    let n = head_of(slot).seen_by(date);
    put_head(slot, n);
}

// Sets timestamp, key and preference of the direct half.
#[tactic(auto, using(crate::proofs::Entries::changing))]
pub fn set_direct(slot: &mut [u8], timestamp: u64, key: &[u8], mutual: bool)
    requires { (length slot.old ≡ slot_length) × (sound slot.old ≡ true) × (length key.now ≤ key_limit) }
    ensures { slot.new ≡ slot_of
        (with_direct (record { timestamp = timestamp; key = key.now; «mutual» = «mutual» }) (entry_of slot.old)) }
{
    let n = head_of(slot).with_direct(timestamp, key.len(), mutual);
    put_head(slot, n);
    put_padded(slot, Slot::DIRECT_AT, Slot::KEY_LIMIT, key);
}

// Sets timestamp and key of the gossip half.
#[tactic(auto, using(crate::proofs::Entries::changing))]
pub fn set_gossip(slot: &mut [u8], timestamp: u64, key: &[u8])
    requires { (length slot.old ≡ slot_length) × (sound slot.old ≡ true) × (length key.now ≤ key_limit) }
    ensures { slot.new ≡ slot_of (with_gossip (record { timestamp = timestamp; key = key.now }) (entry_of slot.old)) }
{
    let n = head_of(slot).with_gossip(timestamp, key.len());
    put_head(slot, n);
    put_padded(slot, Slot::GOSSIP_AT, Slot::KEY_LIMIT, key);
}
