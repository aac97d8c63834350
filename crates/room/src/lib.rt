// Whether there is a free slot for each address that is new with a message (R8): asked before anything is written. What is
// right is said by specs/Room.antt.
#![tactic(auto)]

ghost use Rattle.std.specs.Prelude.{◌≡◌, [], ◌∷◌};
ghost use Rattle.table.specs.Tagged.{Tagged};
ghost use Rattle.roll.specs.Growing.{in_roll};
ghost use Rattle.room.specs.Room.{is_new, gossiped_in, room_beside};
ghost use Rattle.room.specs.Counting.{Asks, Meets, MetAs, RollsAs, Seats, Seeks};

use roll::Rolled;
use slots::Slot;

// Room for the roll of as many newcomers as there may be slots, each with what ends it.
pub const ROLL: usize = 65536;

// Has the address no entry, and is it not known yet to be new?
fn is_new(
    table: &[u8],
    tags: &[u32; Slot::MOST],
    known: &[u8],
    numbers: &[u32],
    spots: &[u16],
    at: Rolled,
    address: &[u8],
) -> bool
    requires { Asks table.now tags.now known.now numbers.now spots.now at address.now }
    ensures { result ≡ is_new table.now (in_roll at known.now) address.now }
{
    let end = at.end;
    let many = at.many;
    match lookup::find(table, tags, address) {
        Some(_) => false,
        None => !roll::holds(&known[0..end], &numbers[0..many], &spots[0..many], address),
    }
}

// Adds an address to the roll of those that are known to be new, if it is new and they leave it one of the free slots. Where
// there is a slot for it, its own or a free one, the answer is how far the roll goes then; there is none where it is new and
// those before it take all free slots.
#[tactic(auto, using(crate::proofs::Meeting::meeting))]
fn meet(
    table: &[u8],
    tags: &[u32; Slot::MOST],
    free: usize,
    known: &mut [u8; ROLL],
    numbers: &mut [u32; Slot::MOST],
    spots: &mut [u16; Slot::MOST],
    at: Rolled,
    address: &[u8],
) -> Option<Rolled>
    requires { Meets table.now tags.now free known.old numbers.old spots.old at address.now }
    ensures met_as { MetAs table.now (in_roll at known.old) address.now known.new result }
    ensures rolls_as { RollsAs table.now free known.new numbers.new spots.new result }
{
    if !is_new(table, tags, known, numbers, spots, at, address) {
        return Some(at);
    }
    let left = free - at.many;
    if left == 0 {
        return None;
    }
    Some(roll::add(known, numbers, spots, at, address))
}

// Is there one of the free slots for each address that is new with the gossip, beside those that are known already to be
// new?
#[tactic(auto, using(crate::proofs::Newcomers::counting))]
fn has_room_for(
    table: &[u8],
    tags: &[u32; Slot::MOST],
    free: usize,
    limit: usize,
    payload: &[u8],
    recipients: &[u8],
    listed: &[u32],
    places: &[u16],
    text: &mut [u8],
    known: &mut [u8; ROLL],
    numbers: &mut [u32; Slot::MOST],
    spots: &mut [u16; Slot::MOST],
    from: Rolled,
) -> bool
    requires { Seats table.now tags.now free limit payload.now recipients.now listed.now places.now text.old
        known.old numbers.old spots.old from }
    ensures { result ≡ room_beside table.now (in_roll from known.old)
        (gossiped_in limit recipients.now payload.now) }
{
    let mut address = [0u8; Slot::ADDRESS_ROOM];
    let mut key = [0u8; Slot::KEY_LIMIT];
    let mut at = from;
    let mut place = 0;
    while let Some(heard) = keys::next_gossip(
        payload,
        limit,
        place,
        recipients,
        listed,
        places,
        text,
        &mut address,
        &mut key,
    ) {
        let newcomer = &address[0..heard.gossip.address];
        let Some(behind) = meet(table, tags, free, known, numbers, spots, at, newcomer) else {
            return false;
        };
        at = behind;
        place = heard.end;
    }
    true
}

// Is there a free slot for each address that is new with the message, its sender first (R8)?
#[tactic(auto, using(crate::proofs::Newcomers::seating))]
pub fn has_room(
    table: &[u8],
    tags: &[u32; Slot::MOST],
    limit: usize,
    sender: &[u8],
    payload: &[u8],
    recipients: &[u8],
    listed: &[u32],
    places: &[u16],
    text: &mut [u8],
) -> bool
    requires { Seeks table.now tags.now limit sender.now payload.now recipients.now listed.now places.now text.old }
    ensures { result ≡ room_beside table.now []
        (sender.now ∷ gossiped_in limit recipients.now payload.now) }
{
    let mut known = [0u8; ROLL];
    let mut numbers = [0u32; Slot::MOST];
    let mut spots = [0u16; Slot::MOST];
    let none = Rolled { end: 0, many: 0 };
    let free = table::count_free(table);
    let Some(seated) = meet(
        table,
        tags,
        free,
        &mut known,
        &mut numbers,
        &mut spots,
        none,
        sender,
    ) else {
        return false;
    };
    has_room_for(
        table,
        tags,
        free,
        limit,
        payload,
        recipients,
        listed,
        places,
        text,
        &mut known,
        &mut numbers,
        &mut spots,
        seated,
    )
}

// Is there a slot for the sender of a message without gossip: its own entry's, or a free one (R8)?
pub fn has_room_alone(table: &[u8], tags: &[u32; Slot::MOST], sender: &[u8]) -> bool
    requires { Tagged table.now tags.now }
    ensures { result ≡ room_beside table.now [] (sender.now ∷ []) }
{
    match lookup::find(table, tags, sender) {
        Some(_) => true,
        None => 0 < table::count_free(table),
    }
}
