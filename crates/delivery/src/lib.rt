// A message that was read, delivered to a table, whole or not at all (U2): it is written only where there is a free slot
// for each address that is new with it (R8). What is right is said by specs/Delivery.antt.
#![tactic(auto)]

ghost use Rattle.std.specs.Prelude.{◌≡◌, []};
ghost use Rattle.refusals.specs.Rows.{first_of, answer_of};
ghost use Rattle.table.specs.Tagged.{Open};
ghost use Rattle.update.specs.Update.{updated, put};
ghost use Rattle.update.specs.Message.{heard_all, applied};
ghost use Rattle.keys.specs.Answers.{gossip_of};
ghost use Rattle.message.specs.Answers.{direct_from, mail_of};
ghost use Rattle.delivery.specs.Delivery.{room_rows, delivered};
ghost use Rattle.delivery.specs.Sending.{Listens, Sends, Carries};

use message::Brought;
use refusals::Refusal;
use slots::Slot;

// Puts the accepted gossip of the payload into the table, field by field in order (G5, G9).
#[tactic(auto, using(crate::proofs::Spreading::spreading))]
fn hear_all(
    table: &mut [u8],
    tags: &mut [u32; Slot::MOST],
    date: u64,
    payload: &[u8],
    limit: usize,
    recipients: &[u8],
    listed: &[u32],
    places: &[u16],
    text: &mut [u8],
)
    requires { Listens table.old tags.old date payload.now limit recipients.now listed.now places.now text.old }
    ensures { table.new ≡ heard_all date (gossip_of limit recipients.now payload.now) table.old }
{
    let mut address = [0u8; Slot::ADDRESS_ROOM];
    let mut key = [0u8; Slot::KEY_LIMIT];
    let mut at = 0;
    while let Some(heard) = keys::next_gossip(
        payload,
        limit,
        at,
        recipients,
        listed,
        places,
        text,
        &mut address,
        &mut key,
    ) {
        let gossip = heard.gossip;
        update::hear(
            table,
            tags,
            &address[0..gossip.address],
            date,
            &key[0..gossip.key],
        );
        at = heard.end;
    }
}

// Updates the entry of the sender, with the field that counts or without one (U5).
#[tactic(auto, using(crate::proofs::Updating::updating))]
fn update_sender(
    table: &mut [u8],
    tags: &mut [u32; Slot::MOST],
    brought: Brought,
    sender: &[u8],
    key: &[u8],
)
    requires { Sends table.old tags.old sender.now key.now brought }
    ensures table_after { table.new ≡ put table.old sender.now
        (updated brought.date (direct_from brought.date key.now brought.own)) }
    ensures fact { Open table.new tags.new }
{
    let date = brought.date;
    match brought.own {
        Some(own) => update::update_with_key(
            table,
            tags,
            sender,
            date,
            &key[0..own.length],
            own.mutual,
        ),
        None => update::update_keyless(table, tags, sender, date),
    }
}

// Writes the message into the table, which has room for it: the sender first, then the gossip (U4).
fn put_message(
    table: &mut [u8],
    tags: &mut [u32; Slot::MOST],
    brought: Brought,
    sender: &[u8],
    key: &[u8],
    payload: &[u8],
    limit: usize,
    recipients: &[u8],
    listed: &[u32],
    places: &[u16],
    text: &mut [u8],
)
    requires { Carries table.old tags.old sender.now key.now brought payload.now limit recipients.now listed.now places.now text.old }
    ensures { table.new
        ≡ applied table.old
        (mail_of sender.now key.now brought (gossip_of limit recipients.now payload.now)) }
{
    update_sender(table, tags, brought, sender, key);
    hear_all(
        table,
        tags,
        brought.date,
        payload,
        limit,
        recipients,
        listed,
        places,
        text,
    );
}

// Delivers the message of the sender, with the roll of those whom gossip of the payload may be about, or refuses it with 8
// where there is no room for it (R8).
pub fn deliver(
    table: &mut [u8],
    tags: &mut [u32; Slot::MOST],
    brought: Brought,
    sender: &[u8],
    key: &[u8],
    payload: &[u8],
    limit: usize,
    recipients: &[u8],
    listed: &[u32],
    places: &[u16],
    text: &mut [u8],
) -> Result<(), Refusal>
    requires { Carries table.old tags.old sender.now key.now brought payload.now limit recipients.now listed.now places.now text.old }
    ensures value { result ≡ answer_of (first_of (room_rows table.old
        (mail_of sender.now key.now brought (gossip_of limit recipients.now payload.now)))) }
    ensures table_after { table.new
        ≡ delivered table.old
        (mail_of sender.now key.now brought (gossip_of limit recipients.now payload.now)) }
{
    if !room::has_room(
        table, tags, limit, sender, payload, recipients, listed, places, text,
    ) {
        return Err(Refusal::NoFreeSlot);
    }
    put_message(
        table, tags, brought, sender, key, payload, limit, recipients, listed, places, text,
    );
    Ok(())
}

// Delivers a message in which no gossip is looked for, or refuses it with 8: nobody asks for its recipients.
pub fn deliver_alone(
    table: &mut [u8],
    tags: &mut [u32; Slot::MOST],
    brought: Brought,
    sender: &[u8],
    key: &[u8],
) -> Result<(), Refusal>
    requires { Sends table.old tags.old sender.now key.now brought }
    ensures value { result ≡ answer_of (first_of (room_rows table.old (mail_of sender.now key.now brought []))) }
    ensures table_after { table.new ≡ delivered table.old (mail_of sender.now key.now brought []) }
{
    if !room::has_room_alone(table, tags, sender) {
        return Err(Refusal::NoFreeSlot);
    }
    update_sender(table, tags, brought, sender, key);
    Ok(())
}
