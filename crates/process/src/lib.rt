// Processing a message (U1, U2): the table is checked, the message is read, and then it is delivered. Each function below
// answers what is left to be answered and written of the whole call, which is said by specs/Processing.antt.
#![tactic(auto)]

ghost use Rattle.std.specs.Prelude.{◌≡◌};
ghost use Rattle.refusals.specs.Rows.{first_of, answer_of};
ghost use Rattle.slots.specs.Slot.{key_limit};
ghost use Rattle.table.specs.Tagged.{Open};
ghost use Rattle.message.specs.Answers.{mail_of, heard_in};
ghost use Rattle.delivery.specs.Delivery.{room_rows, delivered};
ghost use Rattle.process.specs.Processing.{refused_processing, left_by_processing};
ghost use Rattle.process.specs.Stages.{is_short, Roomy, Readied};

use fields::Survey;
use message::{Brought, Reading};
use refusals::Refusal;
use settings::{Gossip, Settings};
use slots::Slot;

// Room for the values of most messages. Room has to be cleared before it is lent, and for the longest values that takes more
// than half as long as all else of a short mail.
const SHORT: usize = 8192;

// Room for the values of every message.
const LONG: usize = header::LIMIT;

// The most addresses that a block can have (B1, L6): one takes three octets, and another stands between it and the next.
const MOST_RECIPIENTS: usize = header::LIMIT / 4;

// Refusal 8 for a message whose payload is searched (R8): gossip counts that is about its recipients.
#[tactic(auto, using(recipients::proofs::RecipientRoll::gathered_tags, recipients::proofs::RecipientRoll::gathered_places))]
fn deliver_carrying(
    table: &mut [u8],
    tags: &mut [u32; Slot::MOST],
    brought: Brought,
    sender: &[u8],
    key: &[u8],
    outer: &[u8],
    survey: Survey,
    payload: &[u8],
    text: &mut [u8],
) -> Result<(), Refusal>
    requires { Readied table.old tags.old brought sender.now key.now outer.now survey payload.now text.old }
    ensures value { result ≡ answer_of (first_of (room_rows table.old
        (mail_of sender.now key.now brought (heard_in key_limit outer.now payload.now)))) }
    ensures table_after { table.new
        ≡ delivered table.old
        (mail_of sender.now key.now brought (heard_in key_limit outer.now payload.now)) }
{
    let mut roll = [0u8; header::LIMIT];
    let mut listed = [0u32; MOST_RECIPIENTS];
    let mut places = [0u16; MOST_RECIPIENTS];
    let rolled = recipients::gather(outer, survey, text, &mut roll, &mut listed, &mut places);
    delivery::deliver(
        table,
        tags,
        brought,
        sender,
        key,
        payload,
        Slot::KEY_LIMIT,
        &roll[..rolled.end],
        &listed[..rolled.many],
        &places[..rolled.many],
        text,
    )
}

// Refusals 3 to 8, with room for `N` octets of a value.
#[tactic(auto, using(crate::proofs::Processing::telling))]
fn process_with<const N: usize>(
    table: &mut [u8],
    tags: &mut [u32; Slot::MOST],
    receipt: u64,
    outer: &[u8],
    payload: &[u8],
    gossip: Gossip,
) -> Result<(), Refusal>
    requires { Roomy table.old tags.old outer.now payload.now gossip N }
    ensures value { result ≡ answer_of (refused_processing table.old receipt outer.now payload.now gossip) }
    ensures table_after { table.new ≡ left_by_processing table.old receipt outer.now payload.now gossip }
{
    let mut text = [0u8; N];
    let mut sender = [0u8; Slot::ADDRESS_ROOM];
    let mut key = [0u8; Slot::KEY_LIMIT];
    let settings = Settings {
        gossip,
        key_limit: Slot::KEY_LIMIT,
    };
    match message::read(
        receipt,
        outer,
        payload,
        settings,
        &mut text,
        &mut sender,
        &mut key,
    ) {
        Reading::Alone(brought) => {
            delivery::deliver_alone(table, tags, brought, &sender[..brought.sender], &key)
        }
        Reading::Carrying(brought, survey) => deliver_carrying(
            table,
            tags,
            brought,
            &sender[..brought.sender],
            &key,
            outer,
            survey,
            payload,
            &mut text,
        ),
        Reading::Refused(refusal) => Err(refusal),
    }
}

// Are the blocks that are read short, and so their values? A payload that is not taken is not read (G2).
#[tactic(auto, unfolding(crate::specs::Stages::is_short))]
fn is_short(outer: &[u8], payload: &[u8], gossip: Gossip) -> bool
    ensures { result ≡ is_short outer.now payload.now gossip }
{
    outer.len() <= SHORT && (!settings::is_taken(gossip) || payload.len() <= SHORT)
}

// Refusals 3 to 8, with the table open, and as much room for values as the blocks that are read need.
#[tactic(auto, using(crate::proofs::Processing::roomy_long))]
fn process_open(
    table: &mut [u8],
    tags: &mut [u32; Slot::MOST],
    receipt: u64,
    outer: &[u8],
    payload: &[u8],
    gossip: Gossip,
) -> Result<(), Refusal>
    requires { Open table.old tags.old }
    ensures value { result ≡ answer_of (refused_processing table.old receipt outer.now payload.now gossip) }
    ensures table_after { table.new ≡ left_by_processing table.old receipt outer.now payload.now gossip }
{
    if is_short(outer, payload, gossip) {
        process_with::<SHORT>(table, tags, receipt, outer, payload, gossip)
    } else {
        process_with::<LONG>(table, tags, receipt, outer, payload, gossip)
    }
}

// Processes a message: brings the table up to date with one received mail (U1). `receipt` is when the mail came in, in
// seconds since 1970 (T6). `outer` is the mail's header block as it was received: what stands behind its first empty line
// is not looked at, but counts for the limit of 65,536 octets (B1, B5). `payload` is the header block of the root part
// inside the decrypted mail, empty where there is none. `gossip` says whether gossip is taken: only with take is the payload
// looked at (G1, G2).
//
// Where nothing is refused, the answer is `Ok`. The sender then has an entry (U5): last seen is raised to the mail's
// date, and the key and preference of the field that counts, if there is one, are stored with that date, unless a younger
// key was there (U6, U7, U8, U9). Each recipient whom accepted gossip is about has an entry with the key from there,
// unless younger gossip was there (G5, G7). An address that is new takes the free slot with the lowest index (U4). The
// mail's date is its Date or the receipt time, whichever is smaller (D2).
//
// The refusals, in the order of testing (U2):
//     1, 2   what `check` refuses (R1, R2)
//     3      the receipt time is above the largest time, 253,402,300,799 (R3)
//     4      the outer block is unreadable (R4)
//     5      the outer block has no From field or several, or its one From does not give just one address (R5)
//     6      some Content-Type of the outer block is a report (R6)
//     7      gossip is taken, and the payload is unreadable (R7)
//     8      the message needs more new entries than there are free slots (R8)
// With a refusal the table stays as it was, octet by octet (R32). Parts of the table that were handed out before end where
// the answer is `Ok` (A11).
#[tactic(auto, using(crate::proofs::Processing::processing))]
pub fn process(
    table: &mut [u8],
    receipt: u64,
    outer: &[u8],
    payload: &[u8],
    gossip: Gossip,
) -> Result<(), Refusal>
    ensures value { result ≡ answer_of (refused_processing table.old receipt outer.now payload.now gossip) }
    ensures table_after { table.new ≡ left_by_processing table.old receipt outer.now payload.now gossip }
{
    let mut tags = [0u32; Slot::MOST];
    match inspect::open_table(table, &mut tags) {
        Ok(()) => process_open(table, &mut tags, receipt, outer, payload, gossip),
        Err(refusal) => Err(refusal),
    }
}
