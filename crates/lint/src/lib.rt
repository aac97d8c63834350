// The call `lint`: what is wrong with the Autocrypt and Autocrypt-Gossip fields of an outgoing mail, as numbers of a lent list
// (SCOPE, page O). The faults are counted first, and written where there is room for all.
#![tactic(auto)]

ghost use Rattle.std.specs.Prelude.{◌+◌, ◌≤◌, ◌≡◌, length};
ghost use Rattle.roll.specs.Roll.{unrolled};
ghost use Rattle.faults.specs.Faults.{numbers_of};
ghost use Rattle.faults.specs.Laying.{room};
ghost use Rattle.lookover.specs.Looking.{missing};
ghost use Rattle.lint.specs.Linting.{linted_of, left_by_linting};
ghost use Rattle.lint.specs.Stages.{faults_with, listed_of, left_by_listing, Roomy, Walked, Sent, Readied, PassedAs};

use fields::Survey;
use lookover::{Looked, Side};
use refusals::Refusal;
use slots::Slot;

// Room for the values of most mails. Room has to be cleared before it is lent.
const SHORT: usize = 8192;

// Room for the values of every mail.
const LONG: usize = header::LIMIT;

// The most addresses that a block can have (B1, L6): one takes three octets, and another stands between it and the next.
const MOST_RECIPIENTS: usize = header::LIMIT / 4;

// A mail that is ready to be looked over: both blocks, who sent it, and the roll of its recipients with the index of the roll.
#[derive(Clone, Copy)]
struct Mail<'a> {
    outer: &'a [u8],
    payload: &'a [u8],
    sender: &'a [u8],
    recipients: &'a [u8],
    tags: &'a [u32],
    places: &'a [u16],
}

// Looks both blocks over, and writes what is wrong to the list, as far as it goes. `valid` says whether the mail has a valid
// Autocrypt field, as far as the caller knows; the answer says whether it has one.
fn pass(mail: Mail, text: &mut [u8], valid: bool, list: &mut [u32]) -> Looked
    requires { Readied mail text.old }
    ensures { PassedAs mail.entry valid list.old list.new result }
{
    let front = faults::put_fault(list, 0, !valid, 0, 0, faults::NO_VALID);
    let first = lookover::look_over(
        mail.outer,
        Side::Outer,
        mail.sender,
        mail.recipients,
        mail.tags,
        mail.places,
        text,
        list,
        front,
    );
    let second = lookover::look_over(
        mail.payload,
        Side::Payload,
        mail.sender,
        mail.recipients,
        mail.tags,
        mail.places,
        text,
        list,
        first.end,
    );
    Looked {
        end: second.end,
        valid: first.valid,
    }
}

// How many numbers the list needs, with those of the fault that no Autocrypt field is valid.
#[tactic(auto, unfolding(lookover::specs::Looking::missing, faults::specs::Faults::numbers_of))]
fn with_missing(numbers: usize, valid: bool) -> usize
    requires { numbers ≤ room }
    ensures { result ≡ length (numbers_of (missing valid)) + numbers }
{
    if valid { numbers } else { numbers + 3 }
}

// Lists the faults where there is room for them (R12). They are counted by a pass over a list that has none.
fn list_faults(mail: Mail, text: &mut [u8], list: &mut [u32]) -> Result<usize, Refusal>
    requires { Readied mail text.old }
    ensures value { result ≡ listed_of (faults_with mail.entry) (length list.old) }
    ensures list_after { list.new ≡ left_by_listing (faults_with mail.entry) list.old }
{
    let mut nowhere = [0u32; 1];
    let counted = pass(mail, text, true, &mut nowhere);
    let needed = with_missing(counted.end, counted.valid);
    if list.len() < needed {
        return Err(Refusal::OutputLength);
    }
    if needed == 0 {
        return Ok(0);
    }
    let written = pass(mail, text, counted.valid, list);
    Ok(written.end / 3)
}

// Refusal 12, with the blocks readable and the sender known: the recipients are gathered first.
#[tactic(auto, using(recipients::proofs::RecipientRoll::gathered_tags, recipients::proofs::RecipientRoll::gathered_places))]
fn lint_sent(
    outer: &[u8],
    survey: Survey,
    payload: &[u8],
    sender: &[u8],
    text: &mut [u8],
    list: &mut [u32],
) -> Result<usize, Refusal>
    requires { Sent outer.now survey payload.now sender.now text.old }
    ensures value { result ≡ linted_of outer.now payload.now (length list.old) }
    ensures list_after { list.new ≡ left_by_linting outer.now payload.now list.old }
{
    let mut roll = [0u8; header::LIMIT];
    let mut tags = [0u32; MOST_RECIPIENTS];
    let mut places = [0u16; MOST_RECIPIENTS];
    let rolled = recipients::gather(outer, survey, text, &mut roll, &mut tags, &mut places);
    let mail = Mail {
        outer,
        payload,
        sender,
        recipients: &roll[..rolled.end],
        tags: &tags[..rolled.many],
        places: &places[..rolled.many],
    };
    list_faults(mail, text, list)
}

// Refusals 5, 7 and 12, with the outer block walked over.
#[tactic(auto, using(crate::proofs::Calling::walking))]
fn lint_walked(
    outer: &[u8],
    survey: Survey,
    payload: &[u8],
    text: &mut [u8],
    list: &mut [u32],
) -> Result<usize, Refusal>
    requires { Walked outer.now survey payload.now text.old }
    ensures value { result ≡ linted_of outer.now payload.now (length list.old) }
    ensures list_after { list.new ≡ left_by_linting outer.now payload.now list.old }
{
    let mut sender = [0u8; Slot::ADDRESS_ROOM];
    match outer::sender_of(outer, survey, text, &mut sender) {
        Some(n) => {
            if !header::readable(payload) {
                return Err(Refusal::PayloadBlock);
            }
            lint_sent(outer, survey, payload, &sender[..n], text, list)
        }
        None => Err(Refusal::Sender),
    }
}

// All refusals, with room for `N` octets of a value.
#[tactic(auto, using(crate::proofs::Calling::opening))]
fn lint_with<const N: usize>(
    outer: &[u8],
    payload: &[u8],
    list: &mut [u32],
) -> Result<usize, Refusal>
    requires { Roomy outer.now payload.now N }
    ensures value { result ≡ linted_of outer.now payload.now (length list.old) }
    ensures list_after { list.new ≡ left_by_linting outer.now payload.now list.old }
{
    let mut text = [0u8; N];
    match fields::walk(outer) {
        Some(survey) => lint_walked(outer, survey, payload, &mut text, list),
        None => Err(Refusal::OuterBlock),
    }
}

// Looks an outgoing mail over, and lists what is wrong with its Autocrypt and Autocrypt-Gossip fields (O1). `outer` is the
// mail's header block, and `payload` that of the root part inside the encrypted mail, empty where there is none. Each fault
// is three numbers of `list`, from its front on (O2): the block, 0 for the outer one and 1 for the payload; the place of the
// field in it, counted from 1; and the kind (O3). They stand by block, place and kind (O4). What `list` holds behind them
// stays as it was.
//
// Where nothing is refused, the answer is how many faults there are. The refusals, in the order of testing:
//     4      the outer block is unreadable (R4)
//     5      the outer block has no From field or several, or its one From does not give just one address (R5)
//     7      the payload is unreadable (R7)
//     12     `list` has fewer than three numbers for each fault (R12)
// Then `list` stays as it was (R32). One of 98,304 numbers is always long enough (O11). A report is not refused.
#[tactic(auto, using(crate::proofs::Calling::roomy))]
pub fn lint(outer: &[u8], payload: &[u8], list: &mut [u32]) -> Result<usize, Refusal>
    ensures value { result ≡ linted_of outer.now payload.now (length list.old) }
    ensures list_after { list.new ≡ left_by_linting outer.now payload.now list.old }
{
    if outer.len() <= SHORT && payload.len() <= SHORT {
        lint_with::<SHORT>(outer, payload, list)
    } else {
        lint_with::<LONG>(outer, payload, list)
    }
}
