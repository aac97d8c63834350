// A block looked over (SCOPE, O2 to O9): what is wrong with each of its Autocrypt and Autocrypt-Gossip fields, written as
// numbers to a lent list. What is right is said by specs/Looking.antt.
//
// Values are unfolded into a lent text, which has to be as long as the block. What it holds afterwards means nothing.
#![tactic(auto)]

ghost use Rattle.std.specs.Prelude.{◌≡◌, true};
ghost use Rattle.address.specs.Address.{is_canonical};
ghost use Rattle.roll.specs.Roll.{unrolled};
ghost use Rattle.roll.specs.Index.{Indexed};
ghost use Rattle.lookover.specs.Looking.{side_number, names_only, lists, gossip_flaws};
ghost use Rattle.lookover.specs.Answers.{JudgedAs, FieldAs, Judges, Looks, LookedAs};

use asked::Called;
use faults::Flaws;
use fields::Kind;
use header::Step;
use slots::Slot;

// Which of the two blocks of a mail it is.
#[derive(Clone, Copy, PartialEq, Eq)]
pub enum Side {
    Outer,
    Payload,
}

// A block has a number (O2).
impl From<Side> for u32 {
    ghost from_gives = { λ side n. n ≡ side_number side };

    fn from(side: Side) -> u32 {
        match side {
            Side::Outer => 0,
            Side::Payload => 1,
        }
    }
}

// What is wrong with a field, and whether it is a valid Autocrypt field.
#[derive(Clone, Copy)]
struct Judged {
    flaws: Flaws,
    valid: bool,
}

// The place behind the numbers that were written, and whether the block has a valid Autocrypt field.
#[derive(Clone, Copy)]
pub struct Looked {
    pub end: usize,
    pub valid: bool,
}

// Does the value name just this address (O6)?
#[tactic(auto, using(crate::proofs::Owners::naming))]
fn names(value: &[u8], sender: &[u8]) -> bool
    requires { is_canonical sender.now ≡ true }
    ensures { result ≡ names_only sender.now value.now }
{
    let Some(at) = asked::named_at(value) else {
        return false;
    };
    address::has_form(&value[at.from..at.to], sender)
}

// Does the value name a recipient (O6)?
#[tactic(auto, using(crate::proofs::Owners::listing))]
fn is_listed(value: &[u8], recipients: &[u8], tags: &[u32], places: &[u16]) -> bool
    requires { Indexed recipients.now tags.now places.now }
    ensures { result ≡ lists (unrolled recipients.now) value.now }
{
    let Some(at) = asked::named_at(value) else {
        return false;
    };
    let mut form = [0u8; address::LONGEST];
    let n = address::form_of(&value[at.from..at.to], &mut form);
    roll::holds(recipients, tags, places, &form[..n])
}

// What is wrong with an Autocrypt field; `seen` says whether a valid one stands before it. With a valid one nothing is wrong
// but that, so its value is read once.
#[tactic(auto, using(crate::proofs::Judging::judging_own))]
fn judge_own(value: &[u8], sender: &[u8], seen: bool) -> Judged
    requires { is_canonical sender.now ≡ true }
    ensures { JudgedAs sender.now seen value.now result }
{
    let mut key = [0u8; Slot::KEY_LIMIT];
    if keyowner::valid_for(value, Slot::KEY_LIMIT, sender, &mut key).is_some() {
        return Judged {
            flaws: Flaws {
                more_valid: seen,
                ..faults::no_flaws()
            },
            valid: true,
        };
    }
    Judged {
        flaws: Flaws {
            wrong_address: !names(value, sender),
            unknown_attribute: asked::occurs(value, Called::Unknown),
            key_data: !asked::has_key_data(value),
            ..faults::no_flaws()
        },
        valid: false,
    }
}

// What is wrong with a gossip field, which does not belong into the outer block (O3).
#[tactic(auto, using(crate::proofs::Judging::judging_gossip))]
fn judge_gossip(value: &[u8], side: Side, recipients: &[u8], tags: &[u32], places: &[u16]) -> Flaws
    requires { Indexed recipients.now tags.now places.now }
    ensures { result ≡ gossip_flaws side (unrolled recipients.now) value.now }
{
    Flaws {
        unknown_attribute: asked::occurs(value, Called::Unknown),
        key_data: !asked::has_key_data(value),
        gossip_outside: side == Side::Outer,
        gossip_unlisted: !is_listed(value, recipients, tags, places),
        gossip_preference: asked::occurs(value, Called::PreferEncrypt),
        ..faults::no_flaws()
    }
}

// What is wrong with the field of this name and this value, which is not unfolded yet. Autocrypt fields count in the outer
// block alone (O3).
#[tactic(auto, using(crate::proofs::Judging::judging))]
fn judge(
    name: &[u8],
    raw: &[u8],
    side: Side,
    seen: bool,
    sender: &[u8],
    recipients: &[u8],
    tags: &[u32],
    places: &[u16],
    text: &mut [u8],
) -> Judged
    requires { Judges raw.now sender.now recipients.now tags.now places.now text.old }
    ensures { FieldAs side sender.now (unrolled recipients.now) seen name.now raw.now result }
{
    if side == Side::Outer && fields::is_kind(name, Kind::Autocrypt) {
        let n = header::unfold(raw, text);
        return judge_own(&text[0..n], sender, seen);
    }
    if fields::is_kind(name, Kind::AutocryptGossip) {
        let n = header::unfold(raw, text);
        return Judged {
            flaws: judge_gossip(&text[0..n], side, recipients, tags, places),
            valid: false,
        };
    }
    Judged {
        flaws: faults::no_flaws(),
        valid: false,
    }
}

// Looks a readable block over: writes the numbers of its faults to the list from the place `at` on, as far as the list goes.
#[tactic(auto, using(crate::proofs::Walking::walking))]
pub fn look_over(
    block: &[u8],
    side: Side,
    sender: &[u8],
    recipients: &[u8],
    tags: &[u32],
    places: &[u16],
    text: &mut [u8],
    list: &mut [u32],
    at: usize,
) -> Looked
    requires { Looks block.now sender.now recipients.now tags.now places.now text.old at }
    ensures { LookedAs side sender.now (unrolled recipients.now) block.now list.old at list.new result }
{
    let number = u32::from(side);
    let mut start = 0;
    let mut place: u32 = 1;
    let mut seen = false;
    let mut to = at;
    loop {
        match header::field_at(block, start) {
            Step::Over | Step::Broken => {
                return Looked {
                    end: to,
                    valid: seen,
                };
            }
            Step::Field {
                name_end,
                value,
                end,
            } => {
                let judged = judge(
                    &block[start..name_end],
                    &block[value..end],
                    side,
                    seen,
                    sender,
                    recipients,
                    tags,
                    places,
                    text,
                );
                to = faults::put_flaws(list, to, number, place, judged.flaws);
                seen = seen | judged.valid;
                place += 1;
                start = end;
            }
        }
    }
}
