// Recommending (page A): what is advised for a mail to a list of recipients, and the key to encrypt to for each of them,
// which is a part of the table that was lent.
#![tactic(auto)]

ghost use Rattle.std.specs.Prelude.{◌≡◌, length, Err};
ghost use Rattle.addresslist.specs.List.{addresses};
ghost use Rattle.advice.specs.Places.{octets_at};
ghost use Rattle.table.specs.Table.{most_slots};
ghost use Rattle.table.specs.Tagged.{Open};
ghost use Rattle.recommend.specs.Recommending.{recipient_list, Admits, survey_of, recommended_of, looked_up_of, target_part_of, target_key_of};

use addresslist::NextAddress;
use advice::{Advice, Part};
use refusals::Refusal;
use slots::Slot;

// That answer, and how many recipients were looked up for it, 0 with a refusal (A12, A13).
#[derive(Clone, Copy)]
pub struct Quick {
    pub answer: Result<Advice, Refusal>,
    pub looked_up: usize,
}

// What a walk over the list finds: the advice for all recipients and how many were looked up for it.
#[derive(Clone, Copy)]
struct Surveyed {
    advice: Advice,
    looked_up: usize,
}

// R10: at most so many addresses.
const MOST_RECIPIENTS: usize = 100;

// Is the list readable, and does it give 1 to 100 addresses (R10)?
#[tactic(auto, using(crate::proofs::Recommending::counting))]
fn is_recipient_list(list: &[u8]) -> bool
    ensures { result ≡ recipient_list (addresses list.now) }
{
    match addresslist::count(list) {
        Some(n) => 1 <= n && n <= MOST_RECIPIENTS,
        None => false,
    }
}

// Refusals 1, 2 and 10: are the table and the list such that a target key can be looked for? The tags of the table come
// with the answer.
#[tactic(auto, using(crate::proofs::Recommending::admitting), unfolding(crate::specs::Recommending::refused_recommending, crate::specs::Recommending::recommending_rows))]
fn admit(table: &[u8], tags: &mut [u32; Slot::MOST], recipients: &[u8]) -> Result<(), Refusal>
    requires { length tags.old ≡ most_slots }
    ensures { Admits table.now tags.new recipients.now result }
{
    match inspect::open_table(table, tags) {
        Ok(()) => {
            if !is_recipient_list(recipients) {
                return Err(Refusal::Recipients);
            }
            Ok(())
        }
        Err(refusal) => Err(refusal),
    }
}

// One walk over the list: is it one of 1 to 100 addresses (R10), and if so, what is advised for all of them (A5)?
// Recipients are looked up until one has disable (A12). From there on, addresses are only read (A14): no advice is lower.
// A 101st address settles it, so nobody behind the 100th is looked up.
#[tactic(auto, using(crate::proofs::Surveying::surveying))]
fn survey(
    table: &[u8],
    tags: &[u32; Slot::MOST],
    recipients: &[u8],
    mutual: bool,
    reply: bool,
) -> Option<Surveyed>
    requires { Open table.now tags.now }
    ensures { result ≡ survey_of table.now «mutual» reply (addresses recipients.now) }
{
    let mut least = Advice::Encrypt;
    let mut count = 0;
    let mut looked_up = 0;
    let mut here = addresslist::start();
    loop {
        match addresslist::next_address(recipients, here) {
            NextAddress::Address { from, to, next } => {
                if count == MOST_RECIPIENTS {
                    return None;
                }
                count += 1;
                if least != Advice::Disable {
                    let one = advice::advise(table, tags, &recipients[from..to], mutual, reply);
                    least = least.min(one);
                    looked_up = count;
                }
                here = next;
            }
            NextAddress::End => {
                if count == 0 {
                    return None;
                }
                return Some(Surveyed {
                    advice: least,
                    looked_up,
                });
            }
            NextAddress::Unreadable => return None,
        }
    }
}

// A refusal has the count 0 (A13).
fn uncounted(refusal: Refusal) -> Quick
    ensures answer_value { result.answer ≡ Err refusal }
    ensures looked_up_value { result.looked_up ≡ 0 }
{
    Quick {
        answer: Err(refusal),
        looked_up: 0,
    }
}

// What is advised for a mail to these recipients (A1). `recipients` is a list of 1 to 100 addresses as in a To field, read
// as it is, so that a line ending in it makes it unreadable (L19). `mutual` is the user's own preference, and `reply` is
// true for a reply to an encrypted mail. For the whole list the lowest advice of its recipients is answered (A5), from low
// to high: disable, discourage, available, encrypt. The refusals, in the order of testing: 1 and 2 for the table, as in
// `check`, and 10 where the list is unreadable, or gives no address or more than 100 (R10). The table is not written.
pub fn recommend(
    table: &[u8],
    recipients: &[u8],
    mutual: bool,
    reply: bool,
) -> Result<Advice, Refusal>
    ensures { result ≡ recommended_of table.now recipients.now «mutual» reply }
{
    let quick = recommend_quick(table, recipients, mutual, reply);
    quick.answer
}

// The same answer for the same arguments, and how many recipients were looked up for it (A12). They are looked up in the
// order of the list, the first with disable as the last. So the count is the place of that one, from 1, and the length of
// the list where nobody has disable (A13); it is 0 with a refusal. The list is read to its end all the same (A14).
#[tactic(auto, using(crate::proofs::Recommending::recommending))]
pub fn recommend_quick(table: &[u8], recipients: &[u8], mutual: bool, reply: bool) -> Quick
    ensures answer_value { result.answer ≡ recommended_of table.now recipients.now «mutual» reply }
    ensures looked_up_value { result.looked_up ≡ looked_up_of table.now recipients.now «mutual» reply }
{
    let mut tags = [0u32; Slot::MOST];
    match inspect::open_table(table, &mut tags) {
        Ok(()) => match survey(table, &tags, recipients, mutual, reply) {
            Some(found) => Quick {
                answer: Ok(found.advice),
                looked_up: found.looked_up,
            },
            None => uncounted(Refusal::Recipients),
        },
        Err(refusal) => uncounted(refusal),
    }
}

// The key to encrypt to for the recipient at a place of the list, the first being at 0 (A6): where it lies in the table,
// and how long it is. The arguments are those of `recommend`; which key it is depends on neither preference nor reply
// (A9), nor on what the whole list gets (A8). Places count addresses in order, those in groups where they stand (A10). The
// part is empty, with start and length 0, where the recipient has no key, where the place is past the list, and where
// `recommend` refuses (A7). It is no copy: it means what it meant until the next call that writes the table (A11).
#[tactic(auto, using(crate::proofs::Recommending::parting))]
pub fn target_part(table: &[u8], recipients: &[u8], mutual: bool, reply: bool, place: usize) -> Part
    ensures { result ≡ target_part_of table.now recipients.now place }
{
    let mut tags = [0u32; Slot::MOST];
    match admit(table, &mut tags, recipients) {
        Ok(()) => advice::target_at(table, &tags, recipients, place),
        Err(_) => Part::EMPTY,
    }
}

// The octets of that key, where they stand in the table (A6): those that `target_part` tells of with the same arguments,
// and none where its part is empty.
#[tactic(auto, using(crate::proofs::Recommending::handing))]
pub fn target_key<'a>(
    table: &'a [u8],
    recipients: &[u8],
    mutual: bool,
    reply: bool,
    place: usize,
) -> &'a [u8]
    ensures result_value { result.now ≡ target_key_of table.now recipients.now place }
    ensures result_value_2 { result.now ≡ octets_at table.now (target_part_of table.now recipients.now place) }
{
    let part = target_part(table, recipients, mutual, reply, place);
    let start = part.start;
    let end = start + part.length;
    &table[start..end]
}
