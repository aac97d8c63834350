// Advice for a mail to be sent, and the key to encrypt to for each recipient (page A).
ghost use Rattle.std.specs.Prelude.{◌≡◌};
ghost use Rattle.recommend.specs.Recommending.{recommended_of, quick_of, target_part_of};
ghost use Rattle.cabi.specs.Numbers.{advice_in_numbers, quick_in_numbers, part_in_numbers};

use crate::numbers;
use crate::numbers::{Advice, Part, Quick};

// `recommend` of the library: should a mail to these recipients be encrypted (A1)? `recipients` is a list of 1 to 100
// addresses, not folded, `mutual` the user's own preference, and `reply` is 1 for a reply to an encrypted mail, else 0.
// Answers 0 with an advice: 1 disable, 2 discourage, 3 available, 4 encrypt. Or it answers the number of the refusal, 1, 2
// or 10 in the order of testing, with the slot's index where it is 2, and 0 for the advice.
pub fn vienghulac_recommend(table: &[u8], recipients: &[u8], mutual: bool, reply: bool) -> Advice
    ensures { result ≡ advice_in_numbers (recommended_of table.now recipients.now «mutual» reply) }
{
    autocrypt::recommend(table, recipients, mutual, reply).into()
}

// `recommend_quick` of the library: the same for the same arguments, and how many recipients were looked up (A12). That is
// the place of the first with disable, from 1, and the length of the list where nobody has it (A13); with a refusal it is
// 0, like the advice.
#[tactic(auto, using(crate::proofs::Answering::quick_same, recommend::proofs::Range::looked_up_most))]
pub fn vienghulac_recommend_quick(
    table: &[u8],
    recipients: &[u8],
    mutual: bool,
    reply: bool,
) -> Quick
    ensures { result ≡ quick_in_numbers (quick_of table.now recipients.now «mutual» reply) }
{
    numbers::quick_in_numbers(autocrypt::recommend_quick(table, recipients, mutual, reply))
}

// `target_part` of the library: the key to encrypt to for the recipient at a place of the list, from 0, as start and
// length of a part of the table (A6). The other arguments are those of `vienghulac_recommend`. Both numbers are 0 where
// the recipient has no key, where the place is past the list, and where `vienghulac_recommend` refuses (A7). The part is
// no copy, and means what it meant until the next call that writes the table (A11).
pub fn vienghulac_target_key(
    table: &[u8],
    recipients: &[u8],
    mutual: bool,
    reply: bool,
    place: u64,
) -> Part
    ensures { result ≡ part_in_numbers (target_part_of table.now recipients.now place) }
{
    autocrypt::target_part(table, recipients, mutual, reply, place as usize).into()
}
