// The recipients of a message (G4): the addresses of its To, Cc and Reply-To fields, made a roll with an index, in which
// those of gossip are looked for.
//
// Values are unfolded into a lent text, which has to be as long as the block. What it holds afterwards means nothing.
#![tactic(auto)]

ghost use Rattle.recipients.specs.Answers.{Gathers, GatheredAs};

use fields::{Kind, Survey};
use roll::Rolled;

// Makes the roll of all recipients at the front of `roll`, and its index at that of `tags` and `places`. Each field is
// read by itself, and an unreadable one adds nothing (G4).
#[tactic(auto, using(header::proofs::Unfolding::value_within, header::proofs::Unfolding::value_long))]
pub fn gather(
    block: &[u8],
    survey: Survey,
    text: &mut [u8],
    roll: &mut [u8],
    tags: &mut [u32],
    places: &mut [u16],
) -> Rolled
    requires { Gathers block.now survey text.old roll.old tags.old places.old }
    ensures { GatheredAs block.now roll.new tags.new places.new result }
{
    let span = survey.recipients;
    let mut so_far = Rolled { end: 0, many: 0 };
    let mut at = span.first;
    while let Some(field) = fields::find(block, at, span.last, Kind::Recipients) {
        let n = field.unfold(block, text);
        so_far = roll::add_list(roll, tags, places, so_far, &text[..n]);
        at = field.end;
    }
    so_far
}
