// What the outer block of a message says besides keys: its sender (U3), whether it is a report (R6), and its Date (D1).
// Its recipients are read by the crate recipients. What is right is said by specs/Outer.antt.
//
// Values are unfolded into a lent text, which has to be as long as the block. What it holds afterwards means nothing.
#![tactic(auto)]

ghost use Rattle.std.specs.Prelude.{◌≤◌, ◌≡◌, length};
ghost use Rattle.slots.specs.Slot.{address_room};
ghost use Rattle.fields.specs.Fields.{fields_in};
ghost use Rattle.fields.specs.Spans.{SurveyAs};
ghost use Rattle.outer.specs.Outer.{sender_in, is_reported, said_date};
ghost use Rattle.outer.specs.Answers.{sender_of, left_by_sender};

use fields::{Kind, Survey};

// Writes the sender's canonical address to the front of `out` (U3).
#[tactic(auto, using(crate::proofs::Senders::sending))]
pub fn sender_of(block: &[u8], survey: Survey, text: &mut [u8], out: &mut [u8]) -> Option<usize>
    requires { SurveyAs block.now survey × (length block.now ≤ length text.old) × (address_room ≤ length out.old) }
    ensures value { result ≡ sender_of (sender_in (fields_in block.now)) }
    ensures out_after { out.new ≡ left_by_sender (sender_in (fields_in block.now)) out.old }
{
    let field = fields::only_field(block, survey.from, Kind::From)?;
    let n = field.unfold(block, text);
    let one = addresslist::only_address(&text[..n])?;
    address::canonical(&text[one.from..one.to], out)
}

// Is some Content-Type a report? All of them are asked (R6).
#[tactic(auto, using(crate::proofs::Reports::looking))]
pub fn is_report(block: &[u8], survey: Survey, text: &mut [u8]) -> bool
    requires { SurveyAs block.now survey × (length block.now ≤ length text.old) }
    ensures { result ≡ is_reported (fields_in block.now) }
{
    let span = survey.content;
    let mut at = span.first;
    while let Some(field) = fields::find(block, at, span.last, Kind::ContentType) {
        let n = field.unfold(block, text);
        if header::is_report(&text[..n]) {
            return true;
        }
        at = field.end;
    }
    false
}

// The Date of the message, which its one Date field has to give (D1).
#[tactic(auto, using(crate::proofs::Dates::dating))]
pub fn date(block: &[u8], survey: Survey, text: &mut [u8]) -> Option<u64>
    requires { SurveyAs block.now survey × (length block.now ≤ length text.old) }
    ensures { result ≡ said_date (fields_in block.now) }
{
    let Some(field) = fields::only_field(block, survey.date, Kind::Date) else {
        return None;
    };
    let n = field.unfold(block, text);
    date::date(&text[..n])
}
