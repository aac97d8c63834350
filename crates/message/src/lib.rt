// What a message says, read before anything is decided about a table: its sender (U3), its effective date (D2), the field
// that counts (F13), and whether there is gossip to look for. What is right is said by specs/Message.antt.
//
// Values are unfolded into a lent text, which has to be as long as the outer block. What it holds afterwards means
// nothing.
#![tactic(auto)]

ghost use Rattle.std.specs.Prelude.{false};
ghost use Rattle.fields.specs.Fields.{fields_in};
ghost use Rattle.outer.specs.Outer.{is_reported};
ghost use Rattle.message.specs.Answers.{JudgedAs, BringsAs, ReadAs};
ghost use Rattle.message.specs.Lent.{Lent, Walked, Opened, Sent, MailReadAs};

use fields::Survey;
use heads::Head;
use keyowner::OwnKey;
use refusals::Refusal;
use settings::{Gossip, Settings};

// What is read: when it came in, its two blocks, and what was settled before.
#[derive(Clone, Copy)]
struct Mail<'a> {
    receipt: u64,
    outer: &'a [u8],
    payload: &'a [u8],
    settings: Settings,
}

// What the outer block brings: the length of the sender's address, the effective date and the field that counts. The address
// and the key stand in lent memory.
#[derive(Clone, Copy)]
pub struct Brought {
    pub sender: usize,
    pub date: u64,
    pub own: Option<OwnKey>,
}

// A message without a payload in which gossip is looked for; one with such a payload, and the survey that tells where its
// recipients stand; or why it is refused.
#[derive(Clone, Copy)]
pub enum Reading {
    Alone(Brought),
    Carrying(Brought, Survey),
    Refused(Refusal),
}

// What decides how a message with a sender is read on: it is a report; its payload is unreadable, or passed over, or searched
// for gossip.
#[derive(Clone, Copy)]
pub enum Judged {
    Report,
    Unreadable,
    Passed,
    Searched,
}

// Refusal 7 (R7): only where gossip is taken (G2). An empty payload is none (G3).
fn judge_payload(payload: &[u8], gossip: Gossip) -> Judged
    ensures { JudgedAs false payload.now gossip result }
{
    if !settings::is_taken(gossip) || payload.is_empty() {
        return Judged::Passed;
    }
    if header::readable(payload) {
        Judged::Searched
    } else {
        Judged::Unreadable
    }
}

// Refusals 6 and 7 (R6, R7).
fn judge(mail: Mail, survey: Survey, text: &mut [u8]) -> Judged
    requires { Walked mail.outer.now survey text.old }
    ensures { JudgedAs (is_reported (fields_in mail.entry.outer.now)) mail.entry.payload.now mail.entry.settings.gossip result }
{
    if outer::is_report(mail.outer, survey, text) {
        return Judged::Report;
    }
    judge_payload(mail.payload, mail.settings.gossip)
}

// What the message of the sender brings, the key of its field written to the front of `key`.
fn bring(mail: Mail, survey: Survey, text: &mut [u8], sender: &[u8], key: &mut [u8]) -> Brought
    requires { Sent mail.settings.key_limit mail.receipt mail.outer.now survey text.old sender.now key.old }
    ensures { BringsAs mail.entry.settings.key_limit mail.entry.receipt mail.entry.outer.now sender.now key.new result }
{
    let said = outer::date(mail.outer, survey, text);
    let own = keys::counted_field(
        mail.outer,
        mail.settings.key_limit,
        survey,
        sender,
        text,
        key,
    );
    Brought {
        sender: sender.len(),
        date: date::effective_date(said, mail.receipt),
        own,
    }
}

// Refusals 6 and 7, with the sender known, and what the message brings.
fn read_sent(mail: Mail, survey: Survey, text: &mut [u8], sender: &[u8], key: &mut [u8]) -> Reading
    requires { Sent mail.settings.key_limit mail.receipt mail.outer.now survey text.old sender.now key.old }
    ensures { MailReadAs mail.entry sender.now key.new result }
{
    match judge(mail, survey, text) {
        Judged::Report => Reading::Refused(Refusal::Report),
        Judged::Unreadable => Reading::Refused(Refusal::PayloadBlock),
        Judged::Passed => Reading::Alone(bring(mail, survey, text, sender, key)),
        Judged::Searched => Reading::Carrying(bring(mail, survey, text, sender, key), survey),
    }
}

// Refusals 5 to 7, with the outer block walked over.
fn read_on(
    mail: Mail,
    survey: Survey,
    text: &mut [u8],
    sender: &mut [u8],
    key: &mut [u8],
) -> Reading
    requires { Opened mail.settings.key_limit mail.receipt mail.outer.now survey text.old sender.old key.old }
    ensures { MailReadAs mail.entry sender.new key.new result }
{
    match outer::sender_of(mail.outer, survey, text, sender) {
        Some(n) => read_sent(mail, survey, text, &sender[..n], key),
        None => Reading::Refused(Refusal::Sender),
    }
}

// Reads a message: refusals 3 to 7 in order (R3 to R7), and what it brings where none of them is given. The sender's
// canonical address is written to the front of `sender`, and the key of the field that counts to the front of `key`.
pub fn read(
    receipt: u64,
    outer: &[u8],
    payload: &[u8],
    settings: Settings,
    text: &mut [u8],
    sender: &mut [u8],
    key: &mut [u8],
) -> Reading
    requires { Lent settings.key_limit outer.now text.old sender.old key.old }
    ensures { ReadAs settings.key_limit receipt outer.now payload.now settings.gossip
        sender.new key.new result }
{
    if Head::TIME_LIMIT < receipt {
        return Reading::Refused(Refusal::ReceiptTime);
    }
    let mail = Mail {
        receipt,
        outer,
        payload,
        settings,
    };
    match fields::walk(outer) {
        Some(survey) => read_on(mail, survey, text, sender, key),
        None => Reading::Refused(Refusal::OuterBlock),
    }
}
