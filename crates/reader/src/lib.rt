// A reader has a block and a place in it, and hands out the block's fields one by one (SCOPE, B14). The work is done by
// `hand_out` and `place_behind`, which take the block and a place; what takes, makes or lends a reader is thin and leaves
// it to them. Who keeps a place and not a reader calls `take`, and who has only a block and a number `field_number`.
#![tactic(auto)]

ghost use Rattle.std.specs.Prelude.{◌≡◌};
ghost use Rattle.reader.specs.Reading.{handed_at, place_behind, handed_after, opened, moved_on, taken_at};

use header::Step;

// What a reader hands out: a field, whose name lies from `name` to `name_end` and its value, not unfolded yet, from `value`
// to `end`, where the next line begins; or word that the block is over, or unreadable at the reader's place.
#[derive(Clone, Copy)]
pub enum Handed {
    Over,
    Broken,
    Field {
        name: usize,
        name_end: usize,
        value: usize,
        end: usize,
    },
}

// What stands at the place `at`, where a line begins.
#[tactic(auto, using(crate::proofs::Handing::handing))]
fn hand_out(block: &[u8], at: usize) -> Handed
    ensures { result ≡ handed_at block.now at }
{
    match header::field_at(block, at) {
        Step::Over => Handed::Over,
        Step::Broken => Handed::Broken,
        Step::Field {
            name_end,
            value,
            end,
        } => Handed::Field {
            name: at,
            name_end,
            value,
            end,
        },
    }
}

// Where a reader goes on that was at the place `at`: behind the field that it handed out; else it stays (B14).
#[tactic(auto, unfolding(crate::specs::Reading::place_behind))]
fn place_behind(handed: Handed, at: usize) -> usize
    ensures { result ≡ place_behind handed at }
{
    match handed {
        Handed::Over | Handed::Broken => at,
        Handed::Field { end, .. } => end,
    }
}

#[derive(Drop)]
pub struct Reader<'a> {
    pub block: &'a [u8],
    pub at: usize,
}

impl<'a> Reader<'a> {
    // A reader at the beginning of a block.
    pub fn new(block: &'a [u8]) -> Reader<'a>
        ensures { result ≡ opened block.entry }
    {
        Reader { block, at: 0 }
    }

    // Hands out the field at the reader's place, and goes on behind it.
    pub fn next<'s>(&'s mut self) -> Handed
        ensures { (result ≡ handed_at self.old.block.now self.old.at)
            × (self.new ≡ moved_on self.old) }
    {
        let at = self.at;
        let handed = hand_out(self.block, at);
        self.at = place_behind(handed, at);
        handed
    }
}

// What a reader hands out, and the place where it then is.
#[derive(Clone, Copy)]
pub struct Taken {
    pub handed: Handed,
    pub at: usize,
}

// One step of a reader that is at the place `at`, for who keeps the place and not the reader.
pub fn take(block: &[u8], at: usize) -> Taken
    ensures { result ≡ taken_at block.now at }
{
    let mut reader = Reader::new(block);
    reader.at = at;
    let handed = reader.next();
    Taken {
        handed,
        at: reader.at,
    }
}

// The field of the number `k`, from 0, of a block: what a reader at its beginning hands out after `k` others (B14). A reader
// that stays at its place hands out the same however often it is asked.
#[tactic(auto, using(crate::proofs::Handing::reading_on))]
pub fn field_number(block: &[u8], k: usize) -> Handed
    ensures { result ≡ handed_after k block.now 0 }
{
    let mut at = 0;
    for _ in 0..k {
        let taken = take(block, at);
        if taken.at == at {
            return taken.handed;
        }
        at = taken.at;
    }
    take(block, at).handed
}
