// The faults of one field as numbers of a lent list (SCOPE, O2 to O4): three for each, as far as the list goes. So a caller
// learns how many there are by lending no room. What is right is said by specs/Faults.antt.
#![tactic(auto)]

ghost use Rattle.std.specs.Prelude.{◌+◌, ◌≤◌, ◌≡◌, length};
ghost use Rattle.faults.specs.Faults.{no_flaws, numbers_of, faults_at, kinds};
ghost use Rattle.faults.specs.Laying.{laid_at, Placed, numbers_if, room};

// The kinds of faults (O3). The first is about a block, the others about a field.
pub const NO_VALID: u32 = 1;

const MORE_VALID: u32 = 2;

const WRONG_ADDRESS: u32 = 3;

const UNKNOWN_ATTRIBUTE: u32 = 4;

const KEY_DATA: u32 = 5;

const GOSSIP_OUTSIDE: u32 = 6;

const GOSSIP_UNLISTED: u32 = 7;

const GOSSIP_PREFERENCE: u32 = 8;

// Which faults a field has, of the kinds 2 to 8 in their order.
#[derive(Clone, Copy)]
pub struct Flaws {
    pub more_valid: bool,
    pub wrong_address: bool,
    pub unknown_attribute: bool,
    pub key_data: bool,
    pub gossip_outside: bool,
    pub gossip_unlisted: bool,
    pub gossip_preference: bool,
}

// A field that has none.
#[tactic(auto, unfolding(crate::specs::Faults::no_flaws))]
pub fn no_flaws() -> Flaws
    ensures { result ≡ no_flaws }
{
    Flaws {
        more_valid: false,
        wrong_address: false,
        unknown_attribute: false,
        key_data: false,
        gossip_outside: false,
        gossip_unlisted: false,
        gossip_preference: false,
    }
}

// Writes a number to the place `at`, if the list goes so far.
#[tactic(auto, using(crate::proofs::Laying::placing))]
fn put_number(list: &mut [u32], at: usize, x: u32)
    ensures { Placed list.old at x list.new }
{
    if at < list.len() {
        list[at] = x;
    }
}

// Writes the numbers of a fault from the place `at` on, as far as the list goes, if the fault is there. Answers the place
// behind them.
#[tactic(auto, unfolding(crate::specs::Laying::numbers_if, crate::specs::Laying::laid_at))]
pub fn put_fault(
    list: &mut [u32],
    at: usize,
    there: bool,
    block: u32,
    place: u32,
    kind: u32,
) -> usize
    requires { at ≤ room }
    ensures value { result ≡ at + length (numbers_if there block place kind) }
    ensures list_after { list.new ≡ laid_at list.old at (numbers_if there block place kind) }
{
    if !there {
        return at;
    }
    put_number(&mut *list, at, block);
    put_number(&mut *list, at + 1, place);
    put_number(&mut *list, at + 2, kind);
    at + 3
}

// Writes the faults of the field at a place of a block, in the order of their kinds (O4).
pub fn put_flaws(list: &mut [u32], at: usize, block: u32, place: u32, flaws: Flaws) -> usize
    requires { at + 21 ≤ room }
    ensures value { result ≡ at + length (numbers_of (faults_at block place (kinds flaws))) }
    ensures list_after { list.new ≡ laid_at list.old at (numbers_of (faults_at block place (kinds flaws))) }
{
    let kinds = [
        (MORE_VALID, flaws.more_valid),
        (WRONG_ADDRESS, flaws.wrong_address),
        (UNKNOWN_ATTRIBUTE, flaws.unknown_attribute),
        (KEY_DATA, flaws.key_data),
        (GOSSIP_OUTSIDE, flaws.gossip_outside),
        (GOSSIP_UNLISTED, flaws.gossip_unlisted),
        (GOSSIP_PREFERENCE, flaws.gossip_preference),
    ];
    let mut to = at;
    for (kind, there) in kinds {
        to = put_fault(&mut *list, to, there, block, place, kind);
    }
    to
}
