// Why calls refuse: one enum for all of them, its numbers (SCOPE, page R), and the answer of a call that has nothing else
// to say. Which refusal a call gives is said by rows (specs/Rows.antt): the first row that holds decides (R31).
#![tactic(auto)]

ghost use Rattle.std.specs.Prelude.{◌≡◌};
ghost use Rattle.refusals.specs.Refusals.{number_of, index_of};

// Named for the rules R1 to R12, in their order.
#[derive(Clone, Copy)]
pub enum Refusal {
    TableLength,
    BrokenSlot(u32),
    ReceiptTime,
    OuterBlock,
    Sender,
    Report,
    PayloadBlock,
    NoFreeSlot,
    OwnAddress,
    Recipients,
    KeyLength,
    OutputLength,
}

// A refusal has the number of its rule, R1 to R12.
impl From<Refusal> for u32 {
    ghost from_gives = { λ refusal n. n ≡ number_of refusal };

    fn from(refusal: Refusal) -> u32 {
        match refusal {
            Refusal::TableLength => 1,
            Refusal::BrokenSlot(_) => 2,
            Refusal::ReceiptTime => 3,
            Refusal::OuterBlock => 4,
            Refusal::Sender => 5,
            Refusal::Report => 6,
            Refusal::PayloadBlock => 7,
            Refusal::NoFreeSlot => 8,
            Refusal::OwnAddress => 9,
            Refusal::Recipients => 10,
            Refusal::KeyLength => 11,
            Refusal::OutputLength => 12,
        }
    }
}

// The number of a refusal: that of its rule, R1 to R12.
pub fn number(refusal: Refusal) -> u32
    ensures { result ≡ number_of refusal }
{
    refusal.into()
}

// The index that comes with a refusal: that of the lowest broken slot, and 0 with all others (R33).
pub fn index(refusal: Refusal) -> u32
    ensures { result ≡ index_of refusal }
{
    match refusal {
        Refusal::BrokenSlot(i) => i,
        _ => 0,
    }
}
