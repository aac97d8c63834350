// What a caller chooses beside the message: whether gossip is taken (SCOPE, G1). What a choice means is said by
// specs/Settings.antt.
#![tactic(auto)]

ghost use Rattle.std.specs.Prelude.{◌≡◌};
ghost use Rattle.settings.specs.Settings.{taken};

// Is gossip in encrypted mail taken (G1)? Whoever wants it says take. A caller that says nothing leaves it unset, and gets
// none.
#[derive(Clone, Copy, PartialEq, Eq)]
pub enum Gossip {
    Take,
    Skip,
    Unset,
}

// What is settled before a message is read, as it travels down: what the caller chose, and the longest key that is taken, which
// the form of the table gives.
#[derive(Clone, Copy)]
pub struct Settings {
    pub gossip: Gossip,
    pub key_limit: usize,
}

// Is gossip taken? Only where it was asked for (G1).
#[tactic(auto, unfolding(crate::specs::Settings::taken))]
pub fn is_taken(gossip: Gossip) -> bool
    ensures { result ≡ taken gossip }
{
    gossip == Gossip::Take
}
