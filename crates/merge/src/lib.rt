// Two entries of one address made one (SCOPE, T18): the slot of the one takes what the other has beyond it.
#![tactic(auto)]

ghost use Rattle.std.specs.Prelude.{◌≡◌};
ghost use Rattle.slots.specs.Entry.{entry_of, slot_of};
ghost use Rattle.merge.specs.Merging.{merged};
ghost use Rattle.merge.specs.Steps.{with_seen, with_later_direct, with_later_gossip, Merges};

use slots::Slot;

// Last seen of the other slot, where it is larger.
#[tactic(auto, using(crate::proofs::Parts::taking))]
fn take_seen(slot: &mut [u8], other: &[u8])
    requires { Merges slot.old other.now }
    ensures { slot.new ≡ slot_of (with_seen (entry_of other.now) (entry_of slot.old)) }
{
    if let Some(time) = slots::head_of(other).seen_time() {
        slots::raise_seen(slot, time);
    }
}

// The gossip half of the other slot, where it is later: one that is there is later than one that is not, and on a tie the
// own one stays.
#[tactic(auto, using(crate::proofs::Parts::taking))]
fn take_gossip(slot: &mut [u8], other: &[u8])
    requires { Merges slot.old other.now }
    ensures { slot.new ≡ slot_of (with_later_gossip (entry_of other.now) (entry_of slot.old)) }
{
    let own = slots::head_of(slot);
    let n = slots::head_of(other);
    if own.gossip_time() < n.gossip_time() {
        let end = Slot::GOSSIP_AT + n.gossip_length;
        slots::set_gossip(slot, n.gossip_timestamp, &other[Slot::GOSSIP_AT..end]);
    }
}

// The direct half of the other slot, where it is later in the same sense.
#[tactic(auto, using(crate::proofs::Parts::taking))]
fn take_direct(slot: &mut [u8], other: &[u8])
    requires { Merges slot.old other.now }
    ensures { slot.new ≡ slot_of (with_later_direct (entry_of other.now) (entry_of slot.old)) }
{
    let own = slots::head_of(slot);
    let n = slots::head_of(other);
    if own.direct_time() < n.direct_time() {
        let end = Slot::DIRECT_AT + n.direct_length;
        slots::set_direct(slot, n.timestamp, &other[Slot::DIRECT_AT..end], n.mutual);
    }
}

// The slot takes what the other has beyond it. Last seen comes first, so that the slot is sound at every step: no direct
// half is later than last seen beside it (T8.10).
#[tactic(auto, using(crate::proofs::Parts::merging))]
pub fn merge(slot: &mut [u8], other: &[u8])
    requires { Merges slot.old other.now }
    ensures { slot.new ≡ slot_of (merged (entry_of slot.old) (entry_of other.now)) }
{
    take_seen(slot, other);
    take_gossip(slot, other);
    take_direct(slot, other);
}
