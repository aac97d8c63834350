// Whose key one field brings: that of the sender, in an Autocrypt field (F12), or that of a recipient, in a gossip field
// (G5). What is right is said by specs/Owners.antt and by the definitions of `keyfield`.
//
// What a lent key or address holds behind the length that is answered means nothing.
#![tactic(auto)]

ghost use Rattle.std.specs.Prelude.{◌≤◌, ◌≡◌, true, length};
ghost use Rattle.address.specs.Address.{is_canonical};
ghost use Rattle.keyfield.specs.Field.{valid_for};
ghost use Rattle.roll.specs.Roll.{unrolled};
ghost use Rattle.keyowner.specs.Owners.{accepted_for};
ghost use Rattle.keyowner.specs.Answers.{OwnAs, Accepts, AcceptedAs};

// What a field of the sender brings: its preference, and the length of its key.
#[derive(Clone, Copy)]
pub struct OwnKey {
    pub mutual: bool,
    pub length: usize,
}

// What a gossip field brings that is accepted: the lengths of its address and of its key.
#[derive(Clone, Copy)]
pub struct Accepted {
    pub address: usize,
    pub key: usize,
}

// Is the Autocrypt field with this value valid for the sender (F12)? Its key, of 1 to `limit` octets, is then written to
// the front of `key`.
#[tactic(auto, using(crate::proofs::OwnField::owning))]
pub fn valid_for(value: &[u8], limit: usize, sender: &[u8], key: &mut [u8]) -> Option<OwnKey>
    requires { (is_canonical sender.now ≡ true) × (limit ≤ length key.old) }
    ensures { OwnAs limit sender.now (valid_for limit sender.now value.now) key.new result }
{
    let said = keyfield::read_field(value, limit, key)?;
    let at = said.address;
    if address::has_form(&value[at.from..at.to], sender) {
        return Some(OwnKey {
            mutual: said.mutual,
            length: said.key,
        });
    }
    None
}

// Is the gossip field with this value accepted (G5)? Its address and its key, of 1 to `limit` octets, are then written to
// the front of `address` and `key`.
#[tactic(auto, using(crate::proofs::Accepting::accepting))]
pub fn accept(
    value: &[u8],
    limit: usize,
    recipients: &[u8],
    tags: &[u32],
    places: &[u16],
    address: &mut [u8],
    key: &mut [u8],
) -> Option<Accepted>
    requires { Accepts limit recipients.now tags.now places.now address.old key.old }
    ensures { AcceptedAs limit (accepted_for limit (unrolled recipients.now) value.now)
        address.new key.new result }
{
    let said = keyfield::read_field(value, limit, key)?;
    let at = said.address;
    let Some(n) = address::canonical(&value[at.from..at.to], address) else {
        return None;
    };
    if roll::holds(recipients, tags, places, &address[0..n]) {
        return Some(Accepted {
            address: n,
            key: said.key,
        });
    }
    None
}
