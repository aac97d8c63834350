// One Autocrypt or Autocrypt-Gossip value, unfolded: its pieces are read from the first to the last (page F), and the key
// is decoded once the rest is known to be good. What is right is said by specs/Field.antt.
#![tactic(auto)]

ghost use Rattle.std.specs.Prelude.{◌≤◌, ◌≡◌, length};
ghost use Rattle.keyfield.specs.Field.{mutual_by};
ghost use Rattle.keyfield.specs.Answers.{whole_of, Scans, KeyAs, ReadAs};

use attributes::{Bounds, NextPiece};

// What the value says, its key data still a text: where the address stands, the preference, and where the key data stands.
#[derive(Clone, Copy)]
struct Scanned {
    address: Bounds,
    mutual: bool,
    key_data: Bounds,
}

// What a field says: the place of its address in the value, as it stands there, its preference, and the length of its key.
#[derive(Clone, Copy)]
pub struct Read {
    pub address: Bounds,
    pub mutual: bool,
    pub key: usize,
}

// F7: no `prefer-encrypt` is no preference.
#[tactic(auto, using(crate::proofs::Ending::ending))]
fn is_mutual(preference: Option<bool>) -> bool
    ensures { result ≡ mutual_by preference }
{
    match preference {
        None => false,
        Some(mutual) => mutual,
    }
}

// What has been read where the key data stands last: the address must have come before (F6).
#[tactic(auto, using(crate::proofs::Ending::ending))]
fn whole(address: Option<Bounds>, preference: Option<bool>, key_data: Bounds) -> Option<Scanned>
    ensures { result ≡ whole_of address preference key_data }
{
    let address = address?;
    Some(Scanned {
        address,
        mutual: is_mutual(preference),
        key_data,
    })
}

// Reads the pieces in order (F1). The key data stands in the last one, and only there (F8).
#[tactic(auto, using(crate::proofs::Scanning::scanning))]
fn scan(s: &[u8]) -> Option<Scanned>
    ensures { Scans s.now result }
{
    let mut at = 0;
    let mut address = None;
    let mut preference = None;
    loop {
        let end = attributes::find(s, at, s.len(), b';');
        match attributes::step_at(s, at, end, address, preference) {
            NextPiece::On(seen, stated) => {
                if s.len() <= end {
                    return None;
                }
                address = seen;
                preference = stated;
                at = end + 1;
            }
            NextPiece::Last(key_data) => {
                if end < s.len() {
                    return None;
                }
                return whole(address, preference, key_data);
            }
            NextPiece::Spoils => return None,
        }
    }
}

// Writes the key that key data stands for, of 1 to `limit` octets (F9, F10), to the front of `key`. Where there is none,
// what `key` holds means nothing.
#[tactic(auto, using(crate::proofs::Keying::keying))]
fn read_key(text: &[u8], limit: usize, key: &mut [u8]) -> Option<usize>
    requires { limit ≤ length key.old }
    ensures { KeyAs limit text.now key.new result }
{
    match keydata::decode(text, &mut key[0..limit]) {
        Some(n) if 0 < n => Some(n),
        Some(_) | None => None,
    }
}

// Reads a field's value, and writes its key, of 1 to `limit` octets, to the front of `key`. Where the field is spoiled,
// what `key` holds means nothing.
#[tactic(auto, using(crate::proofs::Reading::reading))]
pub fn read_field(value: &[u8], limit: usize, key: &mut [u8]) -> Option<Read>
    requires { limit ≤ length key.old }
    ensures { ReadAs limit value.now key.new result }
{
    let said = scan(value)?;
    let text = &value[said.key_data.from..said.key_data.to];
    let key = read_key(text, limit, key)?;
    Some(Read {
        address: said.address,
        mutual: said.mutual,
        key,
    })
}
