// What is asked of one Autocrypt or Autocrypt-Gossip value whatever else it says (SCOPE, O6 to O9): the pieces of a name, the
// one address, the key data. Reading a field (page F) ends at the first piece that spoils it; here every piece is looked
// at. What is right is said by specs/Asked.antt.
#![tactic(auto)]

ghost use Rattle.std.specs.Prelude.{◌≤◌, ◌≡◌, length};
ghost use Rattle.attributes.specs.Answers.{part, Within};
ghost use Rattle.asked.specs.Asked.{is_empty, is_unknown, is_name, is_called, occurs as occurs_in, has_key_data};
ghost use Rattle.asked.specs.Answers.{ValueAs, FoundAs, rest_from, NamedAs};

use attributes::{Bounds, Name};

// What the pieces are that are asked for: those of a name that fields have, and those of an unknown one (O7).
#[derive(Clone, Copy)]
pub enum Called {
    Addr,
    PreferEncrypt,
    Keydata,
    Unknown,
}

// A piece: where its value stands, without the blanks around it, and where the piece ends.
#[derive(Clone, Copy)]
struct Found {
    value: Bounds,
    end: usize,
}

// Is the name unknown? One that opens with `_` is ignored, and an empty one is no name (O7).
#[tactic(auto, using(crate::proofs::Naming::knowing))]
fn is_unknown(name: &[u8]) -> bool
    ensures { result ≡ is_unknown name.now }
{
    !name.is_empty() && matches!(attributes::name_of(name), Name::Unknown)
}

// Is it a name of those that are asked for? Names are compared octet by octet (F4).
#[tactic(auto, unfolding(crate::specs::Asked::is_name))]
fn is_name(name: &[u8], what: Called) -> bool
    ensures { result ≡ is_name what name.now }
{
    match what {
        Called::Addr => octets::same(name, b"addr"),
        Called::PreferEncrypt => octets::same(name, b"prefer-encrypt"),
        Called::Keydata => octets::same(name, b"keydata"),
        Called::Unknown => is_unknown(name),
    }
}

// Has the piece from `from` up to `to` such a name? Without `=` it has none (O7).
#[tactic(auto, using(crate::proofs::Naming::calling))]
fn is_called(s: &[u8], from: usize, to: usize, what: Called) -> bool
    requires { Within s.now from to }
    ensures { result ≡ is_called what (part s.now from to) }
{
    let cut = attributes::find(s, from, to, b'=');
    if to <= cut {
        return false;
    }
    let name = attributes::trim(s, from, cut);
    is_name(&s[name.from..name.to], what)
}

// Where the value of the piece from `from` up to `to` stands, without the blanks around it. Without `=` it is empty.
#[tactic(auto, using(crate::proofs::Naming::valuing))]
fn value_at(s: &[u8], from: usize, to: usize) -> Bounds
    requires { Within s.now from to }
    ensures { ValueAs s.now from to result }
{
    let cut = attributes::find(s, from, to, b'=');
    if to <= cut {
        return Bounds { from: to, to };
    }
    attributes::trim(s, cut + 1, to)
}

// The first such piece from the place `at` on, where a piece begins.
#[tactic(auto, using(crate::proofs::Finding::seeking))]
fn find(s: &[u8], at: usize, what: Called) -> Option<Found>
    requires { at ≤ length s.now }
    ensures { FoundAs what s.now at result }
{
    let mut place = at;
    loop {
        let end = attributes::find(s, place, s.len(), b';');
        if is_called(s, place, end, what) {
            let value = value_at(s, place, end);
            return Some(Found { value, end });
        }
        if s.len() <= end {
            return None;
        }
        place = end + 1;
    }
}

// Is there no such piece behind the one that ends at `end`?
#[tactic(auto, using(crate::proofs::Finding::ending))]
fn is_last_such(s: &[u8], end: usize, what: Called) -> bool
    requires { end ≤ length s.now }
    ensures { result ≡ is_empty (rest_from what s.now end) }
{
    if s.len() <= end {
        return true;
    }
    find(s, end + 1, what).is_none()
}

// Is there such a piece (O7, O9)?
#[tactic(auto, using(crate::proofs::Finding::occurring))]
pub fn occurs(s: &[u8], what: Called) -> bool
    ensures { result ≡ occurs_in what s.now }
{
    find(s, 0, what).is_some()
}

// Where the address stands that the value names: that of its one `addr`, where this is plain (O6).
#[tactic(auto, using(crate::proofs::Addressed::addressing))]
pub fn named_at(s: &[u8]) -> Option<Bounds>
    ensures { NamedAs s.now result }
{
    let Found { value, end } = find(s, 0, Called::Addr)?;
    if is_last_such(s, end, Called::Addr) && address::is_plain(&s[value.from..value.to]) {
        return Some(value);
    }
    None
}

// Is the key data as it should be: one `keydata`, the last piece, and Base64 (O8)? If the first is the last piece there is no
// other.
#[tactic(auto, using(crate::proofs::KeyData::telling))]
pub fn has_key_data(s: &[u8]) -> bool
    ensures { result ≡ has_key_data s.now }
{
    let Some(Found { value, end }) = find(s, 0, Called::Keydata) else {
        return false;
    };
    if end < s.len() {
        return false;
    }
    keydata::is_base64(&s[value.from..value.to])
}
