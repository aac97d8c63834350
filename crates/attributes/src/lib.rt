// One piece of the value of an Autocrypt or Autocrypt-Gossip field (SCOPE, F2 to F8): its name, which stands before the
// first `=`, and its value, each without the blanks around it; and what it comes to behind what was read before it. What is
// right is said by specs/Attribute.antt and specs/Step.antt.
#![tactic(auto)]

ghost use Rattle.std.specs.Prelude.{◌≡◌};
ghost use Rattle.attributes.specs.Attribute.{name_of, attribute_of};
ghost use Rattle.attributes.specs.Step.{with_address, with_preference, step};
ghost use Rattle.attributes.specs.Answers.{part, Within, FirstAt, TrimmedFrom, TrimmedTo, Trimmed, Tells};
ghost use Rattle.attributes.specs.Steps.{address_at, Stands, Steps};

use runs::Class;

// Where something stands in the value: from the place `from` up to the place `to`.
#[derive(Clone, Copy)]
pub struct Bounds {
    pub from: usize,
    pub to: usize,
}

// The names that a field knows, and the others: ignored or unknown (F5).
#[derive(Clone, Copy)]
pub enum Name {
    Addr,
    PreferEncrypt,
    Keydata,
    Ignored,
    Unknown,
}

// What a piece says, with the place of its value.
#[derive(Clone, Copy)]
enum Attribute {
    Addr(Bounds),
    PreferEncrypt(Bounds),
    Keydata(Bounds),
    Ignored,
    Spoiling,
}

// What a piece comes to: the reading goes on with the address and the preference seen so far, it is at the key data (F8), or
// the field is spoiled.
#[derive(Clone, Copy)]
pub enum NextPiece {
    On(Option<Bounds>, Option<bool>),
    Last(Bounds),
    Spoils,
}

// The first place from `from` on where an `x` stands; `to` where none stands before that.
#[tactic(auto, using(crate::proofs::Finding::finding))]
pub fn find(s: &[u8], from: usize, to: usize, x: u8) -> usize
    requires { Within s.now from to }
    ensures { FirstAt s.now from to x result }
{
    let n = octets::find(&s[from..to], 0, x);
    from + n
}

// The first place from `from` on where no blank stands.
#[tactic(auto, using(crate::proofs::Trimming::trimming_front))]
fn skip_blanks(s: &[u8], from: usize, to: usize) -> usize
    requires { Within s.now from to }
    ensures { TrimmedFrom s.now from to result }
{
    let n = runs::run_end(&s[from..to], 0, Class::Blank);
    from + n
}

// The place behind the last octet before `to` that is no blank.
#[tactic(auto, using(crate::proofs::Trimming::trimming_back))]
fn leave_blanks(s: &[u8], from: usize, to: usize) -> usize
    requires { Within s.now from to }
    ensures { TrimmedTo s.now from to result }
{
    for i in (from..to).rev() {
        if !octets::is_blank(s[i]) {
            return i + 1;
        }
    }
    from
}

// The places that are left when the blanks at both ends are taken off (F2).
#[tactic(auto, using(crate::proofs::Trimming::trimming))]
pub fn trim(s: &[u8], from: usize, to: usize) -> Bounds
    requires { Within s.now from to }
    ensures { Trimmed s.now from to result }
{
    let from = skip_blanks(s, from, to);
    let to = leave_blanks(s, from, to);
    Bounds { from, to }
}

// Which name it is. Names are compared octet by octet (F4).
#[tactic(auto, using(crate::proofs::Naming::naming))]
pub fn name_of(name: &[u8]) -> Name
    ensures { result ≡ name_of name.now }
{
    if octets::same(name, b"addr") {
        return Name::Addr;
    }
    if octets::same(name, b"prefer-encrypt") {
        return Name::PreferEncrypt;
    }
    if octets::same(name, b"keydata") {
        return Name::Keydata;
    }
    if octets::goes_on(name, 0, b"_") {
        return Name::Ignored;
    }
    Name::Unknown
}

// What the piece from `from` up to `to` says. Without `=` it spoils the field (F3).
#[tactic(auto, using(crate::proofs::Naming::telling))]
fn attribute_at(s: &[u8], from: usize, to: usize) -> Attribute
    requires { Within s.now from to }
    ensures { Tells s.now result (attribute_of (part s.now from to)) }
{
    let cut = find(s, from, to, b'=');
    if to <= cut {
        return Attribute::Spoiling;
    }
    let name = trim(s, from, cut);
    let value = trim(s, cut + 1, to);
    match name_of(&s[name.from..name.to]) {
        Name::Addr => Attribute::Addr(value),
        Name::PreferEncrypt => Attribute::PreferEncrypt(value),
        Name::Keydata => Attribute::Keydata(value),
        Name::Ignored => Attribute::Ignored,
        Name::Unknown => Attribute::Spoiling,
    }
}

// The address: once, and a plain one (F6).
#[tactic(auto, using(crate::proofs::Stepping::addressing))]
fn with_address(
    s: &[u8],
    at: Bounds,
    address: Option<Bounds>,
    preference: Option<bool>,
) -> NextPiece
    requires { Within s.now at.from at.to }
    ensures { Steps s.now result
        (with_address (address_at s.now address) preference (part s.now at.from at.to)) }
{
    if address.is_some() {
        return NextPiece::Spoils;
    }
    if address::is_plain(&s[at.from..at.to]) {
        NextPiece::On(Some(at), preference)
    } else {
        NextPiece::Spoils
    }
}

// The preference: once at most, and any value but `mutual` says that there is none (F7).
#[tactic(auto, using(crate::proofs::Stepping::preferring))]
fn with_preference(
    s: &[u8],
    at: Bounds,
    address: Option<Bounds>,
    preference: Option<bool>,
) -> NextPiece
    requires { Within s.now at.from at.to × Stands s.now address }
    ensures { Steps s.now result
        (with_preference (address_at s.now address) preference (part s.now at.from at.to)) }
{
    match preference {
        None => {
            let mutual = octets::same(&s[at.from..at.to], b"mutual");
            NextPiece::On(address, Some(mutual))
        }
        Some(_) => NextPiece::Spoils,
    }
}

// What the piece from `from` up to `to` comes to, behind the address and the preference seen so far.
#[tactic(auto, using(crate::proofs::Stepping::stepping))]
pub fn step_at(
    s: &[u8],
    from: usize,
    to: usize,
    address: Option<Bounds>,
    preference: Option<bool>,
) -> NextPiece
    requires { Within s.now from to × Stands s.now address }
    ensures { Steps s.now result
        (step (address_at s.now address) preference (attribute_of (part s.now from to))) }
{
    match attribute_at(s, from, to) {
        Attribute::Addr(value) => with_address(s, value, address, preference),
        Attribute::PreferEncrypt(value) => with_preference(s, value, address, preference),
        Attribute::Keydata(value) => NextPiece::Last(value),
        Attribute::Ignored => NextPiece::On(address, preference),
        Attribute::Spoiling => NextPiece::Spoils,
    }
}
