// Plain addresses and their canonical form (SCOPE, L6 to L8). Nearly all addresses are ASCII, and go the ways of asciiaddress,
// which know no Punycode. Any other address is plain when its form can be written into room for 254 octets.
#![tactic(auto)]

ghost use Rattle.std.specs.Prelude.{◌≤◌, ◌≡◌, true, false, length, drop, Some};
ghost use Rattle.octets.specs.Octets.{same_octets, lowered};
ghost use Rattle.octets.specs.Puts.{PutsText};
ghost use Rattle.utf8.specs.Steps.{all_ascii};
ghost use Rattle.asciiaddress.specs.Answers.{local_of};
ghost use Rattle.address.specs.Address.{plain, canonical as canonical_of, is_canonical};
ghost use Rattle.address.specs.Answers.{MayWrite, PutsLabels, form_of, Fronts, written_of, onto_if_fits};

// How many octets a canonical form may have (L6).
pub const LONGEST: usize = 254;

// How many octets a plain address may have as it stands: its form has 254 at most, and an octet of it stands for a code point of
// four at most.
const LONGEST_GIVEN: usize = 1016;

// Writes what `put` writes of each of the labels that stand from the place `from` on, with the dots between them: forms, or
// what is shown.
pub fn put_labels<F: Fn(&[u8], &mut [u8], usize) -> Option<usize>>(
    s: &[u8],
    from: usize,
    out: &mut [u8],
    at: usize,
    put: F,
) -> Option<usize>
    requires from_in_bounds { from ≤ length s.now }
    requires at_in_bounds { at ≤ length out.old }
    requires may_put { MayWrite (F.pre put) }
    ensures { PutsLabels (F.post put) out.old out.new at (drop from s.now) result }
{
    let mut i = from;
    let mut to = at;
    loop {
        let end = octets::find(s, i, b'.');
        let e = put(&s[i..end], &mut *out, to)?;
        if s.len() <= end {
            return Some(e);
        }
        if out.len() <= e {
            return None;
        }
        out[e] = b'.';
        to = e + 1;
        i = end + 1;
    }
}

// Writes the canonical form of a plain address into room for just the longest one. There is none where the text is no plain
// address.
#[tactic(auto, using(crate::proofs::Making::putting_form))]
fn put_form(s: &[u8], out: &mut [u8]) -> Option<usize>
    requires { length out.old ≡ 254 }
    ensures { PutsText out.old out.new 0 (form_of s.now) result }
{
    let n = asciiaddress::local_part(s)?;
    utf8::put_lower(&mut *out, 0, &s[..n]);
    out[n] = b'@';
    put_labels(s, n + 1, out, n + 1, labels::put_label)
}

// Is it a plain address, with labels in any script? The length first: a long text costs nothing.
#[tactic(auto, using(crate::proofs::Making::being_wide))]
fn is_wide(s: &[u8]) -> bool
    ensures { result ≡ plain s.now }
{
    if LONGEST_GIVEN < s.len() {
        return false;
    }
    let mut form = [0u8; LONGEST];
    match put_form(s, &mut form) {
        Some(_) => true,
        None => false,
    }
}

// Is it a plain address, if its local part has n octets? Labels in ASCII come first, as nearly all are, and none of those is
// brought into form.
#[tactic(auto, using(crate::proofs::Making::being_plain))]
fn is_plain_behind(s: &[u8], n: usize) -> bool
    requires { local_of s.now ≡ Some n }
    ensures { result ≡ plain s.now }
{
    if LONGEST < s.len() {
        return is_wide(s);
    }
    if asciiaddress::is_domain(s, n + 1) {
        return true;
    }
    is_wide(s)
}

// Is it a plain address and nothing else? Lists ask this of every word, and most words have no local part with an `@` behind.
#[tactic(auto, using(crate::proofs::Making::being_plain))]
pub fn is_plain(s: &[u8]) -> bool
    ensures { result ≡ plain s.now }
{
    match asciiaddress::local_part(s) {
        Some(n) => is_plain_behind(s, n),
        None => false,
    }
}

// Is it a plain address that is its own canonical form (L8)? The form of a label is ASCII, so no label has to be coded to tell.
#[tactic(auto, using(crate::proofs::Making::being_canonical))]
pub fn is_canonical(s: &[u8]) -> bool
    ensures { result ≡ is_canonical s.now }
{
    asciiaddress::is_canonical(s)
}

// Makes the canonical form of a plain address that is not ASCII.
#[tactic(auto, using(crate::proofs::Making::making))]
fn make_wide(s: &[u8], form: &mut [u8]) -> usize
    requires s_value { plain s.now ≡ true }
    requires form_len { length form.old ≡ 254 }
    ensures { Fronts (canonical_of s.now) form.new result }
{
    match put_form(s, form) {
        Some(n) => n,
        None => 0,
    }
}

// Makes the canonical form of a plain address in a buffer of the caller's own, of which only the front counts, and answers its
// length. For ASCII one loop is enough, which tells on its way that the address is: nearly all go no further.
#[tactic(auto, using(crate::proofs::Making::making))]
pub fn form_of(s: &[u8], form: &mut [u8]) -> usize
    requires s_value { plain s.now ≡ true }
    requires form_len { length form.old ≡ 254 }
    ensures { Fronts (canonical_of s.now) form.new result }
{
    if LONGEST < s.len() {
        return make_wide(s, form);
    }
    if utf8::put_ascii(&mut *form, 0, s) {
        return s.len();
    }
    make_wide(s, form)
}

// Writes a text to the front of `out` with its ASCII capitals made small, where it fits.
#[tactic(auto, using(crate::proofs::Making::putting_small))]
fn put_small(s: &[u8], out: &mut [u8]) -> Option<usize>
    ensures value { result ≡ written_of (lowered s.now) (length out.old) }
    ensures out_after { out.new ≡ onto_if_fits (lowered s.now) out.old }
{
    if out.len() < s.len() {
        return None;
    }
    octets::put_lower(out, 0, s);
    Some(s.len())
}

// Writes the canonical form of a plain address to the front of `out`, where it fits. It has no capital, so that what writes
// texts in lower case writes it as it is.
#[tactic(auto, using(crate::proofs::Making::writing_canonical))]
pub fn canonical(s: &[u8], out: &mut [u8]) -> Option<usize>
    requires { plain s.now ≡ true }
    ensures value { result ≡ written_of (canonical_of s.now) (length out.old) }
    ensures out_after { out.new ≡ onto_if_fits (canonical_of s.now) out.old }
{
    if utf8::is_ascii(s) {
        return put_small(s, out);
    }
    let mut form = [0u8; LONGEST];
    let n = put_form(s, &mut form)?;
    put_small(&form[..n], out)
}

// Is `form` the canonical form of `s`, a text of any octets?
#[tactic(auto, using(crate::proofs::Making::having_wide_form))]
fn has_wide_form(s: &[u8], form: &[u8]) -> bool
    requires { is_canonical form.now ≡ true }
    ensures { result ≡ same_octets (canonical_of s.now) form.now }
{
    let mut own = [0u8; LONGEST];
    match put_form(s, &mut own) {
        Some(n) => octets::same(&own[..n], form),
        None => false,
    }
}

// The same. Addresses are compared in no other way (L8). Where the form is ASCII, which a caller who asks often finds out once, an
// ASCII address need not be brought into form.
#[tactic(auto, using(crate::proofs::Making::having_form))]
pub fn has_known_form(s: &[u8], form: &[u8], ascii: bool) -> bool
    requires { (is_canonical form.now ≡ true) × (ascii ≡ all_ascii form.now) }
    ensures { result ≡ same_octets (canonical_of s.now) form.now }
{
    if ascii {
        if octets::same_name(s, form) {
            return true;
        }
        if utf8::is_ascii(s) {
            return false;
        }
    }
    has_wide_form(s, form)
}

// The same, for a form that is asked about once.
pub fn has_form(s: &[u8], form: &[u8]) -> bool
    requires { is_canonical form.now ≡ true }
    ensures { result ≡ same_octets (canonical_of s.now) form.now }
{
    has_known_form(s, form, utf8::is_ascii(form))
}
