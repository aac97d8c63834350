// Fields written (SCOPE, W2 to W5): name, address, preference and key become the text of one header field. What it is
// stands in specs/Writing.antt.
#![tactic(auto)]

ghost use Rattle.std.specs.Prelude.{◌+◌, ◌≤◌, ◌≡◌, true, length};
ghost use Rattle.octets.specs.Written.{put_at, onto};
ghost use Rattle.address.specs.Address.{plain};
ghost use Rattle.address.specs.Answers.{written_of, onto_if_fits};
ghost use Rattle.writer.specs.Writing.{preference, field_text, written};
ghost use Rattle.writer.specs.Steps.{opening, attributes};

// What stands between the parts that a caller gives (W2).
const ADDR: [u8; 7] = *b": addr=";

const PREFER_ENCRYPT: [u8; 23] = *b"; prefer-encrypt=mutual";

const KEYDATA: [u8; 12] = *b"; keydata=\r\n";

// Writes `text` from the place `at` on, and answers the place behind it.
fn append(out: &mut [u8], at: usize, text: &[u8]) -> usize
    requires { at + length text.now ≤ length out.old }
    ensures value { result ≡ at + length text.now }
    ensures out_after { out.new ≡ put_at out.old at text.now }
{
    octets::put(out, at, text);
    at + text.len()
}

#[tactic(auto, using(octets::proofs::Putting::over_none), unfolding(crate::specs::Writing::preference))]
fn append_preference(out: &mut [u8], at: usize, mutual: bool) -> usize
    requires { at + length (preference «mutual») ≤ length out.old }
    ensures value { result ≡ at + length (preference «mutual») }
    ensures out_after { out.new ≡ put_at out.old at (preference «mutual») }
{
    if mutual {
        append(out, at, &PREFER_ENCRYPT)
    } else {
        at
    }
}

// Writes name and address to the front of `out`, and answers the place behind them.
#[tactic(auto, using(crate::proofs::Placing::opening_up))]
fn put_opening(name: &[u8], address: &[u8], out: &mut [u8]) -> usize
    requires { length (opening name.now address.now) ≤ length out.old }
    ensures value { result ≡ 0 + length (opening name.now address.now) }
    ensures out_after { out.new ≡ put_at out.old 0 (opening name.now address.now) }
{
    let named = append(out, 0, name);
    let opened = append(out, named, &ADDR);
    append(out, opened, address)
}

// Writes what stands behind the address, from the place `at` on.
#[tactic(auto, using(crate::proofs::Placing::attributing))]
fn put_attributes(mutual: bool, key: &[u8], out: &mut [u8], at: usize)
    requires { at + length (attributes «mutual» key.now) ≤ length out.old }
    ensures { out.new ≡ put_at out.old at (attributes «mutual» key.now) }
{
    let preferred = append_preference(out, at, mutual);
    let opened = append(out, preferred, &KEYDATA);
    keylines::write_lines(key, out, opened);
}

// Writes a field, which has room, to the front of `out`.
#[tactic(auto, using(crate::proofs::Placing::joining))]
fn put_field(name: &[u8], address: &[u8], mutual: bool, key: &[u8], out: &mut [u8])
    requires { length (field_text name.now address.now «mutual» key.now) ≤ length out.old }
    ensures { out.new ≡ onto (field_text name.now address.now «mutual» key.now) out.old }
{
    let at = put_opening(name, address, out);
    put_attributes(mutual, key, out, at);
}

#[tactic(auto, unfolding(crate::specs::Writing::preference))]
fn preference_length(mutual: bool) -> usize
    ensures { (result ≡ length (preference «mutual»)) × (result ≤ 23) }
{
    if mutual { PREFER_ENCRYPT.len() } else { 0 }
}

#[tactic(auto, using(crate::proofs::Parts::field_counted))]
fn field_length(name: &[u8], address: &[u8], mutual: bool, key: &[u8]) -> usize
    requires { (length name.now ≤ 256) × (length address.now ≤ 256) }
    ensures { result ≡ length (field_text name.now address.now «mutual» key.now) }
{
    name.len()
        + ADDR.len()
        + address.len()
        + preference_length(mutual)
        + KEYDATA.len()
        + keylines::lines_length(key)
}

// Writes a field to the front of `out`, where it fits; room for just the field is enough (W6).
#[tactic(auto, using(crate::proofs::Fitting::fitting))]
fn fit_field(name: &[u8], address: &[u8], mutual: bool, key: &[u8], out: &mut [u8]) -> Option<usize>
    requires { (length name.now ≤ 256) × (length address.now ≤ 256) }
    ensures value { result ≡ written_of (field_text name.now address.now «mutual» key.now) (length out.old) }
    ensures out_after { out.new ≡ onto_if_fits
        (field_text name.now address.now «mutual» key.now) out.old }
{
    let n = field_length(name, address, mutual, key);
    if out.len() < n {
        return None;
    }
    put_field(name, address, mutual, key, out);
    Some(n)
}

// Writes the field of an address, which it puts into canonical form (W5), to the front of `out`, where it fits (W6).
#[tactic(auto, using(crate::proofs::Fitting::forming), unfolding(crate::specs::Writing::written))]
pub fn write_field(
    name: &[u8],
    address: &[u8],
    mutual: bool,
    key: &[u8],
    out: &mut [u8],
) -> Option<usize>
    requires { (length name.now ≤ 256) × (plain address.now ≡ true) }
    ensures value { result ≡ written_of (written name.now address.now «mutual» key.now) (length out.old) }
    ensures out_after { out.new ≡ onto_if_fits
        (written name.now address.now «mutual» key.now) out.old }
{
    let mut form = [0u8; 256];
    let n = address::canonical(address, &mut form)?;
    fit_field(name, &form[..n], mutual, key, out)
}
