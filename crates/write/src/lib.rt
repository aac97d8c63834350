// The two writers: an Autocrypt field and an Autocrypt-Gossip field, written to the front of lent memory (W1 to W6).
#![tactic(auto)]

ghost use Rattle.std.specs.Prelude.{◌≤◌, ◌≡◌, false, length};
ghost use Rattle.names.specs.Names.{autocrypt as autocrypt_name, gossip as gossip_name};
ghost use Rattle.write.specs.Writing.{written_of, left_by_writing};

use refusals::Refusal;
use slots::Slot;

// Both writers: they differ in the field's name and in who may state a preference (W3).
#[tactic(auto, using(crate::proofs::Writing::writing), unfolding(crate::specs::Writing::writing_rows, crate::specs::Writing::refused_writing, crate::specs::Writing::written_of, crate::specs::Writing::left_by_writing))]
fn write(
    name: &[u8],
    address: &[u8],
    mutual: bool,
    key: &[u8],
    out: &mut [u8],
) -> Result<usize, Refusal>
    requires { length name.now ≤ 256 }
    ensures value { result ≡ written_of name.now address.now «mutual» key.now (length out.old) }
    ensures out_after { out.new ≡ left_by_writing name.now address.now «mutual» key.now out.old }
{
    if !address::is_plain(address) {
        return Err(Refusal::OwnAddress);
    }
    if key.is_empty() || Slot::KEY_LIMIT < key.len() {
        return Err(Refusal::KeyLength);
    }
    match writer::write_field(name, address, mutual, key, out) {
        Some(n) => Ok(n),
        None => Err(Refusal::OutputLength),
    }
}

// Writes an Autocrypt field to the front of `out`, and answers its length (W1, W2). `address` is the sender's own and
// `key` the octets of the key. `mutual` says whether the preference is mutual; without it that attribute is left out (W3).
// The address is written in canonical form (W5), the key as Base64, a space before each of its lines and CRLF behind it
// (W4). What `out` holds behind the field stays as it was (W6). The refusals, in the order of testing: 9 where `address`
// is not a plain address and nothing else (R9), 11 where `key` has no octet or more than 2,048 (R11), 12 where `out` is
// shorter than the field (R12). Then `out` stays as it was (R32). An `out` of 3,200 octets is always long enough (W6).
pub fn write_autocrypt(
    address: &[u8],
    key: &[u8],
    mutual: bool,
    out: &mut [u8],
) -> Result<usize, Refusal>
    ensures value { result ≡ written_of autocrypt_name address.now «mutual» key.now (length out.old) }
    ensures out_after { out.new ≡ left_by_writing autocrypt_name address.now «mutual» key.now out.old }
{
    write(b"Autocrypt", address, mutual, key, out)
}

// Writes an Autocrypt-Gossip field to the front of `out`, and answers its length (W1, W2): for the header block of an
// encrypted payload, about one of the mail's recipients. `address` is the recipient's and `key` the octets of the
// recipient's key. There is no preference to state (W3). All else is as in `write_autocrypt`: how the field is written,
// the refusals 9, 11 and 12 in this order, and what `out` holds afterwards.
pub fn write_gossip(address: &[u8], key: &[u8], out: &mut [u8]) -> Result<usize, Refusal>
    ensures value { result ≡ written_of gossip_name address.now false key.now (length out.old) }
    ensures out_after { out.new ≡ left_by_writing gossip_name address.now false key.now out.old }
{
    write(b"Autocrypt-Gossip", address, false, key, out)
}
