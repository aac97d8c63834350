// The two fields written (W1), and an address as it is shown (W11).
ghost use Rattle.std.specs.Prelude.{◌≡◌, false, length};
ghost use Rattle.names.specs.Names.{autocrypt as autocrypt_name, gossip as gossip_name};
ghost use Rattle.write.specs.Writing.{written_of, left_by_writing};
ghost use Rattle.display.specs.Displaying.{displayed_of, left_by_displaying};
ghost use Rattle.cabi.specs.Numbers.{written_in_numbers};

use crate::numbers::Written;

// `write_autocrypt` of the library: writes the Autocrypt field for the sender's address and key to the front of `out`,
// with the preference where `mutual` says so (W2, W3). Answers 0 and the length of the field, or the number of the
// refusal, 9, 11 or 12 in the order of testing, and the length 0 (R34). What `out` holds behind the field stays as it was,
// and so does all of it with a refusal (W6, R32). An `out` of 3,200 octets is always long enough.
pub fn vienghulac_write_autocrypt(
    address: &[u8],
    key: &[u8],
    mutual: bool,
    out: &mut [u8],
) -> Written
    ensures value { result ≡ written_in_numbers (written_of autocrypt_name address.now «mutual» key.now (length out.old)) }
    ensures out_after { out.new ≡ left_by_writing autocrypt_name address.now «mutual» key.now out.old }
{
    autocrypt::write_autocrypt(address, key, mutual, out).into()
}

// `write_gossip` of the library: writes the Autocrypt-Gossip field for a recipient's address and key to the front of
// `out`; it has no preference (W3). Answers, and leaves `out`, as `vienghulac_write_autocrypt` does.
pub fn vienghulac_write_gossip(address: &[u8], key: &[u8], out: &mut [u8]) -> Written
    ensures value { result ≡ written_in_numbers (written_of gossip_name address.now false key.now (length out.old)) }
    ensures out_after { out.new ≡ left_by_writing gossip_name address.now false key.now out.old }
{
    autocrypt::write_gossip(address, key, out).into()
}

// `display` of the library: writes an address as it is shown to the front of `out` (W11, W12). Answers 0 and its length, or the
// number of the refusal, 9 or 12 in the order of testing, and the length 0 (R34). What `out` holds behind it stays as it was,
// and so does all of it with a refusal (R32). An `out` of 1,024 octets is always long enough.
pub fn vienghulac_display(address: &[u8], out: &mut [u8]) -> Written
    ensures value { result ≡ written_in_numbers (displayed_of address.now (length out.old)) }
    ensures out_after { out.new ≡ left_by_displaying address.now out.old }
{
    autocrypt::display(address, out).into()
}
