// The call `display`: an address as it is shown, written to the front of lent memory (W11, W12).
#![tactic(auto)]

ghost use Rattle.std.specs.Prelude.{◌≡◌, length};
ghost use Rattle.display.specs.Displaying.{displayed_of, left_by_displaying};

use refusals::Refusal;

// Writes an address as it is shown to the front of `out`, and answers its length (W11): its canonical form, with labels in
// other scripts as they are read, where they can be typed back (W12). What `out` holds behind it stays as it was. The
// refusals, in the order of testing: 9 where `address` is not a plain address and nothing else (R9), 12 where `out` is
// shorter than the address shown (R12). Then `out` stays as it was (R32), and there is no length (R34). An `out` of 1,024
// octets is always long enough (W11).
#[tactic(auto, using(crate::proofs::Displaying::displaying), unfolding(crate::specs::Displaying::displaying_rows, crate::specs::Displaying::refused_displaying, crate::specs::Displaying::displayed_of, crate::specs::Displaying::left_by_displaying))]
pub fn display(address: &[u8], out: &mut [u8]) -> Result<usize, Refusal>
    ensures value { result ≡ displayed_of address.now (length out.old) }
    ensures out_after { out.new ≡ left_by_displaying address.now out.old }
{
    if !address::is_plain(address) {
        return Err(Refusal::OwnAddress);
    }
    match showing::show(address, out) {
        Some(n) => Ok(n),
        None => Err(Refusal::OutputLength),
    }
}
