// A received mail, taken into the table (U1).
ghost use Rattle.std.specs.Prelude.{◌≡◌};
ghost use Rattle.refusals.specs.Rows.{answer_of};
ghost use Rattle.process.specs.Processing.{refused_processing, left_by_processing};
ghost use Rattle.cabi.specs.Numbers.{in_numbers, setting_of};

use crate::numbers::Answer;
use autocrypt::Gossip;

// G1: 1 is take, 2 is skip, and every other number is unset, which skips as 2 does.
#[tactic(auto, unfolding(crate::specs::Numbers::setting_of))]
fn setting_of(gossip: u8) -> Gossip
    ensures { result ≡ setting_of gossip }
{
    match gossip {
        1 => Gossip::Take,
        2 => Gossip::Skip,
        _ => Gossip::Unset,
    }
}

// `process` of the library: brings the table up to date with one received mail (U1). `receipt` is in seconds since 1970,
// `outer` is the mail's header block, `payload` that of the decrypted root part, of length 0 where there is none, and
// `gossip` is 1 to take gossip, 2 to skip it, any other number for unset, which skips it too (G1). Answers 0, or the number
// of the refusal, 1 to 8 in the order of testing (U2), and with 2 the slot's index (R33). With a refusal the table stays as
// it was (R32).
pub fn vienghulac_process(
    table: &mut [u8],
    receipt: u64,
    outer: &[u8],
    payload: &[u8],
    gossip: u8,
) -> Answer
    ensures value { result
        ≡ in_numbers (answer_of (refused_processing table.old receipt outer.now payload.now (setting_of gossip))) }
    ensures table_after { table.new ≡ left_by_processing table.old receipt outer.now payload.now (setting_of gossip) }
{
    autocrypt::process(table, receipt, outer, payload, setting_of(gossip)).into()
}
