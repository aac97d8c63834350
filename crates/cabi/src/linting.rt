// An outgoing mail looked over (O1).
ghost use Rattle.std.specs.Prelude.{◌≡◌, length};
ghost use Rattle.lint.specs.Linting.{linted_of, left_by_linting};
ghost use Rattle.cabi.specs.Numbers.{linted_in_numbers};

use crate::numbers;
use crate::numbers::Linted;

// `lint` of the library: lists what is wrong with the Autocrypt and Autocrypt-Gossip fields of an outgoing mail, three numbers of
// `faults` for each: the block, the place and the kind (O2, O3). `outer` is the mail's header block, `payload` that of the
// root part inside it, of length 0 where there is none. Answers 0 and how many faults there are, or the number of the
// refusal, 4, 5, 7 or 12 in the order of testing, and the count 0. What `faults` holds behind them stays as it was, and so
// does all of it with a refusal (R32). A list of 98,304 numbers is always long enough (O11).
#[tactic(auto, using(lint::proofs::Outcomes::linted_few))]
pub fn vienghulac_lint(outer: &[u8], payload: &[u8], faults: &mut [u32]) -> Linted
    ensures value { result ≡ linted_in_numbers (linted_of outer.now payload.now (length faults.old)) }
    ensures faults_after { faults.new ≡ left_by_linting outer.now payload.now faults.old }
{
    numbers::linted_in_numbers(autocrypt::lint(outer, payload, faults))
}
