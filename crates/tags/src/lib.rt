// A number of 32 bits for each address, its tag. Equal addresses have equal tags, others hardly ever: where many addresses
// are kept, their tags stand side by side and are compared first.
#![tactic(auto)]

ghost use Rattle.std.specs.Prelude.{◌≡◌, ◌≤◌, length};
ghost use Rattle.tags.specs.Tags.{with_octet, tag_of, in_first};

// The tag of nothing.
const START: u32 = 5381;

// The tag of some octets with one more behind them. A shift and a sum stand for the product with 33, and sums may wrap.
fn with_octet(tag: u32, octet: u8) -> u32
    ensures { result ≡ with_octet tag octet }
{
    tag.wrapping_add(tag << 5).wrapping_add(u32::from(octet))
}

// The tag of an address.
#[tactic(auto, using(crate::proofs::Tagging::tagging))]
pub fn tag_of(address: &[u8]) -> u32
    ensures { result ≡ tag_of address.now }
{
    let mut tag = START;
    for &octet in address {
        tag = with_octet(tag, octet);
    }
    tag
}

// Is the tag among the first `n`?
pub fn is_among(tags: &[u32], n: usize, tag: u32) -> bool
    requires { n ≤ length tags.now }
    ensures { result ≡ in_first tag tags.now n }
{
    octets::has(&tags[..n], tag)
}
