// Base64 as key data has it (SCOPE, F9): a text is decoded with its blanks left out, or it is only asked whether it is Base64.
// What is right is said by `decode` of letters/specs/Base64.antt. Octets are written as the lines of a field by the crate
// `keylines`.
#![tactic(auto)]

ghost use Rattle.std.specs.Prelude.{◌+◌, ◌^◌, ◌<◌, ◌≤◌, ◌≡◌, length};
ghost use Rattle.octets.specs.Octets.{without_blanks};
ghost use Rattle.octets.specs.Options.{is_some};
ghost use Rattle.octets.specs.Written.{put_at};
ghost use Rattle.letters.specs.Base64.{decode as octets_of};
ghost use Rattle.letters.specs.Tables.{Signs};
ghost use Rattle.keydata.specs.Answers.{decoded_of, Decodes};
ghost use Rattle.keydata.specs.Steps.{Run, Wrote, up_to};

use groups::Next;
use runs::Class;

// How far a text has been read, and the place behind its octets.
#[derive(Clone, Copy)]
struct BothReached {
    read: usize,
    wrote: usize,
}

// Writes octets from the place `at` on, if they have room there.
fn put(out: &mut [u8], at: usize, octets: &[u8])
    requires { at + length octets.now < 2 ^ 64 }
    ensures { at + length octets.now ≤ length out.old → out.new ≡ put_at out.old at octets.now }
{
    if at + octets.len() <= out.len() {
        octets::put(out, at, octets);
    }
}

// Writes the octets of the groups from the place `at` on, behind blanks, to the places from `to` on, as long as each
// group is four letters side by side. What has no room is only counted, and no further than to the first place above
// `most`. That is a loop of its own: with its tests in the first, that one takes half as long again.
#[tactic(auto, using(crate::proofs::Filling::grouping))]
fn write_groups(
    table: &[u8; 256],
    src: &[u8],
    at: usize,
    out: &mut [u8],
    to: usize,
    most: usize,
) -> BothReached
    requires { Signs table.now × (at ≤ length src.now) × (to ≤ at) }
    ensures { Run src.now at out.old to out.new result.read result.wrote }
{
    let mut i = runs::run_end(src, at, Class::Blank);
    let mut o = to;
    'writing: while o + 3 <= out.len() {
        let Some(three) = groups::whole_group(table, src, i) else {
            return BothReached { read: i, wrote: o };
        };
        octets::put(&mut *out, o, &three);
        i += 4;
        o += 3;
    }
    'counting: while o <= most {
        let Some(_) = groups::whole_group(table, src, i) else {
            return BothReached { read: i, wrote: o };
        };
        i += 4;
        o += 3;
    }
    BothReached { read: i, wrote: o }
}

// Writes the octets in which a text ends from the place `at` on, if they have room there, and answers the place behind
// them, if that is not above `most`.
#[tactic(auto, unfolding(crate::specs::Steps::up_to))]
fn write_last(out: &mut [u8], at: usize, octets: &[u8], most: usize) -> Option<usize>
    requires { at + length octets.now < 2 ^ 64 }
    ensures place { result ≡ up_to most (at + length octets.now) }
    ensures out_after { at + length octets.now ≤ length out.old → out.new ≡ put_at out.old at octets.now }
{
    put(out, at, octets);
    let end = at + octets.len();
    if end <= most { Some(end) } else { None }
}

// Writes the octets of the text to the beginning of `out` while reading it, and answers how many there are, if these are no
// more than `most`: as soon as there are more, no more is read. What has no room is left out and counted all the same: so
// who only asks whether the text is Base64 lends no room.
#[tactic(auto, using(crate::proofs::Filling::filling))]
fn write(table: &[u8; 256], src: &[u8], out: &mut [u8], most: usize) -> Option<usize>
    requires { Signs table.now }
    ensures { Wrote (octets_of (without_blanks src.now)) out.old out.new most result }
{
    let mut i = 0;
    let mut o = 0;
    'reading: while o <= most {
        let from = i;
        let reached = write_groups(table, src, from, &mut *out, o, most);
        i = reached.read;
        o = reached.wrote;
        if from < i {
            continue;
        }
        match groups::next_group(table, src, i) {
            Next::Three(x, y, z, behind) => {
                put(&mut *out, o, &[x, y, z]);
                i = behind;
                o += 3;
            }
            Next::Two(x, y) => return write_last(out, o, &[x, y], most),
            Next::One(x) => return write_last(out, o, &[x], most),
            Next::End => return write_last(out, o, &[], most),
            Next::Broken => return None,
        }
    }
    None
}

// Decodes key data, with spaces and tabs anywhere, into the beginning of `out`. The text is read once and written as it is
// read: after a refusal, what `out` holds means nothing.
pub fn decode(src: &[u8], out: &mut [u8]) -> Option<usize>
    ensures value { result ≡ decoded_of (octets_of (without_blanks src.now)) (length out.old) }
    ensures decodes { Decodes (octets_of (without_blanks src.now)) out.old out.new result }
{
    let room = out.len();
    write(&letters::signs(), src, out, room)
}

// Is the text Base64, with spaces and tabs anywhere, of whatever length?
pub fn is_base64(src: &[u8]) -> bool
    ensures { result ≡ is_some (octets_of (without_blanks src.now)) }
{
    write(&letters::signs(), src, &mut [], usize::MAX).is_some()
}
