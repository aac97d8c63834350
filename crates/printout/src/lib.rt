// The listing program's text, written into a lent buffer (W7 to W10). What it is stands in specs/Printout.antt.
#![tactic(auto)]

ghost use Rattle.std.specs.Prelude.{◌<◌, ◌≤◌, ◌≡◌, length};
ghost use Rattle.octets.specs.Written.{onto};
ghost use Rattle.table.specs.Table.{slots as slots_of, slot_at, checked};
ghost use Rattle.table.specs.declared.Checked.TheVariants.{Sound};
ghost use Rattle.columns.specs.Putting.{Room, Put};
ghost use Rattle.printout.specs.Printout.{slot_text, lines_from, printed};
ghost use Rattle.printout.specs.Parts.{direct_part, gossip_part, numbers_part};

use heads::Head;
use slots::Slot;
use table::Checked;

// W7: the most slots that are listed.
const MOST: usize = 14;

// W7: how many octets they have; longer input is refused.
const LONGEST: usize = MOST * Slot::LEN;

// Room that a line never exceeds: an address, five numbers of at most 20 digits, a preference, and an octet behind each of
// the seven columns.
const LINE: usize = Slot::ADDRESS_ROOM + 5 * 20 + 6 + 7;

// Room for all that is printed.
pub const ROOM: usize = MOST * LINE;

// Writes what a line says of the direct half.
fn put_direct(out: &mut [u8], at: usize, n: Head) -> usize
    requires { Room out.old at (direct_part n) }
    ensures { Put out.old out.new at (direct_part n) result }
{
    let timed = columns::put_time(out, at, n.direct_time());
    let measured = columns::put_number(out, timed, n.direct_length as u64, b' ');
    columns::put_preference(out, measured, n.mutual)
}

// Writes what a line says of the gossip half, and ends the line.
fn put_gossip(out: &mut [u8], at: usize, n: Head) -> usize
    requires { Room out.old at (gossip_part n) }
    ensures { Put out.old out.new at (gossip_part n) result }
{
    let timed = columns::put_time(out, at, n.gossip_time());
    columns::put_number(out, timed, n.gossip_length as u64, b'\n')
}

// Writes what a line says behind the address: last seen and the two halves (W8).
fn put_numbers(out: &mut [u8], at: usize, n: Head) -> usize
    requires { Room out.old at (numbers_part n) }
    ensures { Put out.old out.new at (numbers_part n) result }
{
    let seen = columns::put_time(out, at, n.seen_time());
    let direct = put_direct(out, seen, n);
    put_gossip(out, direct, n)
}

// Writes the line of a slot, if it is used (W8).
fn put_slot(t: &[u8], i: usize, out: &mut [u8], at: usize) -> usize
    requires { (checked t.now ≡ Sound) × (i < slots_of t.now) × Room out.old at (slot_text (slot_at t.now i)) }
    ensures { Put out.old out.new at (slot_text (slot_at t.now i)) result }
{
    if !table::is_used(t, i) {
        return at;
    }
    let addressed = columns::put_text(out, at, table::address(t, i), b' ');
    put_numbers(out, addressed, table::numbers(t, i))
}

// Writes the lines of a table to the front of `out`.
fn put_lines(t: &[u8], out: &mut [u8]) -> usize
    requires { (checked t.now ≡ Sound) × Room out.old 0 (lines_from t.now 0 (slots_of t.now)) }
    ensures { Put out.old out.new 0 (lines_from t.now 0 (slots_of t.now)) result }
{
    let mut o = 0;
    for i in 0..table::count(t) {
        o = put_slot(t, i, out, o);
    }
    o
}

// Writes what the listing program prints for its input to the front of `out`, and answers how long it is.
#[tactic(auto, using(crate::proofs::Printing::printing))]
pub fn print(input: &[u8], out: &mut [u8; ROOM]) -> usize
    ensures value { (result ≡ length (printed input.now)) × (result ≤ length out.new) }
    ensures out_after { out.new ≡ onto (printed input.now) out.old }
{
    if LONGEST < input.len() {
        return columns::put_text(out, 0, b"refused 1", b'\n');
    }
    let mut tags = [0u32; Slot::MOST];
    match lookup::check(input, &mut tags, slots::Spelling::Canonical) {
        Checked::Sound => put_lines(input, out),
        Checked::Length => columns::put_text(out, 0, b"refused 1", b'\n'),
        Checked::Slot(_) => columns::put_text(out, 0, b"refused 2", b'\n'),
    }
}
