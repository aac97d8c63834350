// The calls that only look at a table: its check, which every call on a table begins with (T13), and one entry by its slot
// (T14).
#![tactic(auto)]

ghost use Rattle.std.specs.Prelude.{◌≡◌, length};
ghost use Rattle.refusals.specs.Rows.{first_of, answer_of};
ghost use Rattle.table.specs.Table.{most_slots};
ghost use Rattle.inspect.specs.Inspecting.{table_rows, OpensBy, Opens, refused_showing, left_by_showing};

use refusals::Refusal;
use slots::{Slot, Spelling};

// Is this a table that the calls take? The tags of its slots come with the answer, for the calls that look for addresses.
pub fn open_table(table: &[u8], tags: &mut [u32; Slot::MOST]) -> Result<(), Refusal>
    requires { length tags.old ≡ most_slots }
    ensures { Opens table.now tags.new result }
{
    open_by(table, tags, Spelling::Canonical)
}

// The same, for addresses in the one spelling or the other (T16).
#[tactic(auto, using(crate::proofs::Tables::opening))]
pub fn open_by(table: &[u8], tags: &mut [u32; Slot::MOST], how: Spelling) -> Result<(), Refusal>
    requires { length tags.old ≡ most_slots }
    ensures { OpensBy how table.now tags.new result }
{
    match lookup::check(table, tags, how) {
        table::Checked::Sound => Ok(()),
        table::Checked::Length => Err(Refusal::TableLength),
        table::Checked::Slot(i) => Err(Refusal::BrokenSlot(i as u32)),
    }
}

// Is this a table that the other calls take (T13)? It is refused with 1 where its length is not that of 1 to 256 whole
// slots of 4,392 octets (R1), and with 2 where some slot is neither free nor sound (R2). The refusal then carries the
// lowest index of such a slot, which `index` gives. A table of zeros is sound, and has no entry.
pub fn check(table: &[u8]) -> Result<(), Refusal>
    ensures { result ≡ answer_of (first_of (table_rows table.now)) }
{
    let mut tags = [0u32; Slot::MOST];
    open_table(table, &mut tags)
}

// Tells what a slot of the table holds, in eleven numbers, which are written to the front of `numbers` (T14). Their
// places:
//     0         1 for a used slot, else 0
//     1         what the entry has, as a sum (T5): 1 last seen, 2 the direct half, 4 the gossip half, 8 mutual
//     2, 3, 4   last seen, the Autocrypt timestamp and the gossip timestamp, in seconds since 1970 (T6); 0 where absent
//     5, 6      where the address begins, counted from the table's first octet, and its length
//     7, 8      start and length of the direct key; 0 and 0 where there is none
//     9, 10     start and length of the gossip key; 0 and 0 where there is none
// All are 0 for a free slot and for one past the last, which is no refusal. The refusals, in the order of testing: 1 and 2
// for the table, as in `check`, and 12 where fewer than eleven numbers are lent (R12). With a refusal `numbers` stay as
// they were (R32); what stands behind the eleventh always does. The starts and lengths are parts of the table until the
// next call that writes it.
#[tactic(auto, using(crate::proofs::Showing::showing), unfolding(crate::specs::Inspecting::refused_showing, crate::specs::Inspecting::showing_rows, crate::specs::Inspecting::left_by_showing))]
pub fn entry(table: &[u8], slot: usize, numbers: &mut [u64]) -> Result<(), Refusal>
    ensures value { result ≡ answer_of (refused_showing table.now (length numbers.old)) }
    ensures numbers_after { numbers.new ≡ left_by_showing table.now slot numbers.old }
{
    match check(table) {
        Ok(()) => {
            if numbers.len() < entry::SHOWN {
                return Err(Refusal::OutputLength);
            }
            entry::tell(table, slot, numbers);
            Ok(())
        }
        Err(refusal) => Err(refusal),
    }
}
