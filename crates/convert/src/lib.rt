// The conversion of a table that was kept while only ASCII capitals were made small (T16 to T18): each address gets its
// canonical form, and entries that then have one address become one, in the lowest of their slots.
#![tactic(auto)]

ghost use Rattle.std.specs.Prelude.{◌≡◌, true, Some};
ghost use Rattle.refusals.specs.Rows.{answer_of};
ghost use Rattle.slots.specs.Slot.{marked};
ghost use Rattle.slots.specs.declared.Spelling.TheVariants.{Ascii};
ghost use Rattle.table.specs.Table.{slot_at, has_address, lowest};
ghost use Rattle.table.specs.Tagged.{OpenBy};
ghost use Rattle.convert.specs.Converting.{converted, refused_converting, left_by_converting};
ghost use Rattle.convert.specs.Steps.{brought_at, brought, Brings, Settles, Absorbs};

use refusals::Refusal;
use slots::{Slot, Spelling};

// Merges slot i into the lower slot j, and frees it (T17). Its octets are copied first, so that the one slot can be read
// while the other is written.
#[tactic(auto, using(crate::proofs::Bringing::absorbing))]
fn absorb(table: &mut [u8], j: usize, i: usize)
    requires { Absorbs table.old j i }
    ensures { table.new ≡ brought_at table.old i (Some j) }
{
    let mut other = [0u8; Slot::LEN];
    other.copy_from_slice(table::slot_at(table, i));
    table::clear(table, i);
    let at = j * Slot::LEN;
    merge::merge(&mut table[at..at + Slot::LEN], &other);
}

// Brings the used slot i to its form: into the lower slot that has the form already, or in its own place (T17).
#[tactic(auto, using(crate::proofs::Bringing::settling))]
fn settle(table: &mut [u8], tags: &[u32; Slot::MOST], i: usize, form: &[u8])
    requires { Settles table.old tags.now i form.now }
    ensures { table.new ≡ brought_at table.old i (lowest (has_address form.now) table.old 0 i) }
{
    match lookup::lowest_with(table, tags, form, tags::tag_of(form), i) {
        Some(j) => absorb(table, j, i),
        None => table::set_address(table, i, form),
    }
}

// Brings slot i to its form, which is made in a buffer; it is used, and the slots below it are in their form.
#[tactic(auto, using(crate::proofs::Bringing::bringing_used))]
fn bring_used(table: &mut [u8], tags: &[u32; Slot::MOST], i: usize)
    requires { Brings table.old tags.now i × (marked (slot_at table.old i) ≡ true) }
    ensures { table.new ≡ brought table.old i }
{
    let mut form = [0u8; Slot::ADDRESS_ROOM];
    match address::canonical(table::address(table, i), &mut form) {
        Some(n) => settle(table, tags, i, &form[..n]),
        None => {}
    }
}

// Brings slot i to its form, where it is used.
#[tactic(auto, using(crate::proofs::Bringing::bringing))]
fn bring(table: &mut [u8], tags: &[u32; Slot::MOST], i: usize)
    requires { Brings table.old tags.now i }
    ensures { table.new ≡ brought table.old i }
{
    if table::is_used(table, i) {
        bring_used(table, tags, i);
    }
}

// Converts a table that is sound by the old rule, slot by slot. The tags of the slots that are in their form are there for
// the slots above.
#[tactic(auto, using(crate::proofs::Looping::going))]
fn convert_slots(table: &mut [u8], tags: &mut [u32; Slot::MOST])
    requires { OpenBy Ascii table.old tags.old }
    ensures { table.new ≡ converted table.old }
{
    for i in 0..table::count(table) {
        bring(table, tags, i);
        tags[i] = lookup::tag_at(table, i);
    }
}

// Refusals by the old rule, and the conversion.
#[tactic(auto, using(crate::proofs::Outcomes::converting_old))]
fn convert_old(table: &mut [u8]) -> Result<(), Refusal>
    ensures value { result ≡ answer_of (refused_converting table.old) }
    ensures table_after { table.new ≡ left_by_converting table.old }
{
    let mut tags = [0u32; Slot::MOST];
    match inspect::open_by(table, &mut tags, Spelling::Ascii) {
        Ok(()) => {
            convert_slots(table, &mut tags);
            Ok(())
        }
        Err(refusal) => Err(refusal),
    }
}

// Brings a table to the canonical form of addresses that is in force (T16). It takes a table that was sound while only
// ASCII capitals were made small, which every sound table was, too. The refusals, in the order of testing: 1 for its length
// (R1), and 2 for a slot that is neither free nor was sound then, with the lowest index of such a one (R2); the table then
// stays as it was (R32). Else each used slot gets the canonical form of its address. Of those with one form the lowest
// slot holds the merged entry, and the others become free (T17): last seen and the two halves are the latest that there
// are, those of the lowest slot where they are equal (T18). No other slot changes. A sound table stays as it is (T19), and
// costs no more than its check.
#[tactic(auto, using(crate::proofs::Outcomes::converting))]
pub fn convert(table: &mut [u8]) -> Result<(), Refusal>
    ensures value { result ≡ answer_of (refused_converting table.old) }
    ensures table_after { table.new ≡ left_by_converting table.old }
{
    match inspect::check(table) {
        Ok(()) => Ok(()),
        Err(_) => convert_old(table),
    }
}
