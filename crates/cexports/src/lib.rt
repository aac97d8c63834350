// The functions of include/vienghulac.h under their C names: each passes its arguments to the function of the crate cabi that
// has its name, and promises what that one promises. A slice is a pointer and a length in C. What no call can check is the
// caller's to see to (C18).
#![tactic(auto)]

ghost use Rattle.std.specs.Prelude.{◌≡◌, length, false};
ghost use Rattle.refusals.specs.Rows.{first_of, answer_of};
ghost use Rattle.inspect.specs.Inspecting.{table_rows, refused_showing, left_by_showing};
ghost use Rattle.convert.specs.Converting.{refused_converting, left_by_converting};
ghost use Rattle.cabi.specs.Numbers.{in_numbers, setting_of, advice_in_numbers, quick_in_numbers, part_in_numbers, written_in_numbers, linted_in_numbers};
ghost use Rattle.process.specs.Processing.{refused_processing, left_by_processing};
ghost use Rattle.recommend.specs.Recommending.{recommended_of, quick_of, target_part_of};
ghost use Rattle.names.specs.Names.{autocrypt as autocrypt_name, gossip as gossip_name};
ghost use Rattle.write.specs.Writing.{written_of, left_by_writing};
ghost use Rattle.display.specs.Displaying.{displayed_of, left_by_displaying};
ghost use Rattle.lint.specs.Linting.{linted_of, left_by_linting};

use cabi::numbers::{Advice, Answer, Linted, Part, Quick, Written};
use cabi::{linting, messages, recommending, tables, writing};

#[unsafe(no_mangle)]
pub extern "C" fn vienghulac_check(table: &[u8]) -> Answer
    ensures { result ≡ in_numbers (answer_of (first_of (table_rows table.now))) }
{
    tables::vienghulac_check(table)
}

#[unsafe(no_mangle)]
pub extern "C" fn vienghulac_convert(table: &mut [u8]) -> Answer
    ensures value { result ≡ in_numbers (answer_of (refused_converting table.old)) }
    ensures table_after { table.new ≡ left_by_converting table.old }
{
    tables::vienghulac_convert(table)
}

#[unsafe(no_mangle)]
pub extern "C" fn vienghulac_entry(table: &[u8], slot: u64, numbers: &mut [u64]) -> Answer
    ensures value { result ≡ in_numbers (answer_of (refused_showing table.now (length numbers.old))) }
    ensures numbers_after { numbers.new ≡ left_by_showing table.now slot numbers.old }
{
    tables::vienghulac_entry(table, slot, numbers)
}

#[unsafe(no_mangle)]
pub extern "C" fn vienghulac_process(
    table: &mut [u8],
    receipt: u64,
    outer: &[u8],
    payload: &[u8],
    gossip: u8,
) -> Answer
    ensures value { result
        ≡ in_numbers (answer_of (refused_processing table.old receipt outer.now payload.now (setting_of gossip))) }
    ensures table_after { table.new ≡ left_by_processing table.old receipt outer.now payload.now (setting_of gossip) }
{
    messages::vienghulac_process(table, receipt, outer, payload, gossip)
}

#[unsafe(no_mangle)]
pub extern "C" fn vienghulac_recommend(
    table: &[u8],
    recipients: &[u8],
    mutual: bool,
    reply: bool,
) -> Advice
    ensures { result ≡ advice_in_numbers (recommended_of table.now recipients.now «mutual» reply) }
{
    recommending::vienghulac_recommend(table, recipients, mutual, reply)
}

#[unsafe(no_mangle)]
pub extern "C" fn vienghulac_recommend_quick(
    table: &[u8],
    recipients: &[u8],
    mutual: bool,
    reply: bool,
) -> Quick
    ensures { result ≡ quick_in_numbers (quick_of table.now recipients.now «mutual» reply) }
{
    recommending::vienghulac_recommend_quick(table, recipients, mutual, reply)
}

#[unsafe(no_mangle)]
pub extern "C" fn vienghulac_target_key(
    table: &[u8],
    recipients: &[u8],
    mutual: bool,
    reply: bool,
    place: u64,
) -> Part
    ensures { result ≡ part_in_numbers (target_part_of table.now recipients.now place) }
{
    recommending::vienghulac_target_key(table, recipients, mutual, reply, place)
}

#[unsafe(no_mangle)]
pub extern "C" fn vienghulac_write_autocrypt(
    address: &[u8],
    key: &[u8],
    mutual: bool,
    out: &mut [u8],
) -> Written
    ensures value { result ≡ written_in_numbers (written_of autocrypt_name address.now «mutual» key.now (length out.old)) }
    ensures out_after { out.new ≡ left_by_writing autocrypt_name address.now «mutual» key.now out.old }
{
    writing::vienghulac_write_autocrypt(address, key, mutual, out)
}

#[unsafe(no_mangle)]
pub extern "C" fn vienghulac_write_gossip(address: &[u8], key: &[u8], out: &mut [u8]) -> Written
    ensures value { result ≡ written_in_numbers (written_of gossip_name address.now false key.now (length out.old)) }
    ensures out_after { out.new ≡ left_by_writing gossip_name address.now false key.now out.old }
{
    writing::vienghulac_write_gossip(address, key, out)
}

#[unsafe(no_mangle)]
pub extern "C" fn vienghulac_display(address: &[u8], out: &mut [u8]) -> Written
    ensures value { result ≡ written_in_numbers (displayed_of address.now (length out.old)) }
    ensures out_after { out.new ≡ left_by_displaying address.now out.old }
{
    writing::vienghulac_display(address, out)
}

#[unsafe(no_mangle)]
pub extern "C" fn vienghulac_lint(outer: &[u8], payload: &[u8], faults: &mut [u32]) -> Linted
    ensures value { result ≡ linted_in_numbers (linted_of outer.now payload.now (length faults.old)) }
    ensures faults_after { faults.new ≡ left_by_linting outer.now payload.now faults.old }
{
    linting::vienghulac_lint(outer, payload, faults)
}
