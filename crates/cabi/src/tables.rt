// A table looked at (T13, T14), and converted (T16).
ghost use Rattle.std.specs.Prelude.{◌≡◌, length};
ghost use Rattle.refusals.specs.Rows.{first_of, answer_of};
ghost use Rattle.inspect.specs.Inspecting.{table_rows, refused_showing, left_by_showing};
ghost use Rattle.convert.specs.Converting.{refused_converting, left_by_converting};
ghost use Rattle.cabi.specs.Numbers.{in_numbers};

use crate::numbers::Answer;

// `check` of the library: is this a table that the other calls take (T13)? Answers 0, or the number of the refusal, 1 or
// 2, and with 2 the index of the lowest slot that is neither free nor sound (R2).
pub fn vienghulac_check(table: &[u8]) -> Answer
    ensures { result ≡ in_numbers (answer_of (first_of (table_rows table.now))) }
{
    autocrypt::check(table).into()
}

// `convert` of the library: brings a table of an older version to the canonical form of addresses that is in force (T16).
// Answers 0, or the number of the refusal, 1 or 2, the second by the old rule and with the index of the lowest slot that is
// neither free nor was sound. With a refusal the table stays as it was (R32).
pub fn vienghulac_convert(table: &mut [u8]) -> Answer
    ensures value { result ≡ in_numbers (answer_of (refused_converting table.old)) }
    ensures table_after { table.new ≡ left_by_converting table.old }
{
    autocrypt::convert(table).into()
}

// `entry` of the library: what a slot of the table holds, the first being at 0, in eleven numbers at the front of
// `numbers` (T14). Answers 0, or the number of the refusal, 1, 2 or 12 in the order of testing. For a free slot and for
// one past the last all eleven are 0; with a refusal the numbers stay as they were (R32).
pub fn vienghulac_entry(table: &[u8], slot: u64, numbers: &mut [u64]) -> Answer
    ensures value { result ≡ in_numbers (answer_of (refused_showing table.now (length numbers.old))) }
    ensures numbers_after { numbers.new ≡ left_by_showing table.now slot numbers.old }
{
    autocrypt::entry(table, slot as usize, numbers).into()
}
