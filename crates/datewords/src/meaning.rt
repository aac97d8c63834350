// What a token means at each place of a date: numbers of few digits, names of three letters, marks and zones (SCOPE, D7 to
// D12).
ghost use Rattle.std.specs.Prelude.{◌≤◌, ◌≡◌};
ghost use Rattle.datewords.specs.Words.{digit_of, number_of, place_in, mark_of, day_of, month_of, year_by, year_of, two_digits, offset_by, offset_of, hours_west, opens_with, east_by, west_by, meant as meant_of};

use crate::token;
use crate::token::Opening;
use runs::Class;

// The hours that the zones lie west (D12), in the order of their names below.
const ZONE_HOURS: [u64; 8] = [5, 4, 6, 5, 7, 6, 8, 7];

// The places of a date. `UpTo` is a place of two digits, which stand for so much at most.
#[derive(Clone, Copy)]
pub enum Place {
    DayName,
    Comma,
    Day,
    Month,
    Year,
    UpTo(u64),
    Colon,
    East,
    West,
}

// The number that one digit stands for.
#[tactic(auto, using(crate::proofs::Digits::one_digit))]
fn digit(x: u8) -> Option<u64>
    ensures { result ≡ digit_of x }
{
    if runs::within(Class::Digit, x) {
        return Some(u64::from(x - b'0'));
    }
    None
}

// The number that a run of digits stands for. No place of a date takes more than four (D8 to D11).
#[tactic(auto, using(crate::proofs::Digits::valuing))]
fn number(run: &[u8]) -> Option<u64>
    ensures { result ≡ number_of run.now }
{
    if 4 < run.len() {
        return None;
    }
    let mut n: u64 = 0;
    for &x in run {
        let d = digit(x)?;
        n = 10 * n + d;
    }
    Some(n)
}

// Which of the names it is, each of three letters and in any case, the first one being 0.
fn which(run: &[u8], names: &[u8]) -> Option<u64>
    ensures { result ≡ place_in run.now names.now }
{
    let (names, _) = names.as_chunks::<3>();
    let k = names.iter().position(|name| octets::same_name(run, name))?;
    Some(k as u64)
}

// A comma or a colon, which stands for nothing.
#[tactic(auto, using(crate::proofs::Meant::marks))]
fn mark(run: &[u8], text: &[u8]) -> Option<u64>
    ensures { result ≡ mark_of run.now text.now }
{
    if octets::same(run, text) {
        return Some(0);
    }
    None
}

// The day, of one digit or two (D8).
#[tactic(auto, using(crate::proofs::Meant::days))]
fn day(run: &[u8]) -> Option<u64>
    ensures { result ≡ day_of run.now }
{
    if 2 < run.len() {
        return None;
    }
    number(run)
}

// The month, January being 1 (D8).
#[tactic(auto, using(crate::proofs::Meant::months))]
fn month(run: &[u8]) -> Option<u64>
    ensures { result ≡ month_of run.now }
{
    let k = which(run, b"JanFebMarAprMayJunJulAugSepOctNovDec")?;
    Some(k + 1)
}

// The year that so many digits stand for (D9).
#[tactic(auto, using(crate::proofs::Meant::years))]
fn year_by(width: usize, n: u64) -> Option<u64>
    requires { n ≤ 9999 }
    ensures { result ≡ year_by width n }
{
    match width {
        2 if n <= 49 => Some(n + 2000),
        2 | 3 => Some(n + 1900),
        4 if 1900 <= n => Some(n),
        _ => None,
    }
}

// The year, of two, three or four digits (D9).
#[tactic(auto, using(crate::proofs::Meant::years))]
fn year(run: &[u8]) -> Option<u64>
    ensures { result ≡ year_of run.now }
{
    let n = number(run)?;
    year_by(run.len(), n)
}

// Two digits that stand for `most` at most (D10).
#[tactic(auto, using(crate::proofs::Meant::twos))]
fn two_digits(run: &[u8], most: u64) -> Option<u64>
    ensures { result ≡ two_digits most run.now }
{
    if run.len() != 2 {
        return None;
    }
    let n = number(run)?;
    if most < n {
        return None;
    }
    Some(n)
}

// The seconds that the four digits of a zone stand for (D11).
#[tactic(auto, using(crate::proofs::Meant::offsets))]
fn offset_by(n: u64) -> Option<u64>
    requires { n ≤ 9999 }
    ensures { result ≡ offset_by n }
{
    let minutes = n % 100;
    if 59 < minutes {
        return None;
    }
    Some(3600 * (n / 100) + 60 * minutes)
}

// The digits behind the sign of a zone: exactly four (D11).
#[tactic(auto, using(crate::proofs::Meant::offsets))]
fn offset(run: &[u8]) -> Option<u64>
    ensures { result ≡ offset_of run.now }
{
    if run.len() != 4 {
        return None;
    }
    let n = number(run)?;
    offset_by(n)
}

// The hours that a zone of letters lies west; 0 where it is none that has a name here (D12).
#[tactic(auto, using(crate::proofs::Meant::hours))]
fn hours_west(run: &[u8]) -> u64
    ensures { (result ≡ hours_west run.now) × (result ≤ 8) }
{
    match which(run, b"ESTEDTCSTCDTMSTMDTPSTPDT") {
        Some(k) => ZONE_HOURS[k as usize],
        None => 0,
    }
}

// The seconds that a zone lies east.
#[tactic(auto, using(crate::proofs::Meant::zones), unfolding(crate::specs::Words::east_by))]
fn east(run: &[u8]) -> Option<u64>
    ensures { result ≡ east_by (opens_with run.now) run.now }
{
    if run.is_empty() {
        return None;
    }
    match token::opened_by(run[0]) {
        Opening::Plus => offset(&run[1..]),
        Opening::Number | Opening::Word | Opening::Minus | Opening::Mark => None,
    }
}

// The seconds that a zone lies west.
#[tactic(auto, using(crate::proofs::Meant::zones), unfolding(crate::specs::Words::west_by))]
fn west(run: &[u8]) -> Option<u64>
    ensures { result ≡ west_by (opens_with run.now) run.now }
{
    if run.is_empty() {
        return None;
    }
    match token::opened_by(run[0]) {
        Opening::Minus => offset(&run[1..]),
        Opening::Word => Some(3600 * hours_west(run)),
        Opening::Number | Opening::Plus | Opening::Mark => None,
    }
}

// What the token means at a place of a date.
#[tactic(auto, using(crate::proofs::Meant::meanings), unfolding(crate::specs::Words::meant))]
pub fn meant(at: Place, run: &[u8]) -> Option<u64>
    ensures { result ≡ meant_of at run.now }
{
    match at {
        Place::DayName => which(run, b"MonTueWedThuFriSatSun"),
        Place::Comma => mark(run, b","),
        Place::Day => day(run),
        Place::Month => month(run),
        Place::Year => year(run),
        Place::UpTo(most) => two_digits(run, most),
        Place::Colon => mark(run, b":"),
        Place::East => east(run),
        Place::West => west(run),
    }
}
