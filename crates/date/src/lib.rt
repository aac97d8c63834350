// The Date of a message, in seconds since 1970, where a field's value reads as one (SCOPE, D3): day name and comma, day,
// month, year, hour, minute, second and zone; and the effective date (D2).
#![tactic(auto)]

ghost use Rattle.std.specs.Prelude.{◌≤◌, ◌≡◌, drop};
ghost use Rattle.date.specs.Date.{next as next_of, optional as optional_of, existing as existing_of, calendar_day, time_of_day, local_time, zoned as zoned_of, ended as ended_of, date_of, effective_date, got};
ghost use Rattle.date.specs.Answers.{read_in};

use datewords::meaning::Place;
use datewords::token::WordAt;
use datewords::{meaning, token};

// The seconds from 1900 to 1970, where times begin (T6).
const EPOCH: u64 = 2_208_988_800;

// A number that was read, and the place behind it.
#[derive(Clone, Copy)]
struct PartRead {
    value: u64,
    to: usize,
}

// The token that is to stand at a place of a date, from the place `at` of the text on.
#[tactic(auto, using(crate::proofs::Reading::nexts))]
fn next(s: &[u8], at: usize, what: Place) -> Option<PartRead>
    ensures { read_in s.now result ≡ next_of what (drop at s.now) }
{
    match token::token(s, at) {
        WordAt::Between { from, to } => {
            let value = meaning::meant(what, &s[from..to])?;
            Some(PartRead { value, to })
        }
        WordAt::End | WordAt::Unreadable => None,
    }
}

// A part of two tokens that may both be missing (D3), and count as 0 then (D10).
#[tactic(auto, using(crate::proofs::Reading::optionals))]
fn optional(s: &[u8], at: usize, opening: Place, closing: Place) -> Option<PartRead>
    ensures { read_in s.now result ≡ optional_of opening closing (drop at s.now) }
{
    match next(s, at, opening) {
        Some(first) => next(s, first.to, closing),
        None => Some(PartRead { value: 0, to: at }),
    }
}

// The days from 1900 to the day, which must exist in its month (D8).
#[tactic(auto, using(crate::proofs::Parts::existence))]
fn existing(year: u64, month: u64, day: u64) -> Option<u64>
    requires le_year { (1900 ≤ year) × (year ≤ 9999) }
    requires le_month { (1 ≤ month) × (month ≤ 12) }
    ensures { result ≡ existing_of year month day }
{
    if day < 1 {
        return None;
    }
    if calendar::month_length(year, month) < day {
        return None;
    }
    Some(calendar::day_count(year, month, day))
}

// Day, month and year (D3): the days since 1900.
#[tactic(auto, using(crate::proofs::Parts::parts), unfolding(crate::specs::Date::calendar_day))]
fn calendar_day(s: &[u8], at: usize) -> Option<PartRead>
    ensures { read_in s.now result ≡ calendar_day (drop at s.now) }
{
    let day = next(s, at, Place::Day)?;
    let month = next(s, day.to, Place::Month)?;
    let year = next(s, month.to, Place::Year)?;
    let value = existing(year.value, month.value, day.value)?;
    Some(PartRead { value, ..year })
}

// Hour, colon, minute, and a colon with the second, which may be missing (D3): the seconds since midnight, 86,400
// of them where the last second of a day is 60 (D10).
#[tactic(auto, using(crate::proofs::Parts::parts), unfolding(crate::specs::Date::time_of_day))]
fn time_of_day(s: &[u8], at: usize) -> Option<PartRead>
    ensures { read_in s.now result ≡ time_of_day (drop at s.now) }
{
    let hours = next(s, at, Place::UpTo(23))?;
    let colon = next(s, hours.to, Place::Colon)?;
    let minutes = next(s, colon.to, Place::UpTo(59))?;
    let seconds = optional(s, minutes.to, Place::Colon, Place::UpTo(60))?;
    Some(PartRead {
        value: 3600 * hours.value + 60 * minutes.value + seconds.value,
        ..seconds
    })
}

// Day and time of day: the seconds since 1900, as the zone's own clock has them. No day that can be written (D9)
// lies 3,000,000 days after 1900.
#[tactic(auto, using(crate::proofs::Parts::parts), unfolding(crate::specs::Date::local_time))]
fn local_time(s: &[u8], at: usize) -> Option<PartRead>
    ensures { read_in s.now result ≡ local_time (drop at s.now) }
{
    let days = calendar_day(s, at)?;
    let seconds = time_of_day(s, days.to)?;
    Some(PartRead {
        value: 86_400 * days.value + seconds.value,
        ..seconds
    })
}

// The zone: the seconds since 1900 in UTC, which are the local ones less an east offset, or with a west one added on (D13).
#[tactic(auto, using(crate::proofs::Parts::zoning))]
fn zoned(s: &[u8], at: usize, local: u64) -> Option<PartRead>
    requires { local ≤ 300_000_000_000 }
    ensures { read_in s.now result ≡ zoned_of local (drop at s.now) }
{
    if let Some(east) = next(s, at, Place::East) {
        return Some(PartRead {
            value: local.saturating_sub(east.value),
            ..east
        });
    }
    let west = next(s, at, Place::West)?;
    Some(PartRead {
        value: local + west.value,
        ..west
    })
}

// Nothing may stand behind the zone (D3). What lies before 1970 counts as 0 (D13).
#[tactic(auto, using(crate::proofs::Parts::endings))]
fn ended(s: &[u8], at: usize, value: u64) -> Option<u64>
    ensures { result ≡ ended_of (got value (drop at s.now)) }
{
    match token::token(s, at) {
        WordAt::End => Some(value.saturating_sub(EPOCH)),
        WordAt::Between { .. } | WordAt::Unreadable => None,
    }
}

// The Date that the value of a Date field stands for.
#[tactic(auto, using(crate::proofs::Parts::dating), unfolding(crate::specs::Date::date_of))]
pub fn date(value: &[u8]) -> Option<u64>
    ensures { result ≡ date_of value.now }
{
    let Some(day_name) = optional(value, 0, Place::DayName, Place::Comma) else {
        return None;
    };
    let Some(local) = local_time(value, day_name.to) else {
        return None;
    };
    let Some(instant) = zoned(value, local.to, local.value) else {
        return None;
    };
    ended(value, instant.to, instant.value)
}

// The receipt time, or a Date that is smaller (D2).
#[tactic(auto, using(crate::proofs::Effective::effects))]
pub fn effective_date(date: Option<u64>, receipt: u64) -> u64
    ensures { result ≡ effective_date date receipt }
{
    match date {
        Some(n) => n.min(receipt),
        None => receipt,
    }
}
