// The calendar: leap years, the lengths of the months (SCOPE, D8), and how many days a day lies after 1 January 1900. The
// count stands behind one function, `day_count`, and its meaning behind one definition, `day_count`. The definition walks
// over years and months; the code counts cycles of 400 years, and has no table.
#![tactic(auto)]

ghost use Rattle.std.specs.Prelude.{◌+◌, ◌-◌, ◌≤◌, ◌≡◌, cond, leb};
ghost use Rattle.calendar.specs.Calendar.{leap as leap_of, leap_day, month_length, year_days, day_count};

// The days of 400 years: so many, wherever they begin.
const CYCLE: u64 = 146_097;

// The days from 1 March of the year 0 to 1 January 1900.
const TO_1900: u64 = 693_901;

// Every fourth year is a leap year, of the full hundreds only every fourth one (D8).
#[tactic(auto, unfolding(crate::specs::Calendar::leap))]
fn leap(year: u64) -> bool
    ensures { result ≡ leap_of year }
{
    if year % 100 == 0 {
        return year % 400 == 0;
    }
    year % 4 == 0
}

#[tactic(auto, unfolding(crate::specs::Calendar::leap_day))]
fn leap_day(year: u64) -> u64
    ensures { (result ≡ leap_day year) × (result ≤ 1) }
{
    u64::from(leap(year))
}

// How many days the month has, January being 1. But for February, long months and short ones take turns, from August on
// the other way round.
#[tactic(auto, using(crate::proofs::Counting::calendar))]
pub fn month_length(year: u64, month: u64) -> u64
    requires { (1 ≤ month) × (month ≤ 12) }
    ensures { (result ≡ month_length year month) × (result ≤ 31) }
{
    if month == 2 {
        return 28 + leap_day(year);
    }
    30 + (month + month / 8) % 2
}

// The year in which the month lies, where years begin in March: then a leap day is the last day of its year.
#[tactic(auto, using(std::proofs::lemmas::Bool::Decides::nat_tests))]
fn march_year(year: u64, month: u64) -> u64
    requires { 1 ≤ year }
    ensures { result ≡ cond (leb month 2) (year - 1) year }
{
    if month <= 2 { year - 1 } else { year }
}

// The days from 1 March of the year 0 to 1 March of the year; the next January begins 306 days later.
#[tactic(auto, using(crate::proofs::Closed::years_closed))]
fn days_before_year(year: u64) -> u64
    requires { (1899 ≤ year) × (year ≤ 9999) }
    ensures { result + 306 ≡ 693901 + year_days (year - 1899) }
{
    let rest = year % 400;
    CYCLE * (year / 400) + 365 * rest + rest / 4 - rest / 100
}

// The days from 1 March to the month's first day, which no leap day changes: five months from March or from August on
// have 153 days. The year 1900 tells them, with 59 days before 1 March; the January and February behind it are 1901's.
#[tactic(auto, using(crate::proofs::Closed::months_closed))]
fn days_before_month(month: u64) -> u64
    requires { (1 ≤ month) × (month ≤ 12) }
    ensures { 59 + result ≡ day_count (cond (leb month 2) 1901 1900) month 1 }
{
    let months = (month + 9) % 12;
    (153 * months + 2) / 5
}

// How many days the day lies after 1 January 1900.
pub fn day_count(year: u64, month: u64, day: u64) -> u64
    requires le_year { (1900 ≤ year) × (year ≤ 9999) }
    requires le_month { (1 ≤ month) × (month ≤ 12) }
    requires le_day { (1 ≤ day) × (day ≤ 31) }
    ensures { result ≡ day_count year month day }
{
    days_before_year(march_year(year, month)) + days_before_month(month) + (day - 1) - TO_1900
}
