// A date from its parts.
ghost use Rattle.std.specs.Prelude.{◌≡◌, ◌≤◌, pos, MatchResult};
ghost use Rattle.arith.specs.Gregorian.{IsDate, InYears, leap, month_length};
ghost use Rattle.calendar.specs.Faults.{outside_calendar};

use crate::date::Date;
use crate::day::OUTSIDE_CALENDAR;
use crate::fault::Fault;

// Whether the year has a 29 February.
fn is_leap(year: u16) -> bool
    ensures { result ≡ leap (pos year) }
{
    if year % 100 == 0 {
        year % 400 == 0
    } else {
        year % 4 == 0
    }
}

// The months' lengths in a common year, January first.
const MONTH_LENGTHS: [u8; 12] = [31, 28, 31, 30, 31, 30, 31, 31, 30, 31, 30, 31];

pub(crate) fn length_of_month(year: u16, month: u8) -> u8
    requires { (1 ≤ month) × (month ≤ 12) }
    ensures { result ≡ month_length (leap (pos year)) month }
{
    match month {
        2 if is_leap(year) => 29,
        _ => MONTH_LENGTHS[usize::from(month - 1)],
    }
}

// The days of the month of the year, or a refusal where the years 1 to 9999 have no such month.
pub fn month_length(year: i32, month: u32) -> Result<u8, Fault>
    ensures { MatchResult result (λ n. (InYears year × (1 ≤ month) × (month ≤ 12)) × (n ≡ month_length (leap year) month)) (λ f. (InYears year × (1 ≤ month) × (month ≤ 12) → ⊥) × (f ≡ outside_calendar)) }
{
    if !(1..=9999).contains(&year) || !(1..=12).contains(&month) {
        return Err(OUTSIDE_CALENDAR);
    }
    Ok(length_of_month(year as u16, month as u8))
}

impl Date {
    // The date of these parts, or a refusal where the years 1 to 9999 have none.
    pub fn new(year: i32, month: u32, day: u32) -> Result<Date, Fault>
        ensures { MatchResult result (λ t. (pos t.year ≡ year) × (t.month ≡ month) × (t.day ≡ day)) (λ f. (InYears year × IsDate year month day → ⊥) × (f ≡ outside_calendar)) }
    {
        let length = month_length(year, month)?;
        if !(1..=u32::from(length)).contains(&day) {
            return Err(OUTSIDE_CALENDAR);
        }
        Ok(Date {
            year: year as u16,
            month: month as u8,
            day: day as u8,
        })
    }
}
