// Dates and day numbers, by Howard Hinnant's algorithms over years that begin in March.
ghost use Rattle.std.specs.Prelude.{◌≡◌, ◌+◌, ◌<◌, ◌≤◌, pos, MatchResult};
ghost use Rattle.arith.specs.Gregorian.{IsDate, InSpan, InYears};
ghost use Rattle.arith.specs.Laws.{OnlyDate, Numbered};
ghost use Rattle.arith.specs.March.{march, since_march};
ghost use Rattle.calendar.specs.DateTimes.{number_of};
ghost use Rattle.calendar.specs.Faults.{outside_calendar};

use crate::date::Date;
use crate::day::Day;
use crate::fault::Fault;

// The days from 0000-03-01 to 1970-01-01.
const MARCH_TO_EPOCH: i64 = 719_468;

// An era is 400 years.
const YEARS_IN_ERA: u32 = 400;

const DAYS_IN_ERA: u32 = 146_097;

// The days from 0000-03-01 to 1 March of the year.
fn march_start(year: u32) -> u32
    requires { year ≤ 9999 }
    ensures { result ≡ march year }
{
    let era = year / YEARS_IN_ERA;
    let year_of_era = year % YEARS_IN_ERA;
    era * DAYS_IN_ERA + (year_of_era * 365 + year_of_era / 4 - year_of_era / 100)
}

// The year beginning in March that holds a day counted from 0000-03-01.
fn march_year(day: u32) -> u32
    requires { day ≤ 3652364 }
    ensures { (result ≤ 9999) × ((march result ≤ day) × (day < march (result + 1))) }
{
    let era = day / DAYS_IN_ERA;
    let day_of_era = day % DAYS_IN_ERA;
    let year_of_era = (day_of_era - day_of_era / 1_460 + day_of_era / 36_524 - day_of_era / 146_096)
        / 365;
    era * YEARS_IN_ERA + year_of_era
}

// The date of a day counted from 0000-03-01.
fn march_date(day: u32) -> Date
    requires { (306 ≤ day) × (day ≤ 3652364) }
    ensures { since_march result.year result.month result.day ≡ day }
{
    let year = march_year(day);
    let day_of_year = day - march_start(year);
    let month = (5 * day_of_year + 2) / 153;
    let day_of_month = (day_of_year - (153 * month + 2) / 5 + 1) as u8;
    if month < 10 {
        Date {
            year: year as u16,
            month: (month + 3) as u8,
            day: day_of_month,
        }
    } else {
        Date {
            year: (year + 1) as u16,
            month: (month - 9) as u8,
            day: day_of_month,
        }
    }
}

impl Day {
    pub(crate) fn date(self) -> Date
        ensures { OnlyDate self.number (pos result.year) result.month result.day }
    {
        march_date((self.number + MARCH_TO_EPOCH) as u32)
    }
}

// The date that has the number `days`.
pub fn civil_from_days(days: i64) -> Result<Date, Fault>
    ensures { MatchResult result (λ t. InSpan days × OnlyDate days (pos t.year) t.month t.day) (λ f. (InSpan days → ⊥) × (f ≡ outside_calendar)) }
{
    let day = Day::new(days)?;
    Ok(day.date())
}

// The number of the date, by the year beginning in March that holds it.
fn march_number(date: Date) -> i64
    ensures { result ≡ number_of date }
{
    let (year, month) = if date.month < 3 {
        (date.year as u32 - 1, date.month as u32 + 9)
    } else {
        (date.year as u32, date.month as u32 - 3)
    };
    let day_of_year = (153 * month + 2) / 5 + date.day as u32 - 1;
    (march_start(year) + day_of_year) as i64 - MARCH_TO_EPOCH
}

impl Date {
    pub(crate) fn day(self) -> Day
        ensures number { result.number ≡ number_of self }
        ensures laws { Numbered (pos self.year) self.month self.day result.number }
    {
        Day {
            number: march_number(self),
        }
    }
}

// The number of the day of the month of the year, or a refusal where the years 1 to 9999 have no such date.
pub fn days_from_civil(year: i32, month: u32, day: u32) -> Result<i64, Fault>
    ensures { MatchResult result (λ n. InYears year × InSpan n × Numbered year month day n) (λ f. (InYears year × IsDate year month day → ⊥) × (f ≡ outside_calendar)) }
{
    let date = Date::new(year, month, day)?;
    Ok(date.day().number)
}
