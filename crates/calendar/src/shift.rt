// A date-time some months later or earlier.
ghost use Rattle.std.specs.Prelude.{◌≡◌, ◌<◌, ◌≤◌, pos, MatchResult};
ghost use Rattle.arith.specs.Shift.{IndexInYears};
ghost use Rattle.calendar.specs.Moves.{Moved, DateMoved, index_after};
ghost use Rattle.calendar.specs.Faults.{outside_calendar};

use crate::date::Date;
use crate::date_time::DateTime;
use crate::day::OUTSIDE_CALENDAR;
use crate::fault::Fault;
use crate::make::length_of_month;
use std::ops::Range;

// The months of the years 1 to 9999, counted from January of the year 0.
const MONTHS: Range<i64> = 12..120_000;

// The month `months` after the date's, counted from January of the year 0; a refusal where the year leaves 1 to 9999.
fn shifted_month(date: Date, months: i64) -> Result<u32, Fault>
    ensures { MatchResult result (λ i. (index_after date months ≡ pos i) × (12 ≤ i) × (i < 120000)) (λ f. (IndexInYears (index_after date months) → ⊥) × (f ≡ outside_calendar)) }
{
    let from = date.year as i64 * 12 + (date.month as i64 - 1);
    let index = from.checked_add(months).ok_or(OUTSIDE_CALENDAR)?;
    if !MONTHS.contains(&index) {
        return Err(OUTSIDE_CALENDAR);
    }
    Ok(index as u32)
}

// The date moved by `months`, its day lowered to the month's last where needed.
fn shifted_date(date: Date, months: i64) -> Result<Date, Fault>
    ensures { MatchResult result (λ t. DateMoved date months t) (λ f. (IndexInYears (index_after date months) → ⊥) × (f ≡ outside_calendar)) }
{
    let index = shifted_month(date, months)?;
    let year = (index / 12) as u16;
    let month = (index % 12 + 1) as u8;
    let day = date.day.min(length_of_month(year, month));
    Ok(Date { year, month, day })
}

// The date-time moved by `months`: its time of day stays, its day is lowered to the month's last where needed; a refusal where the year leaves 1 to 9999.
pub fn shift_months(at: DateTime, months: i64) -> Result<DateTime, Fault>
    ensures { MatchResult result (λ t. Moved at months t) (λ f. (IndexInYears (index_after at.date months) → ⊥) × (f ≡ outside_calendar)) }
{
    let date = shifted_date(at.date, months)?;
    Ok(DateTime {
        date,
        nanos: at.nanos,
    })
}
