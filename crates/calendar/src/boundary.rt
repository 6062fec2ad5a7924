// The first day of the week, month, quarter or year that holds a day.
ghost use Rattle.std.specs.Prelude.{◌≡◌, ◌<◌, MatchResult};
ghost use Rattle.arith.specs.Greatest.{GreatestNotAfter};
ghost use Rattle.arith.specs.Gregorian.{InSpan};
ghost use Rattle.arith.specs.Periods.{IsFirstDay};
ghost use Rattle.arith.specs.Weekdays.{IsMonday};
ghost use Rattle.calendar.specs.DateTimes.{number_of};
ghost use Rattle.calendar.specs.Faults.{outside_calendar};
ghost use Rattle.calendar.specs.Spans.{FirstDayOf};

use crate::date::Date;
use crate::day::Day;
use crate::fault::Fault;
use crate::period::Period;

impl Date {
    // The number of the first day of the period of so many months that holds the date.
    fn months_start(self, months: u8) -> i64
        requires { 0 < months }
        ensures { GreatestNotAfter (IsFirstDay months) (number_of self) result }
    {
        let first = Date {
            year: self.year,
            month: self.month - (self.month - 1) % months,
            day: 1,
        };
        first.day().number
    }
}

impl Day {
    // The Monday not after the day.
    fn monday(self) -> i64
        ensures { GreatestNotAfter IsMonday self.number result }
    {
        self.number - i64::from(self.days_since_monday())
    }

    // The first day of the period that holds the day.
    fn first_of(self, period: Period) -> i64
        ensures { GreatestNotAfter (FirstDayOf period) self.number result }
    {
        match period {
            Period::Week => self.monday(),
            Period::Month => self.date().months_start(1),
            Period::Quarter => self.date().months_start(3),
            Period::Year => self.date().months_start(12),
        }
    }
}

// The first day of the period that holds the day.
pub fn period_start(period: Period, days: i64) -> Result<i64, Fault>
    ensures { MatchResult result (λ s. InSpan days × GreatestNotAfter (FirstDayOf period) days s) (λ f. (InSpan days → ⊥) × (f ≡ outside_calendar)) }
{
    let day = Day::new(days)?;
    Ok(day.first_of(period))
}
