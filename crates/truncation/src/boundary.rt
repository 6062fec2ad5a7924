// The boundary of a reading: the greatest that is not after it.
ghost use Rattle.std.specs.Prelude.{◌≡◌, pos, ◌*ℤ◌, MatchResult};
ghost use Rattle.arith.specs.Greatest.{GreatestNotAfter};
ghost use Rattle.calendar.specs.Spans.{FirstDayOf};
ghost use Rattle.truncation.specs.Boundaries.{Boundary, MidnightOf};
ghost use Rattle.truncation.specs.Moments.{nanos_of, InReach};

use crate::granularity::Granularity;
use crate::moment::Moment;
use crate::reading::Reading;
use calendar::{Fault, Period, period_start};

// The first moment of a day.
fn midnight(day: i64) -> Moment
    requires { InReach day }
    ensures { nanos_of result ≡ pos 86400000000000 *ℤ day }
{
    Moment {
        second: day * 86_400,
        nanos: 0,
    }
}

// The first moment of the period that holds a reading.
fn first_of_period(period: Period, reading: Reading) -> Result<Moment, Fault>
    ensures { MatchResult result (λ m. GreatestNotAfter (MidnightOf (FirstDayOf period)) (nanos_of reading.at) (nanos_of m)) (λ f. ⊥) }
{
    let day = period_start(period, reading.at.day())?;
    Ok(midnight(day))
}

// The boundary of a reading.
pub(crate) fn date_trunc_coarse(granularity: Granularity, reading: Reading) -> Result<Moment, Fault>
    ensures { MatchResult result (λ m. GreatestNotAfter (Boundary granularity) (nanos_of reading.at) (nanos_of m)) (λ f. ⊥) }
{
    match granularity {
        Granularity::Microsecond => Ok(reading.at.cut_nanos(1_000)),
        Granularity::Millisecond => Ok(reading.at.cut_nanos(1_000_000)),
        Granularity::Second => Ok(reading.cut_seconds(1)),
        Granularity::Minute => Ok(reading.cut_seconds(60)),
        Granularity::Hour => Ok(reading.cut_seconds(3_600)),
        Granularity::Day => Ok(reading.cut_seconds(86_400)),
        Granularity::Week => first_of_period(Period::Week, reading),
        Granularity::Month => first_of_period(Period::Month, reading),
        Granularity::Quarter => first_of_period(Period::Quarter, reading),
        Granularity::Year => first_of_period(Period::Year, reading),
    }
}
