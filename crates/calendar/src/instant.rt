// Date-times by their instants: nanoseconds since 1970-01-01T00:00:00 in UTC.
ghost use Rattle.std.specs.Prelude.{◌≡◌, ◌<◌, pos};
ghost use Rattle.std.specs.Int.{int_div_euclid, int_rem_euclid};
ghost use Rattle.calendar.specs.DateTimes.{instant_of};

use crate::date_time::DateTime;
use crate::day::Day;

const NANOS_PER_DAY: i64 = 86_400_000_000_000;

// The day of an instant. Every day of 64 bits of nanoseconds is one of the calendar's.
fn day_of(instant: i64) -> Day
    ensures { result.number ≡ int_div_euclid instant (pos 86400000000000) }
{
    Day {
        number: instant.div_euclid(NANOS_PER_DAY),
    }
}

fn time_of(instant: i64) -> u64
    ensures value { pos result ≡ int_rem_euclid instant (pos 86400000000000) }
    ensures bound { result < 86400000000000 }
{
    instant.rem_euclid(NANOS_PER_DAY) as u64
}

impl DateTime {
    // The date-time of an instant.
    pub fn from_timestamp_nanos(instant: i64) -> DateTime
        ensures { instant_of result ≡ instant }
    {
        DateTime {
            date: day_of(instant).date(),
            nanos: time_of(instant),
        }
    }

    // The instant of a date-time.
    pub fn timestamp_nanos(self) -> i128
        ensures { result ≡ instant_of self }
    {
        i128::from(self.date.day().number) * 86_400_000_000_000 + i128::from(self.nanos)
    }
}
