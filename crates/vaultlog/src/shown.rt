// Values and faults as a person reads them.
ghost use Rattle.std.specs.Prelude.{◌≡◌, MatchOption};
ghost use Rattle.calendar.specs.DateTimes.{instant_of};
ghost use Rattle.truncation.specs.Truncations.{Fits};
ghost use Rattle.truncation.specs.Units.{nanos};

use calendar::{Date, DateTime, Weekday};
use std::fmt;
use truncation::TimeUnit;

// An instant of UTC to the unit, as 2024-02-29T12:34:56Z.
#[derive(Clone, Copy)]
pub(crate) struct ShownInstant {
    at: DateTime,
    unit: TimeUnit,
}

// A value of a unit.
#[derive(Clone, Copy)]
pub(crate) struct Timestamp {
    pub unit: TimeUnit,
    pub value: i64,
}

impl Timestamp {
    // Its instant, where it scales to nanoseconds.
    pub(crate) fn instant(self) -> Option<ShownInstant>
        ensures { MatchOption result (Fits (nanos self.unit self.value) → ⊥) (λ s. (s.unit ≡ self.unit) × (instant_of s.at ≡ nanos self.unit self.value)) }
    {
        let unit = self.unit;
        let nanos = unit.scaled(self.value).ok()?;
        let at = DateTime::from_timestamp_nanos(nanos);
        Some(ShownInstant { at, unit })
    }
}

// The columns of a value: its number, and its instant if it has one.
impl fmt::Display for Timestamp {
    fn fmt<W: fmt::Write>(&self, f: &mut fmt::Formatter<W>) -> fmt::Result {
        let value = self.value;
        let width = instant_width(self.unit);
        write!(f, "{value:>20}  ")?;
        match self.instant() {
            Some(instant) => write!(f, "{instant}"),
            None => write!(f, "{:width$}", ""),
        }
    }
}

impl ShownInstant {
    pub(crate) fn weekday(self) -> Weekday {
        self.at.date.weekday()
    }
}

pub(crate) fn unit_name(unit: TimeUnit) -> &'static str {
    match unit {
        TimeUnit::Second => "seconds",
        TimeUnit::Millisecond => "milliseconds",
        TimeUnit::Microsecond => "microseconds",
        TimeUnit::Nanosecond => "nanoseconds",
    }
}

// The characters of an instant of the unit.
pub(crate) fn instant_width(unit: TimeUnit) -> usize {
    match unit {
        TimeUnit::Second => 20,
        TimeUnit::Millisecond => 24,
        TimeUnit::Microsecond => 27,
        TimeUnit::Nanosecond => 30,
    }
}

fn write_date<W: fmt::Write>(f: &mut fmt::Formatter<W>, date: Date) -> fmt::Result {
    let year = date.year;
    let month = date.month;
    let day = date.day;
    write!(f, "{year:04}-{month:02}-{day:02}")
}

fn write_time<W: fmt::Write>(f: &mut fmt::Formatter<W>, second: u64) -> fmt::Result {
    let hour = second / 3_600;
    let minute = second / 60 % 60;
    let second = second % 60;
    write!(f, "{hour:02}:{minute:02}:{second:02}")
}

fn write_fraction<W: fmt::Write>(
    f: &mut fmt::Formatter<W>,
    unit: TimeUnit,
    nanos: u64,
) -> fmt::Result {
    match unit {
        TimeUnit::Second => Ok(()),
        TimeUnit::Millisecond => write!(f, ".{:03}", nanos / 1_000_000),
        TimeUnit::Microsecond => write!(f, ".{:06}", nanos / 1_000),
        TimeUnit::Nanosecond => write!(f, ".{nanos:09}"),
    }
}

impl fmt::Display for ShownInstant {
    fn fmt<W: fmt::Write>(&self, f: &mut fmt::Formatter<W>) -> fmt::Result {
        write_date(f, self.at.date)?;
        f.write_str("T")?;
        write_time(f, self.at.nanos / 1_000_000_000)?;
        write_fraction(f, self.unit, self.at.nanos % 1_000_000_000)?;
        f.write_str("Z")
    }
}
