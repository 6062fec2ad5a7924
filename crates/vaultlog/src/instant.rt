// Instants of UTC as ISO 8601 writes them: 2024-02-29, 2024-02-29T12:34Z, 2024-02-29T12:34:56Z and 2024-02-29T12:34:56.789Z.
ghost use Rattle.std.specs.Prelude.{◌≡◌, ℕ, ◌-◌, ◌≤◌, length, MatchOption};
ghost use Rattle.std.specs.List.{AllByRecursion};
ghost use Rattle.std.specs.Result as Results;
ghost use Rattle.calendar.specs.DateTimes.{instant_of};
ghost use Rattle.truncation.specs.Units.{nanos};
ghost use Rattle.vaultlog.specs.Instants.{IsTime, since_midnight, Holds, NoDateTime, NotInUnit};
ghost use Rattle.vaultlog.specs.Digits.{IsDigit, first_of};
ghost use Rattle.vaultlog.specs.Rows.{AtInstant, NoInstant};
ghost use Rattle.vaultlog.specs.Spelling.{Fraction, Seconds, Clock, AfterDate, Spelled};

use crate::row::NotRead;
use calendar::{Date, DateTime};
use truncation::TimeUnit;

// A date and a time of day as they are written, whether they exist or not.
#[derive(Clone, Copy, PartialEq, Eq, Debug)]
pub(crate) struct Parts {
    pub year: i32,
    pub month: u32,
    pub day: u32,
    pub time: TimeParts,
}

#[derive(Clone, Copy, PartialEq, Eq, Debug)]
pub(crate) struct TimeParts {
    pub hour: u32,
    pub minute: u32,
    pub second: u32,
    pub nanos: u32,
}

const MIDNIGHT: TimeParts = TimeParts {
    hour: 0,
    minute: 0,
    second: 0,
    nanos: 0,
};

fn digit(byte: u8) -> Option<u32>
    ensures { MatchOption result (IsDigit byte → ⊥) (λ n. IsDigit byte × (n ≡ byte - 48)) }
{
    char::from(byte).to_digit(10)
}

// The number that up to nine digits write.
fn number(digits: &[u8]) -> Option<u32>
    requires { length digits.now ≤ 9 }
    ensures { MatchOption result (AllByRecursion IsDigit digits.now → ⊥) (λ n. AllByRecursion IsDigit digits.now × (n ≡ first_of digits.now (length digits.now))) }
{
    let mut number = 0;
    for byte in digits {
        number = number * 10 + digit(*byte)?;
    }
    Some(number)
}

// The nanoseconds of one to nine digits after the point.
fn read_fraction(digits: &[u8]) -> Option<u32>
    ensures { MatchOption result ((n : ℕ) → Fraction digits.now n → ⊥) (λ n. Fraction digits.now n) }
{
    if digits.is_empty() || digits.len() > 9 {
        return None;
    }
    Some(number(digits)? * 10u32.pow(9 - digits.len() as u32))
}

// The seconds of a time of day and their fraction, or nothing where the minutes end it.
fn read_seconds(text: &[u8]) -> Option<(u32, u32)>
    ensures { MatchOption result ((s n : ℕ) → Seconds text.now s n → ⊥) (λ p. Seconds text.now p.0 p.1) }
{
    match text {
        [] => Some((0, 0)),
        [b':', a, b] => Some((number(&[*a, *b])?, 0)),
        [b':', a, b, b'.', fraction @ ..] => {
            Some((number(&[*a, *b])?, read_fraction(fraction)?))
        }
        _ => None,
    }
}

// A time of day: hours and minutes, and seconds if they are there.
fn read_time(text: &[u8]) -> Option<TimeParts>
    ensures { MatchOption result ((t : TimeParts) → Clock text.now t → ⊥) (λ t. Clock text.now t) }
{
    match text {
        [a, b, b':', c, d, rest @ ..] => {
            let hour = number(&[*a, *b])?;
            let minute = number(&[*c, *d])?;
            let (second, nanos) = read_seconds(rest)?;
            Some(TimeParts {
                hour,
                minute,
                second,
                nanos,
            })
        }
        _ => None,
    }
}

// What stands after a date: nothing, which is midnight, or T, a time of day and Z.
fn read_after_date(text: &[u8]) -> Option<TimeParts>
    ensures { MatchOption result ((t : TimeParts) → AfterDate text.now t → ⊥) (λ t. AfterDate text.now t) }
{
    match text {
        [] => Some(MIDNIGHT),
        [b'T', time @ .., b'Z'] => read_time(time),
        _ => None,
    }
}

fn read_parts(text: &[u8]) -> Option<Parts>
    ensures { MatchOption result ((p : Parts) → Spelled text.now p → ⊥) (λ p. Spelled text.now p) }
{
    match text {
        [a, b, c, d, b'-', m, n, b'-', x, y, rest @ ..] => {
            let year = number(&[*a, *b, *c, *d])? as i32;
            let month = number(&[*m, *n])?;
            let day = number(&[*x, *y])?;
            let time = read_after_date(rest)?;
            Some(Parts {
                year,
                month,
                day,
                time,
            })
        }
        _ => None,
    }
}

// The nanoseconds since midnight, where there is such a time of day.
fn time_of_day(time: TimeParts) -> Option<u64>
    ensures { MatchOption result (IsTime time → ⊥) (λ n. IsTime time × (n ≡ since_midnight time)) }
{
    if time.hour > 23 || time.minute > 59 || time.second > 59 || time.nanos > 999_999_999 {
        return None;
    }
    let second = time.hour * 3_600 + time.minute * 60 + time.second;
    Some(second as u64 * 1_000_000_000 + time.nanos as u64)
}

// The date-time of the parts, where there are such a date and such a time of day.
fn date_time(parts: Parts) -> Result<DateTime, NotRead>
    ensures { Results.MatchResult result (λ t. Holds parts t) (λ e. NoDateTime parts e) }
{
    let date = Date::new(parts.year, parts.month, parts.day).map_err(NotRead::NoSuchDate)?;
    let nanos = time_of_day(parts.time).ok_or(NotRead::NoSuchTime)?;
    Ok(DateTime { date, nanos })
}

// The date-time as a whole number of units.
fn in_unit(at: DateTime, unit: TimeUnit) -> Result<i64, NotRead>
    ensures { Results.MatchResult result (λ v. nanos unit v ≡ instant_of at) (λ e. NotInUnit unit (instant_of at) e) }
{
    let instant = at.timestamp_nanos();
    let scale = i128::from(unit.scale());
    if instant.rem_euclid(scale) != 0 {
        return Err(NotRead::FinerThanUnit);
    }
    i64::try_from(instant.div_euclid(scale)).map_err(|_| NotRead::OutsideUnit)
}

// The instant that a text writes, as a whole number of units.
pub(crate) fn read_instant(unit: TimeUnit, text: &[u8]) -> Result<i64, NotRead>
    ensures { Results.MatchResult result (λ v. AtInstant unit text.now v) (λ e. NoInstant unit text.now e) }
{
    let parts = read_parts(text).ok_or(NotRead::NoRow)?;
    in_unit(date_time(parts)?, unit)
}
