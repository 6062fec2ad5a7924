// A row of the log: a number in the unit, an instant of UTC, or nothing.
ghost use Rattle.std.specs.Prelude.{Decides};
ghost use Rattle.std.specs.Str.Parse.{IsNumeral};
ghost use Rattle.vaultlog.specs.Outcomes.{Skipped};
ghost use Rattle.vaultlog.specs.Rows.{IsNumber, ReadAs};

use crate::instant::read_instant;
use calendar::Fault;
use thiserror::Error;
use truncation::TimeUnit;

// Why a line is no row.
#[derive(Clone, Copy, PartialEq, Eq, Debug, Error)]
pub(crate) enum NotRead {
    #[error("the line is not UTF-8 text")]
    NoText,
    #[error("neither a number nor an instant")]
    NoRow,
    #[error("the number is beyond 64 bits")]
    NumberTooBig,
    #[error("no such date: {0}")]
    NoSuchDate(Fault),
    #[error("no such time of day")]
    NoSuchTime,
    #[error("the instant is no whole number of the unit")]
    FinerThanUnit,
    #[error("the unit cannot hold the instant in 64 bits")]
    OutsideUnit,
}

// Whether a line holds no row: a blank line, or a comment.
pub(crate) fn is_skipped(line: &[u8]) -> bool
    ensures { Decides result (Skipped line.now) }
{
    matches!(line, [] | [b'#', ..])
}

fn all_digits(digits: &[u8]) -> bool
    ensures { Decides result (IsNumeral 10 digits.now) }
{
    !digits.is_empty() && digits.iter().all(u8::is_ascii_digit)
}

// Whether a text has the form of a number: digits, after a sign or none.
fn is_number(text: &[u8]) -> bool
    ensures { Decides result (IsNumber text.now) }
{
    match text {
        [b'-' | b'+', digits @ ..] | digits => all_digits(digits),
    }
}

// The value of a row, or nothing for an empty row.
pub(crate) fn read_row(unit: TimeUnit, text: &str) -> Result<Option<i64>, NotRead>
    ensures { ReadAs unit text.now result }
{
    if text == "-" {
        return Ok(None);
    }
    let value = if is_number(text.as_bytes()) {
        text.parse().map_err(|_| NotRead::NumberTooBig)?
    } else {
        read_instant(unit, text.as_bytes())?
    };
    Ok(Some(value))
}
