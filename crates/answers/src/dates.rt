// Requests about dates and the numbers of their days.
ghost use Rattle.answers.specs.Dates.{DayOf};

use crate::answer::Answer;
use crate::refusal::Refusal;
use crate::words::Words;
use calendar::{Cause, Fault, Layer, civil_from_days, days_from_civil};

// civil <day>
pub(crate) fn civil(mut words: Words) -> Result<Answer, Refusal> {
    let day = words.number()?;
    words.end()?;
    let date = civil_from_days(day)?;
    Ok(Answer::Day(date))
}

const NO_SUCH_DATE: Fault = Fault {
    cause: Cause::OutsideSpan,
    layer: Layer::Calendar,
    row: None,
};

// The day of a date. Parts of more than 32 bits are of no date that the calendar has.
fn day_of(year: i64, month: i64, day: i64) -> Result<i64, Fault>
    ensures { DayOf year month day result }
{
    let year = i32::try_from(year).map_err(|_| NO_SUCH_DATE)?;
    let month = u32::try_from(month).map_err(|_| NO_SUCH_DATE)?;
    let day = u32::try_from(day).map_err(|_| NO_SUCH_DATE)?;
    days_from_civil(year, month, day)
}

// days <year> <month> <day>
pub(crate) fn days(mut words: Words) -> Result<Answer, Refusal> {
    let year = words.number()?;
    let month = words.number()?;
    let day = words.number()?;
    words.end()?;
    let number = day_of(year, month, day)?;
    Ok(Answer::Value(Some(number)))
}
