// Requests to truncate timestamps.
ghost use Rattle.truncation.specs.Truncations.{EachFilled, Truncated};

use crate::answer::Answer;
use crate::refusal::Refusal;
use crate::words::Words;
use calendar::Fault;
use truncation::{
    ArrowTimestampType, Granularity, TimeUnit, TimestampMicrosecondType, TimestampMillisecondType,
    TimestampNanosecondType, TimestampSecondType, date_trunc_timestamp_value,
};

// A timestamp of a unit, truncated.
fn truncated(
    unit: TimeUnit,
    granularity: Granularity,
    value: Option<i64>,
) -> Result<Option<i64>, Fault>
    ensures { EachFilled (Truncated unit granularity) value result }
{
    match unit {
        TimeUnit::Second => date_trunc_timestamp_value::<TimestampSecondType>(granularity, value),
        TimeUnit::Millisecond => {
            date_trunc_timestamp_value::<TimestampMillisecondType>(granularity, value)
        }
        TimeUnit::Microsecond => {
            date_trunc_timestamp_value::<TimestampMicrosecondType>(granularity, value)
        }
        TimeUnit::Nanosecond => {
            date_trunc_timestamp_value::<TimestampNanosecondType>(granularity, value)
        }
    }
}

// trunc scalar <unit> <g> <zone> <v>
pub(crate) fn trunc_scalar(mut words: Words) -> Result<Answer, Refusal> {
    let unit = words.unit()?;
    let name = words.name()?;
    // The word for no zone.
    words.keyword(b"-")?;
    let value = words.value()?;
    words.end()?;
    let granularity = Granularity::try_from(name.as_slice())?;
    let start = truncated(unit, granularity, value)?;
    Ok(Answer::Value(start))
}
