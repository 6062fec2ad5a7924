// Requests to truncate times of day.
ghost use Rattle.std.specs.Prelude.{◌≡◌, MatchResult};
ghost use Rattle.truncation.specs.Times.{TruncatedTime};
ghost use Rattle.answers.specs.Times.{Holds, Narrow, unit_of, value_of};

use crate::answer::Answer;
use crate::refusal::Refusal;
use crate::words::Words;
use calendar::Fault;
use truncation::{
    Granularity, Time32MillisecondType, Time32SecondType, Time64MicrosecondType,
    Time64NanosecondType, TimeUnit, truncate_time,
};

// A time of day, in the width of its unit.
#[derive(Clone, Copy)]
enum Time {
    Seconds(Option<i32>),
    Millis(Option<i32>),
    Micros(Option<i64>),
    Nanos(Option<i64>),
}

// A value of 32 bits.
fn narrow(value: Option<i64>) -> Result<Option<i32>, Refusal>
    ensures { MatchResult result (λ same. same ≡ value) (λ _. Narrow value → ⊥) }
{
    value
        .map(i32::try_from)
        .transpose()
        .map_err(|_| Refusal::BadRequest)
}

impl Time {
    fn of(unit: TimeUnit, value: Option<i64>) -> Result<Time, Refusal>
        ensures { MatchResult result (λ time. (unit_of time ≡ unit) × (value_of time ≡ value)) (λ _. Holds unit value → ⊥) }
    {
        match unit {
            TimeUnit::Second => Ok(Time::Seconds(narrow(value)?)),
            TimeUnit::Millisecond => Ok(Time::Millis(narrow(value)?)),
            TimeUnit::Microsecond => Ok(Time::Micros(value)),
            TimeUnit::Nanosecond => Ok(Time::Nanos(value)),
        }
    }

    fn truncated(self, granularity: Granularity) -> Result<Option<i64>, Fault>
        ensures { TruncatedTime granularity (unit_of self) (value_of self) result }
    {
        match self {
            Time::Seconds(value) => {
                let start = truncate_time::<Time32SecondType>(granularity, value)?;
                Ok(start.map(i64::from))
            }
            Time::Millis(value) => {
                let start = truncate_time::<Time32MillisecondType>(granularity, value)?;
                Ok(start.map(i64::from))
            }
            Time::Micros(value) => truncate_time::<Time64MicrosecondType>(granularity, value),
            Time::Nanos(value) => truncate_time::<Time64NanosecondType>(granularity, value),
        }
    }
}

// time scalar <unit> <g> <v>
pub(crate) fn time_scalar(mut words: Words) -> Result<Answer, Refusal> {
    let unit = words.unit()?;
    let name = words.name()?;
    let value = words.value()?;
    words.end()?;
    let time = Time::of(unit, value)?;
    let granularity = Granularity::try_from(name.as_slice())?;
    let start = time.truncated(granularity)?;
    Ok(Answer::Value(start))
}
