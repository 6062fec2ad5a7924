// Timestamps cut without a zone, which is on the clock of UTC.
ghost use Rattle.truncation.specs.Truncations.{Cut, EachFilled, Truncated};
ghost use Rattle.truncation.specs.Units.{InUnits};

use crate::granularity::Granularity;
use crate::unit::{ArrowTimestampType, TimeUnit};
use crate::with_tz::instant_trunc_with_tz;
use calendar::Fault;
use zone::FixedZone;

// An instant of whole units, in the unit.
fn instant_trunc(unit: TimeUnit, granularity: Granularity, instant: i64) -> Result<i64, Fault>
    requires { InUnits unit instant }
    ensures { Cut unit granularity instant result }
{
    instant_trunc_with_tz(&FixedZone::utc(), unit, granularity, instant)
}

// A value of the unit.
pub fn general_date_trunc(
    unit: TimeUnit,
    granularity: Granularity,
    value: i64,
) -> Result<i64, Fault>
    ensures { Truncated unit granularity value result }
{
    let instant = unit.scaled(value)?;
    instant_trunc(unit, granularity, instant)
}

// A value of a type of timestamps, or none.
pub fn date_trunc_timestamp_value<T: ArrowTimestampType>(
    granularity: Granularity,
    value: Option<i64>,
) -> Result<Option<i64>, Fault>
    ensures { EachFilled (Truncated T.measure granularity) value result }
{
    match value {
        None => Ok(None),
        Some(value) => Ok(Some(general_date_trunc(T::unit(), granularity, value)?)),
    }
}
