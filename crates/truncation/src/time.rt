// Times of day cut toward zero.
ghost use Rattle.std.specs.Prelude.{◌≡◌, ◌^◌, ◌<◌, pos};
ghost use Rattle.truncation.specs.Times.{TruncatedTimeBy, LengthAnswer, units_in, whole_units};

use crate::granularity::Granularity;
use crate::length::Length;
use crate::time_type::{ArrowTimeType, Native};
use crate::unit::TimeUnit;
use calendar::{Cause, Fault, Layer};

// So many nanoseconds in whole units.
fn whole_units(nanos: u64, unit: TimeUnit) -> Length
    requires { nanos < 2 ^ 63 }
    ensures { result.units ≡ pos (whole_units nanos unit) }
{
    Length {
        units: (nanos as i64 / unit.scale()).max(1),
    }
}

// A granularity's length in units. A time of day has no days, weeks, months or years.
fn length_in(granularity: Granularity, unit: TimeUnit) -> Result<Length, Fault>
    ensures { LengthAnswer (units_in granularity unit) result }
{
    match granularity {
        Granularity::Microsecond => Ok(whole_units(1_000, unit)),
        Granularity::Millisecond => Ok(whole_units(1_000_000, unit)),
        Granularity::Second => Ok(whole_units(1_000_000_000, unit)),
        Granularity::Minute => Ok(whole_units(60_000_000_000, unit)),
        Granularity::Hour => Ok(whole_units(3_600_000_000_000, unit)),
        Granularity::Day
        | Granularity::Week
        | Granularity::Month
        | Granularity::Quarter
        | Granularity::Year => Err(Fault::found(Cause::TimeTooCoarse, Layer::Truncation)),
    }
}

// A value of a type of times of day, or none.
pub fn truncate_time<T: ArrowTimeType>(
    granularity: Granularity,
    value: Option<T::Native>,
) -> Result<Option<T::Native>, Fault>
    ensures { TruncatedTimeBy T.Native.value granularity T.measure value result }
{
    let length = length_in(granularity, T::unit())?;
    Ok(value.map(|value| value.toward_zero(length)))
}
