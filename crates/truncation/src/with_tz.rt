// Timestamps cut on the clock of a zone.
ghost use Rattle.std.specs.Prelude.{◌≡◌, ◌-ℤ◌, MatchResult};
ghost use Rattle.arith.specs.Clock.{LawfulOffset};
ghost use Rattle.arith.specs.Instants.{OnlyOne};
ghost use Rattle.zone.specs.Places.{WithinReach};
ghost use Rattle.truncation.specs.Boundaries.{OnClock};
ghost use Rattle.truncation.specs.Moments.{nanos_of, Chosen, OfRange};
ghost use Rattle.truncation.specs.Truncations.{CutOn, EachFilled, TruncatedIn};
ghost use Rattle.truncation.specs.Units.{InUnits, KeepsUnits};

use crate::boundary::date_trunc_coarse;
use crate::granularity::Granularity;
use crate::moment::Moment;
use crate::reading::Reading;
use crate::unit::{ArrowTimestampType, TimeUnit};
use calendar::Fault;
use zone::{Place, Zone, place_of};

// The second of a boundary: of two, the first if it has the offset that is here at the source, else the second.
fn chosen(place: Place, boundary: i64, here: i64) -> i64
    requires { WithinReach boundary × LawfulOffset here }
    ensures { Chosen (boundary -ℤ here) place result }
{
    match place {
        Place::One(second) => second,
        Place::Two(first, _) if first == boundary - here => first,
        Place::Two(_, second) => second,
        Place::Passed(second) => second,
    }
}

// The truncation of a moment.
fn date_trunc_coarse_with_tz<Z: Zone>(
    zone: &Z,
    granularity: Granularity,
    at: Moment,
) -> Result<Moment, Fault>
    requires { OfRange at.second }
    ensures { MatchResult result (λ m. OnlyOne (OnClock (Z.offset zone.now) granularity (nanos_of at)) (nanos_of m) × KeepsUnits (nanos_of at) (nanos_of m)) (λ f. ⊥) }
{
    let here = zone.offset_at(at.second)?;
    let found = date_trunc_coarse(granularity, Reading::of(at, here))?;
    let place = place_of(zone, found.second)?;
    Ok(Moment {
        second: chosen(place, found.second, here),
        nanos: found.nanos,
    })
}

// An instant of whole units, in the unit.
pub(crate) fn instant_trunc_with_tz<Z: Zone>(
    zone: &Z,
    unit: TimeUnit,
    granularity: Granularity,
    instant: i64,
) -> Result<i64, Fault>
    requires { InUnits unit instant }
    ensures { CutOn (Z.offset zone.now) unit granularity instant result }
{
    let at = Moment::of(instant);
    let start = date_trunc_coarse_with_tz(zone, granularity, at)?.instant()?;
    Ok(unit.whole(start))
}

// A value of the unit.
pub fn general_date_trunc_with_tz<Z: Zone>(
    zone: &Z,
    unit: TimeUnit,
    granularity: Granularity,
    value: i64,
) -> Result<i64, Fault>
    ensures { TruncatedIn (Z.offset zone.now) unit granularity value result }
{
    let instant = unit.scaled(value)?;
    instant_trunc_with_tz(zone, unit, granularity, instant)
}

// A value of a type of timestamps, or none.
pub fn date_trunc_timestamp_value_with_tz<T: ArrowTimestampType, Z: Zone>(
    zone: &Z,
    granularity: Granularity,
    value: Option<i64>,
) -> Result<Option<i64>, Fault>
    ensures { EachFilled (TruncatedIn (Z.offset zone.now) T.measure granularity) value result }
{
    match value {
        None => Ok(None),
        Some(value) => Ok(Some(general_date_trunc_with_tz(zone, T::unit(), granularity, value)?)),
    }
}
