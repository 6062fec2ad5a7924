// From instants to moments and back, and moments cut to fixed lengths.
ghost use Rattle.std.specs.Prelude.{◌≡◌, pos, ◌+ℤ◌, ◌*ℤ◌, MatchResult, FitsSigned};
ghost use Rattle.std.specs.Int.{w64};
ghost use Rattle.arith.specs.Greatest.{GreatestNotAfter, MultipleOf};
ghost use Rattle.calendar.specs.Faults.{found};
ghost use Rattle.calendar.specs.declared.fault.Cause.TheVariants.{TruncatedOutsideRange};
ghost use Rattle.calendar.specs.declared.fault.Layer.TheVariants.{Truncation};
ghost use Rattle.truncation.specs.Moments.{day_of, nanos_of, PartOfSecond};

use crate::moment::Moment;
use calendar::{Cause, Fault, Layer};

const NANOS: i64 = 1_000_000_000;

const SECONDS_PER_DAY: i64 = 86_400;

// A whole second and nanoseconds together.
fn total(second: i64, nanos: u32) -> i128
    ensures { result ≡ pos 1000000000 *ℤ second +ℤ pos nanos }
{
    i128::from(second) * 1_000_000_000 + i128::from(nanos)
}

impl Moment {
    pub(crate) fn of(instant: i64) -> Moment
        ensures { nanos_of result ≡ instant }
    {
        Moment {
            second: instant.div_euclid(NANOS),
            nanos: instant.rem_euclid(NANOS) as u32,
        }
    }

    // The moment in nanoseconds.
    pub(crate) fn instant(self) -> Result<i64, Fault>
        ensures { MatchResult result (λ t. t ≡ nanos_of self) (λ f. (FitsSigned w64 (nanos_of self) → ⊥) × (f ≡ found TruncatedOutsideRange Truncation)) }
    {
        i64::try_from(total(self.second, self.nanos)).map_err(|_| Fault::found(
            Cause::TruncatedOutsideRange,
            Layer::Truncation,
        ))
    }

    // Cut to whole parts of a second, each of so many nanoseconds.
    pub(crate) fn cut_nanos(self, length: u32) -> Moment
        requires { PartOfSecond length }
        ensures { GreatestNotAfter (MultipleOf length) (nanos_of self) (nanos_of result) }
    {
        Moment {
            second: self.second,
            nanos: self.nanos - self.nanos % length,
        }
    }

    pub(crate) fn day(self) -> i64
        ensures { result ≡ day_of self }
    {
        self.second.div_euclid(SECONDS_PER_DAY)
    }
}
