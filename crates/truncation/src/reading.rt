// What a clock shows at an instant, by the same parts.
ghost use Rattle.std.specs.Prelude.{◌≡◌, ◌*◌, ◌+ℤ◌};
ghost use Rattle.arith.specs.Clock.{LawfulOffset};
ghost use Rattle.arith.specs.Greatest.{GreatestNotAfter, MultipleOf};
ghost use Rattle.truncation.specs.Moments.{nanos_of, Near, OfRange, WholeSeconds};

use crate::moment::Moment;

#[derive(Clone, Copy)]
pub(crate) struct Reading {
    pub(crate) at: Moment,
    ghost near: { Near at.second },
}

impl Reading {
    // By the clock's offset at the instant.
    pub(crate) fn of(instant: Moment, offset: i64) -> Reading
        requires { OfRange instant.second × LawfulOffset offset }
        ensures { (result.at.second ≡ instant.second +ℤ offset) × (result.at.nanos ≡ instant.nanos) }
    {
        Reading {
            at: Moment {
                second: instant.second + offset,
                nanos: instant.nanos,
            },
        }
    }

    // Cut to whole lengths of so many seconds.
    pub(crate) fn cut_seconds(self, length: u32) -> Moment
        requires { WholeSeconds length }
        ensures { GreatestNotAfter (MultipleOf (1000000000 * length)) (nanos_of self.at) (nanos_of result) }
    {
        let second = self.at.second;
        Moment {
            second: second - second.rem_euclid(i64::from(length)),
            nanos: 0,
        }
    }
}
