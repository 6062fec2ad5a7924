// A zone with one offset.
ghost use Rattle.std.specs.Prelude.{◌≡◌, pos, MatchResult};
ghost use Rattle.arith.specs.Clock.{LawfulOffset, ShownOnce};
ghost use Rattle.arith.proofs.Windows.{still_lawful};
ghost use Rattle.calendar.specs.Faults.{found};
ghost use Rattle.calendar.specs.declared.fault.Cause.TheVariants.{UnfitZoneTable};
ghost use Rattle.calendar.specs.declared.fault.Layer.TheVariants.{Zone as OfZone};

use crate::clock::{Instants, Zone};
use crate::span::{SpanSecond, UNFIT, is_lawful};
use calendar::Fault;

#[derive(Clone, Copy, PartialEq, Eq, Debug)]
pub struct FixedZone {
    seconds: i64,
    ghost lawful: { LawfulOffset seconds },
}

impl FixedZone {
    // A zone with no offset.
    pub fn utc() -> FixedZone
        ensures { result.seconds ≡ pos 0 }
    {
        FixedZone { seconds: 0 }
    }

    pub fn new(seconds: i64) -> Result<FixedZone, Fault>
        ensures { MatchResult result (λ z. z.seconds ≡ seconds) (λ e. (LawfulOffset seconds → ⊥) × (e ≡ found UnfitZoneTable OfZone)) }
    {
        if is_lawful(seconds) {
            Ok(FixedZone { seconds })
        } else {
            Err(UNFIT)
        }
    }

    // The one second with a reading.
    fn instant(&self, reading: SpanSecond) -> i64
        ensures { ShownOnce (λ _. self.now.seconds) reading.second result }
    {
        reading.second - self.seconds
    }
}

impl Zone for FixedZone {
    ghost offset = { λ z s. z.seconds };

    ghost laws = { λ z. still_lawful z.seconds z.lawful };

    fn offset_at(&self, second: i64) -> Result<i64, Fault> {
        SpanSecond::new(second)?;
        Ok(self.seconds)
    }

    fn instants_of(&self, reading: i64) -> Result<Instants, Fault> {
        let reading = SpanSecond::new(reading)?;
        Ok(Instants::One(self.instant(reading)))
    }
}
