// A day of the span, by its number.
ghost use Rattle.std.specs.Prelude.{◌≡◌, MatchResult};
ghost use Rattle.arith.specs.Gregorian.{InSpan};
ghost use Rattle.calendar.specs.Faults.{outside_calendar};

use crate::fault::{Cause, Fault, Layer};

const FIRST_DAY: i64 = -719_162;

const LAST_DAY: i64 = 2_932_896;

// A date or a day that the calendar does not have.
pub(crate) const OUTSIDE_CALENDAR: Fault = Fault {
    cause: Cause::OutsideSpan,
    layer: Layer::Calendar,
    row: None,
};

#[derive(Clone, Copy)]
pub(crate) struct Day {
    pub number: i64,
    ghost in_span: { InSpan number },
}

impl Day {
    // The day with the number, or a refusal outside the span.
    pub fn new(days: i64) -> Result<Day, Fault>
        ensures { MatchResult result (λ d. d.number ≡ days) (λ f. (InSpan days → ⊥) × (f ≡ outside_calendar)) }
    {
        if !(FIRST_DAY..=LAST_DAY).contains(&days) {
            return Err(OUTSIDE_CALENDAR);
        }
        Ok(Day { number: days })
    }
}
