// The limits of this layer, and its refusals.
ghost use Rattle.std.specs.Prelude.{◌≡◌, Decides, MatchResult};
ghost use Rattle.arith.specs.Clock.{LawfulOffset};
ghost use Rattle.calendar.specs.Faults.{found};
ghost use Rattle.calendar.specs.declared.fault.Cause.TheVariants.{OutsideSpan};
ghost use Rattle.calendar.specs.declared.fault.Layer.TheVariants.{Zone};
ghost use Rattle.zone.specs.Spans.{InSpan};

use calendar::{Cause, Fault, Layer};

// A zone is asked about seconds and readings from −SPAN to SPAN.
pub(crate) const SPAN: i64 = 9_300_000_000;

// No offset is greater.
pub(crate) const WIDEST: i64 = 86_340;

// A second or a reading that a zone is not asked about.
pub(crate) const OUTSIDE_SPAN: Fault = Fault {
    cause: Cause::OutsideSpan,
    layer: Layer::Zone,
    row: None,
};

// An offset or a table of no zone.
pub(crate) const UNFIT: Fault = Fault {
    cause: Cause::UnfitZoneTable,
    layer: Layer::Zone,
    row: None,
};

// A second or a reading inside the span.
#[derive(Clone, Copy)]
pub(crate) struct SpanSecond {
    pub(crate) second: i64,
    ghost in_span: { InSpan second },
}

impl SpanSecond {
    pub(crate) fn new(second: i64) -> Result<SpanSecond, Fault>
        ensures { MatchResult result (λ s. s.second ≡ second) (λ e. (InSpan second → ⊥) × (e ≡ found OutsideSpan Zone)) }
    {
        if in_span(second) {
            Ok(SpanSecond { second })
        } else {
            Err(OUTSIDE_SPAN)
        }
    }
}

pub(crate) fn in_span(second: i64) -> bool
    ensures { Decides result (InSpan second) }
{
    (-SPAN..=SPAN).contains(&second)
}

pub(crate) fn is_lawful(offset: i64) -> bool
    ensures { Decides result (LawfulOffset offset) }
{
    (-WIDEST..=WIDEST).contains(&offset) && offset % 60 == 0
}
