// How a call is refused: the cause, the layer that found it, and the row, if there is one.
ghost use Rattle.std.specs.Prelude.{◌≡◌, Some};
ghost use Rattle.calendar.specs.Faults.{cause_number, layer_number, found};
ghost use Rattle.calendar.specs.Texts.{cause_text, fault_text, layer_name};

use std::error::Error;
use std::fmt;

#[derive(Clone, Copy, PartialEq, Eq, Debug)]
pub enum Cause {
    UnknownName,
    TimeTooCoarse,
    ValueOutsideScale,
    TruncatedOutsideRange,
    FastResultBelowRange,
    WrongBuffers,
    MixedStride,
    StrideOutsideRange,
    UnfitOrigin,
    TimeStrideTooLong,
    OriginOutsideScale,
    ZeroStride,
    TimeSourceTimestampOrigin,
    UnfitZoneTable,
    OutsideSpan,
    DifferenceOutsideRange,
    DistanceOutsideRange,
    StartOutsideRange,
    RegisterFull,
    NoSuchRow,
    TooManyStarts,
    NoSuchBucket,
}

impl Cause {
    pub fn number(&self) -> u8
        ensures { result ≡ cause_number self.now }
    {
        match self {
            Cause::UnknownName => 1,
            Cause::TimeTooCoarse => 2,
            Cause::ValueOutsideScale => 3,
            Cause::TruncatedOutsideRange => 4,
            Cause::FastResultBelowRange => 6,
            Cause::WrongBuffers => 7,
            Cause::MixedStride => 8,
            Cause::StrideOutsideRange => 9,
            Cause::UnfitOrigin => 10,
            Cause::TimeStrideTooLong => 11,
            Cause::OriginOutsideScale => 12,
            Cause::ZeroStride => 13,
            Cause::TimeSourceTimestampOrigin => 14,
            Cause::UnfitZoneTable => 15,
            Cause::OutsideSpan => 16,
            Cause::DifferenceOutsideRange => 17,
            Cause::DistanceOutsideRange => 18,
            Cause::StartOutsideRange => 19,
            Cause::RegisterFull => 20,
            Cause::NoSuchRow => 21,
            Cause::TooManyStarts => 22,
            Cause::NoSuchBucket => 23,
        }
    }

    fn text(&self) -> &'static str
        ensures { result.now ≡ cause_text self.now }
    {
        match self {
            Cause::UnknownName => "the name is none of the ten granularities",
            Cause::TimeTooCoarse => "a time of day cannot be cut to a day or coarser",
            Cause::ValueOutsideScale => "the value does not scale to 64-bit nanoseconds",
            Cause::TruncatedOutsideRange => "the truncated instant is outside 64-bit nanoseconds",
            Cause::FastResultBelowRange => "the result is below the least 64-bit number",
            Cause::WrongBuffers => "a buffer has the wrong length, or there are over 4,096 rows",
            Cause::MixedStride => "the stride mixes months with days or nanoseconds",
            Cause::StrideOutsideRange => "the stride is outside 64-bit nanoseconds",
            Cause::UnfitOrigin => "the origin is null or of another kind",
            Cause::TimeStrideTooLong =>
                "the origin is a time of day, and the stride has months or lasts a day or more",
            Cause::OriginOutsideScale => "the origin does not scale to 64-bit nanoseconds",
            Cause::ZeroStride => "the stride is zero",
            Cause::TimeSourceTimestampOrigin =>
                "the source is a time of day, and the origin a timestamp",
            Cause::UnfitZoneTable => "the zone's offset or table is unfit",
            Cause::OutsideSpan => "the date or second is outside its span",
            Cause::DifferenceOutsideRange => "the source minus the origin is outside 64 bits",
            Cause::DistanceOutsideRange => "the distance is outside 64 bits",
            Cause::StartOutsideRange => "the start is outside 64 bits",
            Cause::RegisterFull => "the register has 512 rows already",
            Cause::NoSuchRow => "there is no such row",
            Cause::TooManyStarts => "there are over 64 different starts",
            Cause::NoSuchBucket => "there is no such bucket",
        }
    }
}

impl fmt::Display for Cause {
    ghost output = { λ cause. Some (cause_text cause) };

    fn fmt<W: fmt::Write>(&self, f: &mut fmt::Formatter<W>) -> fmt::Result {
        f.pad(self.text())
    }
}

#[derive(Clone, Copy, PartialEq, Eq, Debug)]
pub enum Layer {
    Calendar,
    Zone,
    Truncation,
    Binning,
    Column,
    Register,
}

impl Layer {
    pub fn number(&self) -> u8
        ensures { result ≡ layer_number self.now }
    {
        match self {
            Layer::Calendar => 1,
            Layer::Zone => 2,
            Layer::Truncation => 3,
            Layer::Binning => 4,
            Layer::Column => 5,
            Layer::Register => 6,
        }
    }

    fn name(&self) -> &'static str
        ensures { result.now ≡ layer_name self.now }
    {
        match self {
            Layer::Calendar => "calendar",
            Layer::Zone => "zone",
            Layer::Truncation => "truncation",
            Layer::Binning => "binning",
            Layer::Column => "column",
            Layer::Register => "register",
        }
    }
}

impl fmt::Display for Layer {
    ghost output = { λ layer. Some (layer_name layer) };

    fn fmt<W: fmt::Write>(&self, f: &mut fmt::Formatter<W>) -> fmt::Result {
        f.pad(self.name())
    }
}

#[derive(Clone, Copy, PartialEq, Eq, Debug)]
pub struct Fault {
    pub cause: Cause,
    pub layer: Layer,
    pub row: Option<usize>,
}

impl Fault {
    // A fault of a layer, with no row.
    pub fn found(cause: Cause, layer: Layer) -> Fault
        ensures { result ≡ found cause layer }
    {
        Fault {
            cause,
            layer,
            row: None,
        }
    }
}

impl fmt::Display for Fault {
    ghost output = { λ fault. Some (fault_text fault) };

    // The row is not shown.
    fn fmt<W: fmt::Write>(&self, f: &mut fmt::Formatter<W>) -> fmt::Result {
        let number = self.cause.number();
        let layer = self.layer;
        let cause = self.cause;
        write!(f, "{number} {layer}: {cause}")
    }
}

impl Error for Fault {}
