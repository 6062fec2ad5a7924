// A date and a time of day, in nanoseconds since midnight.
ghost use Rattle.std.specs.Prelude.{◌<◌};

use crate::date::Date;

#[derive(Clone, Copy, PartialEq, Eq, PartialOrd, Ord, Hash, Debug)]
pub struct DateTime {
    pub date: Date,
    pub nanos: u64,
    ghost below: { nanos < 86400000000000 },
}
