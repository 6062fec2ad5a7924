// A zone is an interface with two questions. Its meaning is one offset in seconds for every whole second of UTC.
ghost use Rattle.std.specs.Prelude.{ℤ};
ghost use Rattle.arith.specs.Clock.{Lawful};
ghost use Rattle.zone.specs.Answers.{InstantsAnswer, OffsetAnswer};

use calendar::Fault;

// The seconds of UTC at which a clock has one reading: none, one, or two ascending.
#[derive(Clone, Copy, PartialEq, Eq, Debug)]
pub enum Instants {
    Skipped,
    One(i64),
    Two(i64, i64),
}

pub trait Zone {
    // the offset at each second
    ghost offset: { Self → ℤ → ℤ };

    // what the clock keeps to, as each `impl` shows
    ghost laws: { (z : Self) → Lawful (offset z) };

    // The offset at a second.
    fn offset_at(&self, second: i64) -> Result<i64, Fault>
        ensures { OffsetAnswer (offset self.now) second result };

    // Every second that has a reading.
    fn instants_of(&self, reading: i64) -> Result<Instants, Fault>
        ensures { InstantsAnswer (offset self.now) reading result };
}
