// The two questions to a table zone.
ghost use Rattle.std.specs.Prelude.{◌≡◌, ◌≤◌, length, ◌≤ℤ◌, Decides};
ghost use Rattle.arith.specs.Clock.{LawfulOffset};
ghost use Rattle.zone.specs.Answers.{Shows};
ghost use Rattle.zone.specs.TableLaws.{table_lawful};
ghost use Rattle.zone.specs.Tables.{Passed, offset_after, offset_by};

use crate::clock::{Instants, Zone};
use crate::span::SpanSecond;
use crate::table::{Change, TableZone};
use calendar::Fault;

// A second that has a reading lies less than a day away from it.
const DAY: i64 = 86_400;

// Whether a change has come at a second.
fn has_come(change: &Change, second: i64) -> bool
    ensures { Decides result (change.now.second ≤ℤ second) }
{
    second >= change.second
}

impl<'a> TableZone<'a> {
    // How many changes have come at a second.
    fn passed(&self, second: i64) -> usize
        ensures { Passed self.now.changes.now second result }
    {
        self.changes
            .partition_point(|change| has_come(change, second))
    }

    // The offset after the first n changes.
    fn offset_after(&self, n: usize) -> i64
        requires { n ≤ length self.now.changes.now }
        ensures value { result ≡ offset_after self.now.first self.now.changes.now n }
        ensures lawful { LawfulOffset result }
    {
        match self.changes[..n].last() {
            Some(change) => change.offset,
            None => self.first,
        }
    }

    fn offset(&self, second: i64) -> i64
        ensures { result ≡ offset_by self.now.first self.now.changes.now second }
    {
        self.offset_after(self.passed(second))
    }

    // At most one change comes in the two days around a reading, and no second that has it lies outside of them.
    fn instants(&self, reading: SpanSecond) -> Instants
        ensures { Shows (offset_by self.now.first self.now.changes.now) reading.second result }
    {
        let n = self.passed(reading.second - DAY);
        let before = reading.second - self.offset_after(n);
        let Some(change) = self.changes.get(n) else {
            return Instants::One(before);
        };
        let after = reading.second - change.offset;
        match (before < change.second, change.second <= after) {
            (true, true) => Instants::Two(before, after),
            (true, false) => Instants::One(before),
            (false, true) => Instants::One(after),
            (false, false) => Instants::Skipped,
        }
    }
}

impl<'a> Zone for TableZone<'a> {
    ghost offset = { λ z. offset_by z.first z.changes.now };

    ghost laws = { λ z. table_lawful z.first z.changes.now z.lawful };

    fn offset_at(&self, second: i64) -> Result<i64, Fault> {
        SpanSecond::new(second)?;
        Ok(self.offset(second))
    }

    fn instants_of(&self, reading: i64) -> Result<Instants, Fault> {
        let reading = SpanSecond::new(reading)?;
        Ok(self.instants(reading))
    }
}
