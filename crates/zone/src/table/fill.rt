// How a table zone is made, and filled again.
ghost use Rattle.std.specs.Prelude.{◌≡◌, [], pos, ◌+ℤ◌, ◌≤ℤ◌, Decides, MatchResult};
ghost use Rattle.calendar.specs.Faults.{found};
ghost use Rattle.calendar.specs.declared.fault.Cause.TheVariants.{UnfitZoneTable};
ghost use Rattle.calendar.specs.declared.fault.Layer.TheVariants.{Zone as OfZone};
ghost use Rattle.zone.specs.Filling.{FillAnswer};
ghost use Rattle.zone.specs.Spans.{InSpan};
ghost use Rattle.zone.specs.Tables.{LawfulChange, LawfulTable};

use crate::span::{UNFIT, in_span, is_lawful};
use crate::table::{Change, TableZone};
use calendar::Fault;

// No more changes than these stand in a table.
const MOST: usize = 256;

// Neighbours stand no nearer than two days.
const NEAREST: i64 = 172_800;

fn is_lawful_change(change: &Change) -> bool
    ensures { Decides result (LawfulChange change.now) }
{
    in_span(change.second) && change.second % 60 == 0 && is_lawful(change.offset)
}

fn is_apart(earlier: i64, later: i64) -> bool
    requires { InSpan later }
    ensures { Decides result ((earlier +ℤ pos 172800) ≤ℤ later) }
{
    earlier <= later - NEAREST
}

// Whether a change is lawful, and far enough from the one before.
fn follows(earlier: &Change, later: &Change) -> bool
    ensures { Decides result (((earlier.now.second +ℤ pos 172800) ≤ℤ later.now.second) × LawfulChange later.now) }
{
    in_span(later.second) && is_apart(earlier.second, later.second) && is_lawful_change(later)
}

fn is_lawful_table(first: i64, changes: &[Change]) -> bool
    ensures { Decides result (LawfulTable first changes.now) }
{
    if changes.len() > MOST || !is_lawful(first) {
        return false;
    }
    changes.first().is_none_or(is_lawful_change) && changes.is_sorted_by(follows)
}

impl<'a> TableZone<'a> {
    // A zone with no change and no offset.
    pub fn utc() -> TableZone<'a>
        ensures { (result.first ≡ pos 0) × (result.changes.now ≡ []) }
    {
        TableZone {
            first: 0,
            changes: &[],
        }
    }

    // A zone by a table, where the table is lawful.
    pub fn new(first: i64, changes: &'a [Change]) -> Result<TableZone<'a>, Fault>
        ensures { MatchResult result (λ z. LawfulTable first changes.now × (z.first ≡ first) × (z.changes.now ≡ changes.now)) (λ e. (LawfulTable first changes.now → ⊥) × (e ≡ found UnfitZoneTable OfZone)) }
    {
        if is_lawful_table(first, changes) {
            Ok(TableZone { first, changes })
        } else {
            Err(UNFIT)
        }
    }

    // Puts another table into the place of this one, or refuses it and stays as it was.
    pub fn fill(&mut self, first: i64, changes: &'a [Change]) -> Result<(), Fault>
        ensures { FillAnswer self.old first changes.now self.new result }
    {
        *self = TableZone::new(first, changes)?;
        Ok(())
    }
}
