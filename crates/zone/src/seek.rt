// What any zone answers, by its two questions.
ghost use Rattle.std.specs.Prelude.{Decides, MatchResult};
ghost use Rattle.arith.specs.Clock.{Passes, SkippedBy};
ghost use Rattle.zone.specs.Places.{WithinReach, LaterAnswer, PlaceAnswer};

use crate::clock::{Instants, Zone};
use crate::span::{OUTSIDE_SPAN, SPAN, WIDEST};
use calendar::Fault;

// Where a reading stands on a clock: at the seconds that have it, or else at the second at which the clock passes it.
#[derive(Clone, Copy, PartialEq, Eq, Debug)]
pub enum Place {
    One(i64),
    Two(i64, i64),
    Passed(i64),
}

// At so many seconds before a reading the clock reads earlier, and at so many after it reads later.
const REACH: i64 = WIDEST + 1;

// A clock changes on whole minutes only.
const MINUTE: i64 = 60;

// So many minutes after the minute of that earlier second the clock reads later.
const ACROSS: u32 = 2_880;

fn in_reach(reading: i64) -> bool
    ensures { Decides result (WithinReach reading) }
{
    (REACH - SPAN..=SPAN - REACH).contains(&reading)
}

// Whether the clock reads later than a reading at a second.
fn reads_later<Z: Zone>(zone: &Z, second: i64, reading: i64) -> Result<bool, Fault>
    ensures { LaterAnswer (Z.offset zone.now) second reading result }
{
    let offset = zone.offset_at(second)?;
    Ok(reading < second + offset)
}

// The second at which the clock passes a reading that it skips, by halving over whole minutes.
fn passing_second<Z: Zone>(zone: &Z, reading: i64) -> Result<i64, Fault>
    requires reach { WithinReach reading }
    requires skipped { SkippedBy (Z.offset zone.now) reading }
    ensures { MatchResult result (λ s. Passes (Z.offset zone.now) reading s) (λ _. ⊥) }
{
    let first = (reading - REACH).div_euclid(MINUTE);
    let mut earlier = 0;
    let mut later = ACROSS;
    while later - earlier > 1 {
        let between = earlier.midpoint(later);
        if reads_later(zone, MINUTE * (first + i64::from(between)), reading)? {
            later = between;
        } else {
            earlier = between;
        }
    }
    Ok(MINUTE * (first + i64::from(later)))
}

// Where a reading stands on the clock of a zone.
pub fn place_of<Z: Zone>(zone: &Z, reading: i64) -> Result<Place, Fault>
    ensures { PlaceAnswer (Z.offset zone.now) reading result }
{
    if !in_reach(reading) {
        return Err(OUTSIDE_SPAN);
    }
    Ok(match zone.instants_of(reading)? {
        Instants::One(a) => Place::One(a),
        Instants::Two(a, b) => Place::Two(a, b),
        Instants::Skipped => Place::Passed(passing_second(zone, reading)?),
    })
}
