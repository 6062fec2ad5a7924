// Zones: what a clock shows at each second of UTC.
#![tactic(auto)]

mod clock;
mod fixed;
mod seek;
mod span;
mod table;

pub use clock::{Instants, Zone};
pub use fixed::FixedZone;
pub use seek::{Place, place_of};
pub use table::{Change, TableZone};
