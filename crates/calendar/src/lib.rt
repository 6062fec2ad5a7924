// The proleptic Gregorian calendar of ISO 8601, for the years 1 to 9999. Day 0 is 1970-01-01, a Thursday. And the faults of all layers.
#![tactic(auto)]

mod boundary;
mod civil;
mod date;
mod date_time;
mod day;
mod fault;
mod instant;
mod make;
mod period;
mod shift;
mod weekday;

pub use boundary::period_start;
pub use civil::{civil_from_days, days_from_civil};
pub use date::Date;
pub use date_time::DateTime;
pub use fault::{Cause, Fault, Layer};
pub use make::month_length;
pub use period::Period;
pub use shift::shift_months;
pub use weekday::Weekday;
