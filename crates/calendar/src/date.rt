// A date of the years 1 to 9999. Every value is a date that the calendar has.
ghost use Rattle.std.specs.Prelude.{◌≤◌, pos};
ghost use Rattle.arith.specs.Gregorian.{leap, month_length};

#[derive(Clone, Copy, PartialEq, Eq, PartialOrd, Ord, Hash, Debug)]
pub struct Date {
    pub year: u16,
    pub month: u8,
    pub day: u8,
    ghost first_year: { 1 ≤ year },
    ghost last_year: { year ≤ 9999 },
    ghost first_month: { 1 ≤ month },
    ghost last_month: { month ≤ 12 },
    ghost first_day: { 1 ≤ day },
    ghost last_day: { day ≤ month_length (leap (pos year)) month },
}
