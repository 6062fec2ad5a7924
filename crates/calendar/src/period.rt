// The spans of the calendar that are whole days.
#[derive(Clone, Copy, PartialEq, Eq, Debug)]
pub enum Period {
    Week,
    Month,
    Quarter,
    Year,
}
