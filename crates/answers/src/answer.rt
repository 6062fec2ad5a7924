// Answers, and how each is written.
use calendar::Date;
use std::fmt;
use truncation::Granularity;

#[derive(Clone, Copy)]
pub(crate) enum Answer {
    Value(Option<i64>),
    Name(Granularity),
    Day(Date),
}

impl fmt::Display for Answer {
    fn fmt<W: fmt::Write>(&self, f: &mut fmt::Formatter<W>) -> fmt::Result {
        match self {
            Answer::Value(None) => f.write_str("null"),
            Answer::Value(Some(value)) => write!(f, "ok {value}"),
            Answer::Name(granularity) => write!(f, "ok {granularity}"),
            Answer::Day(date) => write!(f, "ok {} {} {}", date.year, date.month, date.day),
        }
    }
}
