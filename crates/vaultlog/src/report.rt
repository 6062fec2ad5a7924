// The lines that a run prints.
use crate::log::{Entry, Outcome, Totals};
use crate::options::Options;
use crate::row::NotRead;
use crate::shown::{Timestamp, instant_width, unit_name};
use std::fmt;
use truncation::TimeUnit;

const MOST_MARKS: u64 = 40;

// What is done, and the names of the columns.
#[derive(Clone, Copy)]
pub(crate) struct Heading(pub Options);

impl fmt::Display for Heading {
    fn fmt<W: fmt::Write>(&self, f: &mut fmt::Formatter<W>) -> fmt::Result {
        let granularity = self.0.granularity;
        let unit = unit_name(self.0.unit);
        let width = instant_width(self.0.unit);
        writeln!(
            f,
            "Lock events filed by {granularity} in UTC; numbers are {unit} since 1970-01-01."
        )?;
        writeln!(f)?;
        write!(
            f,
            " line  {:>20}  {:width$}  {:>20}  instant",
            "value", "instant", "bucket start"
        )
    }
}

fn write_not_read<W: fmt::Write>(
    f: &mut fmt::Formatter<W>,
    text: Option<&str>,
    why: NotRead,
) -> fmt::Result {
    match text {
        Some(text) => write!(f, "  not read: {text:?}: {why}"),
        None => write!(f, "  not read: {why}"),
    }
}

// What became of a line of the log.
#[derive(Clone, Copy)]
pub(crate) struct EntryLine<'a> {
    pub number: u64,
    pub unit: TimeUnit,
    pub entry: Entry<'a>,
}

impl<'a> fmt::Display for EntryLine<'a> {
    fn fmt<W: fmt::Write>(&self, f: &mut fmt::Formatter<W>) -> fmt::Result {
        let number = self.number;
        let unit = self.unit;
        let timestamp = |value| Timestamp { unit, value };
        write!(f, "{number:>5}")?;
        match self.entry.outcome {
            Outcome::Filed { value, start } => {
                write!(f, "  {}  {}", timestamp(value), timestamp(start))
            }
            Outcome::Empty => write!(f, "  {:>20}", "empty"),
            Outcome::Refused { value, fault } => {
                write!(f, "  {}  refused: {fault}", timestamp(value))
            }
            Outcome::NotRead(why) => write_not_read(f, self.entry.text, why),
        }
    }
}

// The names of the columns of the buckets.
#[derive(Clone, Copy)]
pub(crate) struct BucketHeading(pub TimeUnit);

impl fmt::Display for BucketHeading {
    fn fmt<W: fmt::Write>(&self, f: &mut fmt::Formatter<W>) -> fmt::Result {
        let width = instant_width(self.0);
        writeln!(f)?;
        write!(
            f,
            "{:>20}  {:width$}  day  {:>5}",
            "bucket start", "instant", "rows"
        )
    }
}

// A bucket, with a mark for each row.
#[derive(Clone, Copy)]
pub(crate) struct BucketLine {
    pub start: Timestamp,
    pub count: u64,
}

fn write_marks<W: fmt::Write>(f: &mut fmt::Formatter<W>, count: u64) -> fmt::Result {
    let marks = count.min(MOST_MARKS) as usize;
    write!(f, "{:#<marks$}", "")?;
    if count > MOST_MARKS {
        f.write_str("+")?;
    }
    Ok(())
}

impl fmt::Display for BucketLine {
    fn fmt<W: fmt::Write>(&self, f: &mut fmt::Formatter<W>) -> fmt::Result {
        let start = self.start.value;
        let count = self.count;
        write!(f, "{start:>20}  ")?;
        if let Some(instant) = self.start.instant() {
            write!(f, "{instant}  {}", instant.weekday())?;
        }
        write!(f, "  {count:>5}  ")?;
        write_marks(f, count)
    }
}

// The last line.
#[derive(Clone, Copy)]
pub(crate) struct TotalsLine(pub Totals);

impl fmt::Display for TotalsLine {
    fn fmt<W: fmt::Write>(&self, f: &mut fmt::Formatter<W>) -> fmt::Result {
        let Totals {
            filed,
            empty,
            refused,
            not_read,
        } = self.0;
        writeln!(f)?;
        write!(
            f,
            "rows filed: {filed}, empty rows: {empty}, refused rows: {refused}, lines not read: {not_read}"
        )
    }
}
