// A log read line by line: what became of each line, and what is filed so far.
ghost use Rattle.std.specs.Prelude.{◌≡◌, ℕ, List, MatchOption, MatchResult};
ghost use Rattle.std.specs.BTreeMap.{IsUnchanged};
ghost use Rattle.vaultlog.specs.Outcomes.{Becomes, Entered, FiledAs, Skipped, Trimmed, counted};

use crate::buckets::{Buckets, Unfiled};
use crate::options::Options;
use crate::row::{NotRead, is_skipped, read_row};
use calendar::Fault;
use std::alloc::Global;
use std::str::from_utf8;
use truncation::general_date_trunc;

// What became of a line.
#[derive(Clone, Copy)]
pub(crate) enum Outcome {
    Filed { value: i64, start: i64 },
    Empty,
    Refused { value: i64, fault: Fault },
    NotRead(NotRead),
}

// A line of the log, if it is text, and what became of it.
#[derive(Clone, Copy)]
pub(crate) struct Entry<'a> {
    pub text: Option<&'a str>,
    pub outcome: Outcome,
}

// How many lines became what.
#[derive(Clone, Copy, Default)]
pub(crate) struct Totals {
    pub filed: u64,
    pub empty: u64,
    pub refused: u64,
    pub not_read: u64,
}

// What becomes of a line that is a row.
fn outcome_of(options: Options, text: &str) -> Outcome
    ensures { Becomes options.unit options.granularity text.now result }
{
    match read_row(options.unit, text) {
        Ok(Some(value)) => {
            match general_date_trunc(options.unit, options.granularity, value) {
                Ok(start) => Outcome::Filed { value, start },
                Err(fault) => Outcome::Refused { value, fault },
            }
        }
        Ok(None) => Outcome::Empty,
        Err(why) => Outcome::NotRead(why),
    }
}

// What becomes of a line. A blank line or a comment has no entry.
pub(crate) fn entry_of(options: Options, line: &[u8]) -> Option<Entry<'_>>
    ensures { (row : List ℕ) × Trimmed line.now row × MatchOption result (Skipped row) (λ e. (Skipped row → ⊥) × Entered options.unit options.granularity row e.text e.outcome) }
{
    let row = line.trim_ascii();
    if is_skipped(row) {
        return None;
    }
    let text = from_utf8(row).ok();
    let outcome = match text {
        Some(text) => outcome_of(options, text),
        None => Outcome::NotRead(NotRead::NoText),
    };
    Some(Entry { text, outcome })
}

impl Totals {
    // One line more.
    fn count(&mut self, outcome: Outcome)
        ensures { self.new ≡ counted outcome self.old }
    {
        match outcome {
            Outcome::Filed { .. } => self.filed = self.filed.saturating_add(1),
            Outcome::Empty => self.empty = self.empty.saturating_add(1),
            Outcome::Refused { .. } => self.refused = self.refused.saturating_add(1),
            Outcome::NotRead(_) => self.not_read = self.not_read.saturating_add(1),
        }
    }
}

// What is filed so far.
#[derive(Drop)]
pub(crate) struct Log {
    pub buckets: Buckets,
    pub totals: Totals,
}

impl Log {
    pub(crate) fn new(heap: Global) -> Log {
        Log {
            buckets: Buckets::new(heap),
            totals: Totals::default(),
        }
    }

    // Files what became of a line.
    pub(crate) fn file(&mut self, outcome: Outcome) -> Result<(), Unfiled>
        ensures buckets { MatchResult result (λ _. FiledAs outcome self.old.buckets.counts self.new.buckets.counts) (λ _. IsUnchanged self.old.buckets.counts self.new.buckets.counts) }
        ensures totals { MatchResult result (λ _. self.new.totals ≡ counted outcome self.old.totals) (λ _. self.new.totals ≡ self.old.totals) }
    {
        if let Outcome::Filed { start, .. } = outcome {
            self.buckets.file(start)?;
        }
        self.totals.count(outcome);
        Ok(())
    }
}
