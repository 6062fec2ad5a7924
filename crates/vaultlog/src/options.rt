// The arguments of a run.
ghost use Rattle.std.specs.Prelude.{◌≡◌, MatchResult, ◌≢◌};
ghost use Rattle.truncation.specs.Names.{folded, name_of};
ghost use Rattle.truncation.specs.Units.{symbol_of};

use calendar::Fault;
use thiserror::Error;
use truncation::{Granularity, TimeUnit};

pub(crate) const USAGE: &str = "usage: vaultlog --granularity NAME [--unit s|ms|us|ns] < LOG

Files each row of the log under the start of its calendar bucket, in UTC.

  --granularity NAME   the length of a bucket: microsecond, millisecond, second, minute,
                       hour, day, week, month, quarter or year
  --unit s|ms|us|ns    the unit of the log's numbers and of the starts (default: s)
  --help               print this text

A row is a number in the unit, an instant such as 2024-02-29, 2024-02-29T12:34Z or
2024-02-29T12:34:56.789Z, or - for an empty row. Blank lines and lines that start
with # are skipped.";

const NAMES: &str =
    "the ten names: microsecond, millisecond, second, minute, hour, day, week, month, quarter, year";

#[derive(Clone, Copy)]
pub(crate) struct Options {
    pub granularity: Granularity,
    pub unit: TimeUnit,
}

#[derive(Clone, Copy)]
pub(crate) enum Command {
    Help,
    File(Options),
}

// What is wrong with the arguments.
#[derive(Clone, Copy, Debug, Error)]
pub(crate) enum BadArgument<'a> {
    #[error("unknown option: {0:?}")]
    UnknownOption(&'a str),
    #[error("{0} wants a value")]
    NoValue(&'a str),
    #[error("unknown unit: {0:?}")]
    UnknownUnit(&'a str),
    #[error("refused: {1}: {0:?}")]
    UnknownGranularity(&'a str, Fault),
    #[error("--granularity is missing")]
    NoGranularity,
}

impl<'a> BadArgument<'a> {
    // What would be right.
    pub(crate) fn advice(&self) -> &'static str {
        match self {
            BadArgument::UnknownGranularity(_, _) => NAMES,
            _ => USAGE,
        }
    }
}

fn unit_of(word: &str) -> Result<TimeUnit, BadArgument<'_>>
    ensures { MatchResult result (λ u. word.now ≡ symbol_of u) (λ _. (u : TimeUnit) → word.now ≢ symbol_of u) }
{
    TimeUnit::from_symbol(word.as_bytes()).ok_or(BadArgument::UnknownUnit(word))
}

fn granularity_of(name: &str) -> Result<Granularity, BadArgument<'_>>
    ensures { MatchResult result (λ g. folded name.now ≡ name_of g) (λ _. (g : Granularity) → folded name.now ≢ name_of g) }
{
    let refused = |fault| BadArgument::UnknownGranularity(name, fault);
    Granularity::try_from(name.as_bytes()).map_err(refused)
}

// The value of an option: the word after it, unless that begins as an option does.
fn value_of<'a>(option: &'a str, word: Option<&'a str>) -> Result<&'a str, BadArgument<'a>> {
    match word {
        Some(value) if !value.starts_with("--") => Ok(value),
        _ => Err(BadArgument::NoValue(option)),
    }
}

// What a run is asked to do, by its arguments.
pub(crate) fn read_command(words: &[String]) -> Result<Command, BadArgument<'_>> {
    let mut granularity = None;
    let mut unit = TimeUnit::Second;
    let mut words = words.iter().map(String::as_str);
    while let Some(option) = words.next() {
        match (option, words.next()) {
            ("--help", _) | ("--granularity" | "--unit", Some("--help")) => {
                return Ok(Command::Help);
            }
            ("--granularity", word) => {
                granularity = Some(granularity_of(value_of(option, word)?)?);
            }
            ("--unit", word) => unit = unit_of(value_of(option, word)?)?,
            _ => return Err(BadArgument::UnknownOption(option)),
        }
    }
    let granularity = granularity.ok_or(BadArgument::NoGranularity)?;
    Ok(Command::File(Options { granularity, unit }))
}
