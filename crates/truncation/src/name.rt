// Granularities by their names, in any mix of letter case.
ghost use Rattle.std.specs.Prelude.{◌≡◌, [], ◌∷◌, Some, Decides, MatchOption};
ghost use Rattle.std.specs.Iterator.{YieldsFirst, item_count};
ghost use Rattle.truncation.specs.Names.{Read, folded, name_of};

use crate::granularity::Granularity;
use calendar::{Cause, Fault, Layer};
use std::fmt;

// The first letter of a name, lowered, and the bytes after it. The Kelvin sign reads as k.
fn letter(name: &[u8]) -> Option<(u8, &[u8])>
    ensures { MatchOption result (folded name.now ≡ []) (λ p. folded name.now ≡ p.0 ∷ folded p.1.now) }
{
    match name {
        [0xE2, 0x84, 0xAA, rest @ ..] => Some((b'k', rest)),
        [first, rest @ ..] => Some((first.to_ascii_lowercase(), rest)),
        [] => None,
    }
}

// The letters of a name that are not read yet.
#[derive(Drop)]
struct Letters<'a>(&'a [u8]);

impl<'a> Iterator for Letters<'a> {
    type Item = u8;

    ghost next_gives = { YieldsFirst (λ s. folded s.0.now) };

    ghost remaining = { item_count (λ s. folded s.0.now) };

    fn next(&mut self) -> Option<u8> {
        let (byte, rest) = letter(self.0)?;
        self.0 = rest;
        Some(byte)
    }
}

// Whether a first letter, and the bytes after it, read as a word of lower case.
fn reads_as(first: u8, rest: &[u8], word: &[u8]) -> bool
    ensures { Decides result (first ∷ folded rest.now ≡ word.now) }
{
    match word {
        [head, tail @ ..] => *head == first && Letters(rest).eq(tail.iter().copied()),
        [] => false,
    }
}

const SUPPORTED_GRANULARITIES: [Granularity; 10] = [
    Granularity::Microsecond,
    Granularity::Millisecond,
    Granularity::Second,
    Granularity::Minute,
    Granularity::Hour,
    Granularity::Day,
    Granularity::Week,
    Granularity::Month,
    Granularity::Quarter,
    Granularity::Year,
];

impl<'a> TryFrom<&'a [u8]> for Granularity {
    type Error = Fault;

    ghost try_from_gives = { λ name r. Read name.now r };

    // The granularity of a name.
    fn try_from(name: &'a [u8]) -> Result<Granularity, Fault> {
        let unknown = Fault::found(Cause::UnknownName, Layer::Truncation);
        let (first, rest) = letter(name).ok_or(unknown)?;
        SUPPORTED_GRANULARITIES
            .iter()
            .copied()
            .find(|granularity| granularity.is_named(first, rest))
            .ok_or(unknown)
    }
}

impl Granularity {
    // Whether a first letter, and the bytes after it, read as the granularity's name.
    fn is_named(self, first: u8, rest: &[u8]) -> bool
        ensures { Decides result (first ∷ folded rest.now ≡ name_of self) }
    {
        reads_as(first, rest, self.name().as_bytes())
    }

    // The name, in lower case.
    pub fn name(self) -> &'static str
        ensures { result.now ≡ name_of self }
    {
        match self {
            Granularity::Microsecond => "microsecond",
            Granularity::Millisecond => "millisecond",
            Granularity::Second => "second",
            Granularity::Minute => "minute",
            Granularity::Hour => "hour",
            Granularity::Day => "day",
            Granularity::Week => "week",
            Granularity::Month => "month",
            Granularity::Quarter => "quarter",
            Granularity::Year => "year",
        }
    }
}

impl fmt::Display for Granularity {
    ghost output = { λ granularity. Some (name_of granularity) };

    fn fmt<W: fmt::Write>(&self, f: &mut fmt::Formatter<W>) -> fmt::Result {
        f.pad(self.name())
    }
}
