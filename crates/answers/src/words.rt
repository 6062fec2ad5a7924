// The words of a request, and what a word can say.
ghost use Rattle.std.specs.Prelude.{◌<◌, IfOk};

use crate::refusal::Refusal;
use std::alloc::Global;
use truncation::TimeUnit;

// The words of a line that are not read yet, separated by one blank each.
#[derive(Clone, Copy)]
pub(crate) struct Words<'a> {
    heap: Global,
    rest: Option<&'a [u8]>,
}

// A number: digits, after a minus or not, that fit 64 bits.
fn number(word: &[u8]) -> Result<i64, Refusal> {
    if word.starts_with(b"+") {
        return Err(Refusal::BadRequest);
    }
    let text = std::str::from_utf8(word).map_err(|_| Refusal::BadRequest)?;
    text.parse::<i64>().map_err(|_| Refusal::BadRequest)
}

fn hex_digit(byte: u8) -> Result<u8, Refusal>
    ensures { IfOk result (λ digit. digit < 16) }
{
    let digit = char::from(byte).to_digit(16).ok_or(Refusal::BadRequest)?;
    Ok(digit as u8)
}

// The byte of two hexadecimal digits.
fn hex_byte(digits: &[u8]) -> Result<u8, Refusal> {
    match digits {
        [high, low] => Ok(hex_digit(*high)? * 16 + hex_digit(*low)?),
        _ => Err(Refusal::BadRequest),
    }
}

// The bytes of a text of hexadecimal digits.
fn hex_bytes(heap: Global, digits: &[u8]) -> Result<Vec<u8>, Refusal> {
    digits.chunks(2).map(hex_byte).try_collect(heap)
}

impl<'a> Words<'a> {
    pub(crate) fn of(heap: Global, line: &'a [u8]) -> Words<'a> {
        Words {
            heap,
            rest: Some(line),
        }
    }

    // The next word. None is empty.
    pub(crate) fn word(&mut self) -> Result<&'a [u8], Refusal> {
        let rest = self.rest.ok_or(Refusal::BadRequest)?;
        let mut parts = rest.splitn(2, |byte| *byte == b' ');
        let word = parts
            .next()
            .filter(|word| !word.is_empty())
            .ok_or(Refusal::BadRequest)?;
        self.rest = parts.next();
        Ok(word)
    }

    // Whether every word is read.
    pub(crate) fn end(&self) -> Result<(), Refusal> {
        match self.rest {
            None => Ok(()),
            Some(_) => Err(Refusal::BadRequest),
        }
    }

    // A word that has to stand here.
    pub(crate) fn keyword(&mut self, wanted: &[u8]) -> Result<(), Refusal> {
        if self.word()? == wanted {
            Ok(())
        } else {
            Err(Refusal::BadRequest)
        }
    }

    pub(crate) fn number(&mut self) -> Result<i64, Refusal> {
        number(self.word()?)
    }

    // A number, or none.
    pub(crate) fn value(&mut self) -> Result<Option<i64>, Refusal> {
        match self.word()? {
            b"null" => Ok(None),
            word => number(word).map(Some),
        }
    }

    pub(crate) fn unit(&mut self) -> Result<TimeUnit, Refusal> {
        TimeUnit::from_symbol(self.word()?).ok_or(Refusal::BadRequest)
    }

    // The bytes of a name: the word's own, or those that stand in it by hexadecimal digits.
    pub(crate) fn name(&mut self) -> Result<Vec<u8>, Refusal> {
        let word = self.word()?;
        match word.strip_prefix(b"hex:") {
            Some(digits) => hex_bytes(self.heap, digits),
            None => Ok(word.to_vec(self.heap)?),
        }
    }
}
