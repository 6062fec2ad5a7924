// A request by its first words.
use crate::answer::Answer;
use crate::dates::{civil, days};
use crate::names::name;
use crate::refusal::Refusal;
use crate::times::time_scalar;
use crate::timestamps::trunc_scalar;
use crate::words::Words;

// The answer to a line, by its words.
pub(crate) fn answer(mut words: Words) -> Result<Answer, Refusal> {
    match words.word()? {
        b"name" => name(words),
        b"civil" => civil(words),
        b"days" => days(words),
        b"trunc" => {
            words.keyword(b"scalar")?;
            trunc_scalar(words)
        }
        b"time" => {
            words.keyword(b"scalar")?;
            time_scalar(words)
        }
        _ => Err(Refusal::BadRequest),
    }
}
