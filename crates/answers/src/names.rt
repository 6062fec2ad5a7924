// Requests about the names of granularities.
use crate::answer::Answer;
use crate::refusal::Refusal;
use crate::words::Words;
use truncation::Granularity;

// name <g>
pub(crate) fn name(mut words: Words) -> Result<Answer, Refusal> {
    let name = words.name()?;
    words.end()?;
    let granularity = Granularity::try_from(name.as_slice())?;
    Ok(Answer::Name(granularity))
}
