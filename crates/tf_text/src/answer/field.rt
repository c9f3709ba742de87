//! The numbers of an answer's lines: job and machine numbers, times and values, each with its
//! range.
ghost use Rattle.std.specs.Prelude.{◌<◌, ◌≤◌, IfOk};
ghost use Rattle.tf_words.specs.Words.{words};
ghost use Rattle.tf_model.specs.Limit.{most_jobs, most_machines};
ghost use Rattle.tf_text.specs.AnswerReading.{Gives, count_in, time_in, only};

use crate::answer::fault::AnswerFault;
use tf_model::ids::{JobId, MachineId};
use tf_model::limit::{LIMIT, MOST_JOBS, MOST_MACHINES};
use tf_words::ranged::{Ranged, number_in};
use tf_words::word::first_word;

/// The greatest number of a job.
pub(crate) const MOST_JOB: u32 = MOST_JOBS as u32;

/// Reads a whole number from 1 to `most`.
pub(crate) fn count_in(line: u32, most: u32, word: &[u8]) -> Result<u32, AnswerFault>
    ensures read { Gives (λ n. n) result (count_in line most word.now) }
    ensures within { IfOk result (λ n. (0 < n) × (n ≤ most)) }
{
    match number_in(word, 1, i64::from(most)) {
        Ranged::NotANumber | Ranged::Below => Err(AnswerFault::BadLine(line)),
        Ranged::Above => Err(AnswerFault::NumberTooLarge(line)),
        Ranged::Within(count) => Ok(count as u32),
    }
}

/// Reads the number of a job.
pub(crate) fn job_in(line: u32, word: &[u8]) -> Result<JobId, AnswerFault>
    ensures { Gives (λ j. j) result (count_in line most_jobs word.now) }
{
    let number = count_in(line, MOST_JOB, word)?;
    Ok(JobId::new(number).unwrap())
}

/// Reads the number of a machine.
pub(crate) fn machine_in(line: u32, word: &[u8]) -> Result<MachineId, AnswerFault>
    ensures { Gives (λ i. i) result (count_in line most_machines word.now) }
{
    let number = count_in(line, MOST_MACHINES, word)?;
    Ok(MachineId::new(number).unwrap())
}

/// Reads a time, which may be negative: the judge refuses such a piece, and not the reader.
pub(crate) fn time_in(line: u32, word: &[u8]) -> Result<i64, AnswerFault>
    ensures { Gives (λ z. z) result (time_in line word.now) }
{
    match number_in(word, -LIMIT, LIMIT) {
        Ranged::NotANumber => Err(AnswerFault::BadLine(line)),
        Ranged::Below | Ranged::Above => Err(AnswerFault::NumberTooLarge(line)),
        Ranged::Within(time) => Ok(time),
    }
}

/// Returns the one word of the text.
pub(crate) fn only(line: u32, text: &[u8]) -> Result<&[u8], AnswerFault>
    ensures { Gives (λ w. w.now) result (only line (words text.now)) }
{
    match first_word(text) {
        None => Err(AnswerFault::BadLine(line)),
        Some((word, after)) => match first_word(after) {
            None => Ok(word),
            Some(_) => Err(AnswerFault::BadLine(line)),
        },
    }
}
