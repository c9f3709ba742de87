//! Job and arc lines in their usual form: one blank between the words, digits, those of a due date
//! maybe behind a minus, and a line feed, maybe behind a carriage return.
//!
//! They are read in one pass. Where one of these functions gives nothing, the line has another
//! form, and nothing is said of it.
ghost use Rattle.std.specs.Prelude.{◌≡◌, ◌++◌, ◌∷◌, ◌<◌, ℕ, List, Ok, true, not, length, IfSome};
ghost use Rattle.std.specs.List.{list_all};
ghost use Rattle.tf_words.specs.Number.{number};
ghost use Rattle.tf_words.specs.Words.{is_white, lines};
ghost use Rattle.tf_words.specs.Lines.{word_lines_of};
ghost use Rattle.tf_words.specs.FirstLine.{IsWordBefore, line_words, lines_behind};
ghost use Rattle.tf_read.specs.Faults.{integer};
ghost use Rattle.tf_read.specs.JobLine.{times_at, field_at, fields_at, no_fields};
ghost use Rattle.tf_read.specs.NextJob.{BeginsWithJob};
ghost use Rattle.tf_read.specs.NextArc.{BeginsWithArc};

use crate::field::Fields;
use std::alloc::Allocator;
use tf_model::ids::JobId;
use tf_model::job::{Job, Times};
use tf_model::limit::{MOST_ARCS, MOST_JOBS};
use tf_words::first_line::{
    behind_first_key, behind_line_feed, digits_first, is_over, next_number, next_plain,
};
use tf_words::line::Lines;

/// The times with which a text begins, and what follows them.
fn times_first(text: &[u8]) -> Option<(Times, &[u8])>
    ensures { IfSome result (λ x. (value : List ℕ)
        × ((line : ℕ) → times_at line value ≡ Ok x.0)
        × (text.now ≡ value ++ x.1.now)
        × (list_all (λ b. not (is_white b)) value ≡ true)) }
{
    let (first, rest) = digits_first(text)?;
    let [b',', from @ ..] = rest else {
        return Some((Times::One(first as i64), rest));
    };
    let (second, rest) = digits_first(from)?;
    Some((Times::Two(first as i64, second as i64), rest))
}

/// The number with which a text begins, behind a minus or not, and what follows it.
fn signed_first(text: &[u8]) -> Option<(i64, &[u8])>
    ensures { IfSome result (λ x. (value : List ℕ)
        × ((line : ℕ) → integer line (number value) ≡ Ok x.0)
        × (text.now ≡ value ++ x.1.now)
        × (list_all (λ b. not (is_white b)) value ≡ true)) }
{
    if let [b'-', digits @ ..] = text {
        let (size, rest) = digits_first(digits)?;
        return Some((-(size as i64), rest));
    }
    let (size, rest) = digits_first(text)?;
    Some((size as i64, rest))
}

impl<A: Allocator> Fields<A> {
    /// With the field of this key, of which the value begins the text; what follows that.
    #[inline(always)]
    fn add_value<'a>(&mut self, key: u8, text: &'a [u8]) -> Option<&'a [u8]>
        ensures { IfSome result (λ rest. (value : List ℕ)
            × ((line : ℕ) → field_at line self.old (key ∷ 61 ∷ value) ≡ Ok self.new)
            × (text.now ≡ value ++ rest.now)
            × (list_all (λ b. not (is_white b)) (key ∷ 61 ∷ value) ≡ true)) }
    {
        if key == b'p' && self.times.is_none() {
            let (times, rest) = times_first(text)?;
            self.times = Some(times);
            return Some(rest);
        }
        if key == b'd' && self.due.is_none() {
            let (due, rest) = signed_first(text)?;
            self.due = Some(due);
            return Some(rest);
        }
        let (number, rest) = digits_first(text)?;
        if key == b'w' && self.weight.is_none() {
            self.weight = Some(number as i64);
            return Some(rest);
        }
        if key == b'r' && self.release.is_none() {
            self.release = Some(number as i64);
            return Some(rest);
        }
        None
    }

    /// With the field behind one blank; what follows that.
    #[inline(always)]
    fn add_next<'a>(&mut self, text: &'a [u8]) -> Option<&'a [u8]>
        ensures { IfSome result (λ rest. (word : List ℕ)
            × ((line : ℕ) → field_at line self.old word ≡ Ok self.new)
            × IsWordBefore text.now word rest.now) }
    {
        let [b' ', key, b'=', value @ ..] = text else {
            return None;
        };
        let rest = self.add_value(*key, value)?;
        if is_over(rest) { Some(rest) } else { None }
    }
}

/// The job that the fields of the rest of a line are, and the text behind the line.
#[inline(always)]
fn job_first<A: Allocator>(text: &[u8]) -> Option<(Job<A>, &[u8])>
    ensures job { IfSome result (λ x. (line : ℕ) →
        fields_at line no_fields (line_words text.now) ≡ Ok x.0) }
    ensures behind { IfSome result (λ x. lines_behind text.now ≡ lines x.1.now) }
    ensures shorter { IfSome result (λ x. length x.1.now < length text.now) }
{
    let mut fields = Fields::none();
    let mut rest = text;
    loop {
        if let Some(behind) = behind_line_feed(rest) {
            let times = fields.times?;
            let job = Job {
                times,
                weight: fields.weight,
                due: fields.due,
                release: fields.release,
                cost: fields.cost,
            };
            return Some((job, behind));
        }
        rest = fields.add_next(rest)?;
    }
}

/// Job k, of which the first line that is left is one, and the lines behind that.
#[inline(always)]
pub(crate) fn usual_job<'a, A: Allocator>(k: u32, lines: &Lines<'a>) -> Option<(Job<A>, Lines<'a>)>
    ensures { IfSome result (λ x.
        BeginsWithJob k (word_lines_of lines.now) x.0 (word_lines_of x.1)) }
{
    let text = behind_first_key(lines.bytes_left(), b"job")?;
    let (number, fields) = next_plain(text, MOST_JOBS as u32)?;
    if number != k {
        return None;
    }
    let (job, rest) = job_first(fields)?;
    Some((job, lines.behind_first(rest)))
}

/// Arc k, of which the first line that is left is one, and the lines behind that.
pub(crate) fn usual_arc<'a>(
    jobs: u32,
    k: usize,
    lines: &Lines<'a>,
) -> Option<((JobId, JobId), Lines<'a>)>
    ensures { IfSome result (λ x.
        BeginsWithArc jobs k (word_lines_of lines.now) x.0 (word_lines_of x.1)) }
{
    let text = behind_first_key(lines.bytes_left(), b"prec")?;
    let (first, text) = next_number(text)?;
    let (second, text) = next_number(text)?;
    let rest = behind_line_feed(text)?;
    let most = u64::from(jobs);
    if k > MOST_ARCS || first > most || second > most {
        return None;
    }
    let arc = (JobId::new(first as u32)?, JobId::new(second as u32)?);
    Some((arc, lines.behind_first(rest)))
}
