//! Where the reading of an answer text stands: which line is wanted next.
ghost use Rattle.std.specs.Prelude.{◌≡◌, ◌+◌, ◌<◌, ◌≤◌, ◌∷◌, [], ℕ, List, Result, codes};
ghost use Rattle.std.specs.Prelude.{MatchResult, IfOk};
ghost use Rattle.tf_model.specs.Limit.{most_machines};
ghost use Rattle.tf_words.specs.Words.{words, KeptLine, is_kept, kept_lines};
ghost use Rattle.tf_words.specs.Lines.{line_of};
ghost use Rattle.tf_text.specs.AnswerText.{SheetData};
ghost use Rattle.tf_text.specs.AnswerReading.{Gives, Fails, version_in, heading_in, is_exactly};
ghost use Rattle.tf_text.specs.AnswerReading.{problem_in, word_behind, count_line, value_line};
ghost use Rattle.tf_text.specs.AnswerStage.{head_of, from_end, Leads};
ghost use Rattle.tf_text.specs.declared.answer.fault.AnswerFault.{AnswerFault};

use crate::answer::claim::certificate_in;
use crate::answer::fault::AnswerFault;
use crate::answer::field::{MOST_JOB, count_in, only};
use crate::answer::head::Head;
use crate::answer::layout::Layout;
use crate::answer::pieces::piece_in;
use crate::answer::sheet::Sheet;
use std::alloc::Allocator;
use std::mem;
use tf_check::answer::Answer;
use tf_model::limit::MOST_MACHINES;
use tf_model::problem::Problem;
use tf_notation::reading::read;
use tf_schedule::piece::Piece;
use tf_schedule::piece_list::PieceList;
use tf_words::line::{Line, after_word, is_kept, without_return};
use tf_words::ranged::{Ranged, number_in};
use tf_words::word::{behind_key, first_word, is};

/// The line that is wanted next, and what the lines before it say.
#[derive(Drop)]
pub(crate) enum Stage<A: Allocator> {
    Heading,
    Problem(Layout),
    Jobs(Layout, Problem),
    Machines(Layout, Problem, u32),
    Value(Head),
    /// A line of a piece, or the certificate.
    Pieces(Head, i64, Vec<Piece, A>),
    End(Head, Answer<A>),
    /// None.
    Over(Head, Answer<A>),
    /// A fault was met, or a growth was refused.
    Failed(AnswerFault),
}

/// Returns the one word after the line's key.
#[tactic(auto, unfolding(crate::specs::AnswerReading::word_behind))]
fn word_behind<'a>(line: &Line<'a>, key: &[u8]) -> Result<&'a [u8], AnswerFault>
    ensures { Gives (λ w. w.now) result (word_behind key.now (line_of line.now)) }
{
    match behind_key(line.bytes, key) {
        None => Err(AnswerFault::BadLine(line.number)),
        Some(after) => only(line.number, after),
    }
}

/// Reads the line `problem`.
#[tactic(auto, unfolding(crate::specs::AnswerReading::problem_in))]
fn problem_in(line: &Line<'_>) -> Result<Problem, AnswerFault>
    ensures { Gives (λ p. p) result (problem_in (line_of line.now)) }
{
    if behind_key(line.bytes, b"problem").is_none() {
        return Err(AnswerFault::BadLine(line.number));
    }
    match read(without_return(after_word(line.bytes))) {
        Ok(problem) => Ok(problem),
        Err(_) => Err(AnswerFault::BadNotation),
    }
}

/// Returns the version that the heading names.
fn version_in(text: &[u8]) -> Option<Layout>
    ensures { result ≡ version_in (words text.now) }
{
    let (first, after) = first_word(text)?;
    let (version, after) = first_word(after)?;
    if !is(first, b"answer") || first_word(after).is_some() {
        None
    } else if is(version, b"1") {
        Some(Layout::One)
    } else if is(version, b"2") {
        Some(Layout::Two)
    } else {
        None
    }
}

/// Whether the line is `end`.
fn is_end(text: &[u8]) -> bool
    ensures { result ≡ is_exactly (codes "end" ∷ []) (words text.now) }
{
    match first_word(text) {
        None => false,
        Some((first, after)) => is(first, b"end") && first_word(after).is_none(),
    }
}

/// Reads the heading.
fn heading_in(line: &Line<'_>) -> Result<Layout, AnswerFault>
    ensures { Gives (λ l. l) result (heading_in (line_of line.now)) }
{
    version_in(line.bytes).ok_or(AnswerFault::BadLine(line.number))
}

/// Reads a line of a key and a number from 1 to `most`.
fn count_line(line: &Line<'_>, key: &[u8], most: u32) -> Result<u32, AnswerFault>
    ensures read { Gives (λ n. n) result (count_line key.now most (line_of line.now)) }
    ensures within { IfOk result (λ n. (0 < n) × (n ≤ most)) }
{
    let word = word_behind(line, key)?;
    count_in(line.number, most, word)
}

/// Reads the line `value`, of any whole number of 64 bits.
fn value_line(line: &Line<'_>) -> Result<i64, AnswerFault>
    ensures { Gives (λ z. z) result (value_line (line_of line.now)) }
{
    match number_in(word_behind(line, b"value")?, i64::MIN, i64::MAX) {
        Ranged::NotANumber => Err(AnswerFault::BadLine(line.number)),
        Ranged::Below | Ranged::Above => Err(AnswerFault::NumberTooLarge(line.number)),
        Ranged::Within(value) => Ok(value),
    }
}

impl<A: Allocator + Copy> Stage<A> {
    /// Behind a line that is wanted as that of a piece or the certificate.
    fn behind_piece(
        alloc: A,
        head: Head,
        value: i64,
        mut pieces: Vec<Piece, A>,
        line: &Line<'_>,
    ) -> Result<Self, AnswerFault>
        ensures { (more : List KeptLine) (total : Result SheetData AnswerFault) →
            Leads (Stage.Pieces head value pieces) (line_of line.now ∷ more) total →
            MatchResult result (λ s. Leads s more total) (λ e. Fails e total) }
    {
        if let Some(words) = behind_key(line.bytes, b"piece") {
            pieces.push(piece_in(line.number, words)?)?;
            return Ok(Stage::Pieces(head, value, pieces));
        }
        let certificate = certificate_in(alloc, head.layout, line)?;
        let answer = Answer {
            pieces: PieceList::new(pieces),
            value,
            certificate,
        };
        Ok(Stage::End(head, answer))
    }

    /// Behind a line that is wanted as the last.
    fn behind_answer(head: Head, answer: Answer<A>, line: &Line<'_>) -> Self
        ensures { (more : List KeptLine) (total : Result SheetData AnswerFault) →
            from_end (head_of head) answer (line_of line.now ∷ more) ≡ total →
            Leads result more total }
    {
        if is_end(line.bytes) {
            Stage::Over(head, answer)
        } else {
            Stage::Failed(AnswerFault::BadLine(line.number))
        }
    }

    /// Behind the wanted line.
    fn behind(self, alloc: A, line: &Line<'_>) -> Self
        ensures { (more : List KeptLine) (total : Result SheetData AnswerFault) →
            Leads self (line_of line.now ∷ more) total → Leads result more total }
    {
        match self {
            Stage::Heading => match heading_in(line) {
                Ok(layout) => Stage::Problem(layout),
                Err(fault) => Stage::Failed(fault),
            },
            Stage::Problem(layout) => match problem_in(line) {
                Ok(problem) => Stage::Jobs(layout, problem),
                Err(fault) => Stage::Failed(fault),
            },
            Stage::Jobs(layout, problem) => match count_line(line, b"jobs", MOST_JOB) {
                Ok(jobs) => Stage::Machines(layout, problem, jobs),
                Err(fault) => Stage::Failed(fault),
            },
            Stage::Machines(layout, problem, jobs) => {
                match count_line(line, b"machines", MOST_MACHINES) {
                    Ok(machines) => Stage::Value(Head {
                        layout,
                        problem,
                        jobs,
                        machines,
                    }),
                    Err(fault) => Stage::Failed(fault),
                }
            }
            Stage::Value(head) => match value_line(line) {
                Ok(value) => Stage::Pieces(head, value, Vec::new(alloc)),
                Err(fault) => Stage::Failed(fault),
            },
            Stage::Pieces(head, value, pieces) => {
                Stage::after(Stage::behind_piece(alloc, head, value, pieces, line))
            }
            Stage::End(head, answer) => Stage::behind_answer(head, answer, line),
            Stage::Over(..) => Stage::Failed(AnswerFault::BadLine(line.number)),
            Stage::Failed(fault) => Stage::Failed(fault),
        }
    }

    /// Behind a line that was read.
    fn after(read: Result<Self, AnswerFault>) -> Self
        ensures { (more : List KeptLine) (total : Result SheetData AnswerFault) →
            MatchResult read (λ s. Leads s more total) (λ e. Fails e total) →
            Leads result more total }
    {
        match read {
            Ok(stage) => stage,
            Err(fault) => Stage::Failed(fault),
        }
    }

    /// Reads a line of this number.
    pub(crate) fn read_line(&mut self, alloc: A, number: u32, bytes: &[u8])
        ensures { (more : List (List ℕ)) (total : Result SheetData AnswerFault) →
            Leads self.old (kept_lines number (bytes.now ∷ more)) total →
            Leads self.new (kept_lines (number + 1) more) total }
    {
        if is_kept(bytes) {
            let line = Line { number, bytes };
            *self = mem::replace(self, Stage::Heading).behind(alloc, &line);
        }
    }

    /// The sheet that the text says, where it ends here, or its first fault.
    pub(crate) fn ended(self) -> Result<Sheet<A>, AnswerFault>
        ensures read { (total : Result SheetData AnswerFault) → Leads self [] total →
            Gives (λ s. s) result total }
        ensures machines { IfOk result (λ s. (0 < s.machines) × (s.machines ≤ most_machines)) }
    {
        match self {
            Stage::Over(head, answer) => Ok(Sheet {
                problem: head.problem,
                jobs: head.jobs,
                machines: head.machines,
                answer,
            }),
            Stage::Failed(fault) => Err(fault),
            _ => Err(AnswerFault::EndsEarly),
        }
    }
}
