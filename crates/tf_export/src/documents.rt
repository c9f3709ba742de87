//! What the commands print, as JSON.
ghost use Rattle.std.specs.Prelude.{◌≡◌, ◌∷◌, ◌++◌, [], drop, take, length, map, IfOk, OnOk};
ghost use Rattle.tf_words.specs.Words.{words, lines};
ghost use Rattle.tf_export.specs.Members.{record_of, row_in};
ghost use Rattle.tf_export.specs.Csv.{column_names, row_key};
ghost use Rattle.tf_export.specs.Documents.{document_members, json_of, part_in, parts, parts_array};
ghost use Rattle.tf_export.specs.Documents.{step_in, problem_in};
ghost use Rattle.tf_export.specs.Documents.{members_behind, answer_members, evaluation_members};
ghost use Rattle.tf_export.specs.Documents.{command_member, known_in, mark_in, orders_members};
ghost use Rattle.tf_export.specs.Orders.{order_in};
ghost use Rattle.tf_export.specs.Documents.{part_of_plan, parts_object, plan_members};
ghost use Rattle.tf_export.specs.Documents.{unknown, unknown_member};

use crate::csv::Table;
use crate::json::Json;
use crate::line::{behind_heading, count_words, first_of, has_line, next_line, row_in};
use crate::tally::summary_of;
use std::alloc::Global;
use tf_model::memory::OutOfMemory;
use tf_words::word::{behind_key, first_word};

/// What a command prints.
#[derive(Clone, Copy, Debug, PartialEq, Eq)]
pub enum Document {
    /// An answer, in version 1, which names each job of a certificate.
    Answer,
    /// A lower bound.
    Bound,
    /// An evaluation.
    Evaluation,
    /// The verdict of a check.
    Verdict,
    /// The list of the problems that are solved.
    Problems,
    /// A plan: an answer, and in comments how far it is from a lower bound, and the bound.
    Plan,
    /// The list of which problems are polynomial and which NP-hard.
    Border,
    /// Lines of orders with their numbers, behind a line of the optimum or the lower bound.
    Orders,
}

/// What is taken of each line of a text.
#[derive(Clone, Copy, Debug, PartialEq, Eq)]
pub(crate) enum Part {
    /// What it says, as members.
    Members,
    /// A step of a certificate's arithmetic.
    Step,
    /// A problem of the list.
    Problem,
    /// A row of a table, as an object.
    Row(Table),
    /// What a line of a plan says, with its bound in comments, as members.
    Open,
    /// What a line of a plan says that a solver has found, as members.
    Solved,
    /// A problem of the list of which are polynomial.
    Known,
    /// What an order comes to.
    Order,
    /// A count of a summary, as a member.
    Mark,
}

/// The names of what stands in a line of a piece.
pub(crate) const PIECE_NAMES: &[u8] = b"job machine start stop";

/// The names of what stands in a line of a job in an evaluation.
pub(crate) const OUTCOME_NAMES: &[u8] = b"job start completion cost";

/// The first bytes of a line, at most so many, and those behind them.
fn cut(line: &[u8], width: usize) -> (&[u8], &[u8])
    ensures front { result.0.now ≡ take width line.now }
    ensures behind { result.1.now ≡ drop width line.now }
{
    if width < line.len() {
        line.split_at(width)
    } else {
        (line, &[])
    }
}

/// What is taken of each line of a plan: whether a solver has found it, or it has a bound.
fn part_of_plan(text: &[u8]) -> Part
    ensures { result ≡ part_of_plan (lines text.now) }
{
    if has_line(text, b"##") {
        Part::Open
    } else {
        Part::Solved
    }
}

impl Json {
    ghost use Rattle.tf_export.specs.Adds.{Adds};

    /// Adds a row of a table as an object, if the line is one.
    fn row_in(&mut self, table: Table, line: &[u8]) -> Result<(), OutOfMemory>
        ensures { OnOk result (Adds self.old self.new (map (record_of (column_names table))
            (row_in (row_key table) (length (words (column_names table))) (words line.now)))) }
    {
        let names = table.column_names();
        match row_in(line, table.row_key(), count_words(names)) {
            None => Ok(()),
            Some(row) => self.record(names, row),
        }
    }

    fn step_in(&mut self, alloc: Global, line: &[u8]) -> Result<(), OutOfMemory>
        ensures { OnOk result (Adds self.old self.new (step_in (words line.now))) }
    {
        match behind_key(line, b"step") {
            None => Ok(()),
            Some(row) => self.phrase(alloc, row),
        }
    }

    /// Adds a line of the list of problems as an object.
    fn problem_in(&mut self, alloc: Global, line: &[u8]) -> Result<(), OutOfMemory>
        ensures { OnOk result (Adds self.old self.new (problem_in line.now ∷ [])) }
    {
        let (notation, behind) = cut(line, 17);
        let (needs, objective) = cut(behind, 13);
        self.begin()?;
        self.enter(b'{')?;
        self.phrase_member(alloc, b"problem", notation)?;
        self.phrase_member(alloc, b"needs", needs)?;
        self.phrase_member(alloc, b"objective", objective)?;
        self.leave(b'}')?;
        Ok(())
    }

    /// Adds a line of the list of which problems are polynomial as an object.
    fn known_in(&mut self, alloc: Global, line: &[u8]) -> Result<(), OutOfMemory>
        ensures { OnOk result (Adds self.old self.new (known_in line.now ∷ [])) }
    {
        let (notation, behind) = cut(line, 20);
        let (complexity, more) = cut(behind, 12);
        let (command, source) = cut(more, 7);
        self.begin()?;
        self.enter(b'{')?;
        self.phrase_member(alloc, b"problem", notation)?;
        self.phrase_member(alloc, b"complexity", complexity)?;
        self.command_member(alloc, command)?;
        self.phrase_member(alloc, b"source", source)?;
        self.leave(b'}')?;
        Ok(())
    }

    /// Adds the command that has schedules, if one does.
    fn command_member(&mut self, alloc: Global, command: &[u8]) -> Result<(), OutOfMemory>
        ensures { OnOk result (Adds self.old self.new (command_member (words command.now) ∷ [])) }
    {
        match behind_key(command, b"-") {
            None => self.phrase_member(alloc, b"command", command),
            Some(_) => self.member(b"command", b"null"),
        }
    }

    /// Adds a count of a summary, if the line is one.
    fn mark_in(&mut self, line: &[u8]) -> Result<(), OutOfMemory>
        ensures { OnOk result (Adds self.old self.new (mark_in (words line.now))) }
    {
        match behind_key(line, b"#") {
            None => Ok(()),
            Some(row) => self.named_value(row),
        }
    }

    /// Adds what is taken of a line and of the next one.
    fn part(
        &mut self,
        alloc: Global,
        part: Part,
        line: &[u8],
        next: &[u8],
    ) -> Result<(), OutOfMemory>
        ensures { OnOk result (Adds self.old self.new (part_in part line.now next.now)) }
    {
        match part {
            Part::Members => self.line_members(alloc, line, next),
            Part::Step => self.step_in(alloc, line),
            Part::Problem => self.problem_in(alloc, line),
            Part::Row(table) => self.row_in(table, line),
            Part::Open => self.open_in(alloc, line, next),
            Part::Solved => self.solved_in(alloc, line, next),
            Part::Known => self.known_in(alloc, line),
            Part::Order => self.order_in(alloc, line),
            Part::Mark => self.mark_in(line),
        }
    }

    /// Adds what is taken of each line.
    fn parts(&mut self, alloc: Global, part: Part, text: &[u8]) -> Result<(), OutOfMemory>
        ensures { OnOk result (Adds self.old self.new (parts part (lines text.now))) }
    {
        let mut rest = text;
        while !rest.is_empty() {
            let (line, more) = next_line(rest);
            self.part(alloc, part, line, first_of(more))?;
            rest = more;
        }
        Ok(())
    }

    /// Adds a member with what is taken of each line as an array.
    fn parts_array(
        &mut self,
        alloc: Global,
        name: &[u8],
        part: Part,
        text: &[u8],
    ) -> Result<(), OutOfMemory>
        ensures { OnOk result
            (Adds self.old self.new (parts_array name.now part (lines text.now) ∷ [])) }
    {
        self.name(name)?;
        self.enter(b'[')?;
        self.parts(alloc, part, text)?;
        self.leave(b']')?;
        Ok(())
    }

    /// Adds a member with what is taken of each line as an object.
    fn parts_object(
        &mut self,
        alloc: Global,
        name: &[u8],
        part: Part,
        text: &[u8],
    ) -> Result<(), OutOfMemory>
        ensures { OnOk result
            (Adds self.old self.new (parts_object name.now part (lines text.now) ∷ [])) }
    {
        self.name(name)?;
        self.enter(b'{')?;
        self.parts(alloc, part, text)?;
        self.leave(b'}')?;
        Ok(())
    }

    /// Adds what the lines behind the heading of a text say.
    fn members_behind(&mut self, alloc: Global, text: &[u8]) -> Result<(), OutOfMemory>
        ensures { OnOk result (Adds self.old self.new (members_behind text.now)) }
    {
        self.parts(alloc, Part::Members, behind_heading(text))
    }

    /// Adds `null` for each name that begins no line.
    fn unknown(&mut self, names: &[u8], text: &[u8]) -> Result<(), OutOfMemory>
        ensures { OnOk result
            (Adds self.old self.new (unknown (words names.now) (lines text.now))) }
    {
        let mut left = names;
        while let Some((name, more)) = first_word(left) {
            self.unknown_member(name, text)?;
            left = more;
        }
        Ok(())
    }

    fn unknown_member(&mut self, name: &[u8], text: &[u8]) -> Result<(), OutOfMemory>
        ensures { OnOk result (Adds self.old self.new (unknown_member name.now (lines text.now))) }
    {
        if has_line(text, name) {
            return Ok(());
        }
        self.member(name, b"null")
    }

    /// Adds an answer.
    fn answer_members(&mut self, alloc: Global, text: &[u8]) -> Result<(), OutOfMemory>
        ensures { OnOk result (Adds self.old self.new (answer_members text.now)) }
    {
        self.members_behind(alloc, text)?;
        self.parts_array(alloc, b"pieces", Part::Row(Table::Pieces), text)?;
        Ok(())
    }

    /// Adds an evaluation.
    fn evaluation_members(&mut self, alloc: Global, text: &[u8]) -> Result<(), OutOfMemory>
        ensures { OnOk result (Adds self.old self.new (evaluation_members text.now)) }
    {
        self.members_behind(alloc, text)?;
        self.unknown(b"claimed value best gap bound", text)?;
        self.parts_array(alloc, b"steps", Part::Step, text)?;
        self.parts_array(alloc, b"outcomes", Part::Row(Table::Outcomes), text)?;
        Ok(())
    }

    /// Adds a plan.
    fn plan_members(&mut self, alloc: Global, text: &[u8]) -> Result<(), OutOfMemory>
        ensures { OnOk result (Adds self.old self.new (plan_members text.now)) }
    {
        let part = part_of_plan(text);
        self.parts(alloc, part, behind_heading(text))?;
        self.parts_array(alloc, b"pieces", Part::Row(Table::Pieces), text)?;
        Ok(())
    }

    /// Adds orders: the optimum or the bound, how many are optimal and how many are wrong, and
    /// what each comes to.
    fn orders_members(&mut self, alloc: Global, text: &[u8]) -> Result<(), OutOfMemory>
        ensures { OnOk result (Adds self.old self.new (orders_members text.now)) }
    {
        let summary = summary_of(alloc, text)?;
        self.line_members(alloc, first_of(text), b"")?;
        self.unknown(b"best bound", text)?;
        self.parts_object(alloc, b"summary", Part::Mark, summary.as_slice())?;
        self.parts_array(alloc, b"orders", Part::Order, behind_heading(text))?;
        Ok(())
    }

    /// Adds the members of a document.
    fn document_members(
        &mut self,
        alloc: Global,
        document: Document,
        text: &[u8],
    ) -> Result<(), OutOfMemory>
        ensures { OnOk result (Adds self.old self.new (document_members document text.now)) }
    {
        match document {
            Document::Answer => self.answer_members(alloc, text),
            Document::Bound => self.members_behind(alloc, text),
            Document::Evaluation => self.evaluation_members(alloc, text),
            Document::Verdict => self.parts(alloc, Part::Members, text),
            Document::Problems => {
                self.parts_array(alloc, b"problems", Part::Problem, behind_heading(text))
            }
            Document::Plan => self.plan_members(alloc, text),
            Document::Border => {
                self.parts_array(alloc, b"problems", Part::Known, behind_heading(text))
            }
            Document::Orders => self.orders_members(alloc, text),
        }
    }
}

/// A document, which is the text that a command printed, as one JSON object on a line of its own,
/// with the number of its instance where it is about one of several.
///
/// # Errors
///
/// There was no memory.
pub fn json(
    alloc: Global,
    document: Document,
    instance: Option<u32>,
    text: &[u8],
) -> Result<Vec<u8>, OutOfMemory>
    ensures { IfOk result (λ json. json.items ≡ json_of document instance text.now) }
{
    let mut json = Json::new(alloc);
    json.enter(b'{')?;
    json.heading(instance)?;
    json.document_members(alloc, document, text)?;
    json.push(b"}\n")?;
    Ok(json.into_text())
}
