//! What the lines of a plan say, as members of a JSON object.
ghost use Rattle.std.specs.Prelude.{◌≡◌, ◌∷◌, [], OnOk};
ghost use Rattle.tf_words.specs.Words.{words};
ghost use Rattle.tf_export.specs.Plan.{bound_members, open_in, optimum, solved_in, uncertified};

use crate::json::Json;
use crate::line::behind_first;
use crate::members::{bound_list, is_bound_kind};
use std::alloc::Global;
use tf_model::memory::OutOfMemory;
use tf_words::word::{behind_key, first_word, is};

impl Json {
    ghost use Rattle.tf_export.specs.Adds.{Adds};

    /// Adds what a line of a plan says that has its gap and its bound in comments. Its own
    /// certificate shows nothing.
    pub(crate) fn open_in(
        &mut self,
        alloc: Global,
        line: &[u8],
        next: &[u8],
    ) -> Result<(), OutOfMemory>
        ensures { OnOk result (Adds self.old self.new (open_in (words line.now) (words next.now))) }
    {
        if let Some(row) = behind_key(line, b"##") {
            return self.line_members(alloc, row, b"");
        }
        if let Some(row) = behind_key(line, b"#") {
            return self.bound_members(alloc, row, behind_first(next));
        }
        self.uncertified(alloc, line, next)
    }

    /// Adds what a line of an answer says, unless it is its certificate.
    fn uncertified(&mut self, alloc: Global, line: &[u8], next: &[u8]) -> Result<(), OutOfMemory>
        ensures { OnOk result
            (Adds self.old self.new (uncertified (words line.now) (words next.now))) }
    {
        match behind_key(line, b"cert") {
            None => self.line_members(alloc, line, next),
            Some(_) => Ok(()),
        }
    }

    /// Adds the value or the certificate of the bound of a plan, if the line has it.
    fn bound_members(&mut self, alloc: Global, line: &[u8], next: &[u8]) -> Result<(), OutOfMemory>
        ensures { OnOk result
            (Adds self.old self.new (bound_members (words line.now) (words next.now))) }
    {
        let Some((key, row)) = first_word(line) else {
            return Ok(());
        };
        if is(key, b"value") {
            return self.said_member(alloc, b"bound", row);
        }
        if is_bound_kind(key, row) {
            return self.certificate(key, bound_list(key), row, next);
        }
        Ok(())
    }

    /// Adds what a line of an answer says. Its value is the optimum, so it is a bound too.
    pub(crate) fn solved_in(
        &mut self,
        alloc: Global,
        line: &[u8],
        next: &[u8],
    ) -> Result<(), OutOfMemory>
        ensures { OnOk result
            (Adds self.old self.new (solved_in (words line.now) (words next.now))) }
    {
        self.line_members(alloc, line, next)?;
        self.optimum(alloc, line)?;
        Ok(())
    }

    /// Adds the gap and the bound, if the line has the value.
    fn optimum(&mut self, alloc: Global, line: &[u8]) -> Result<(), OutOfMemory>
        ensures { OnOk result (Adds self.old self.new (optimum (words line.now))) }
    {
        let Some(row) = behind_key(line, b"value") else {
            return Ok(());
        };
        self.member(b"gap", b"0")?;
        self.said_member(alloc, b"bound", row)?;
        Ok(())
    }
}
