//! What is said on standard error, as JSON.
ghost use Rattle.std.specs.Prelude.{◌≡◌, ◌∷◌, ◌<◌, [], codes, length, IfOk, OnOk};
ghost use Rattle.tf_export.specs.Json.{string, member};
ghost use Rattle.tf_words.specs.Words.{words};
ghost use Rattle.tf_export.specs.Faults.{refused, refusal, fault, explanation, fault_members};
ghost use Rattle.tf_export.specs.Faults.{fault_json};

use crate::json::Json;
use crate::line::next_line;
use std::alloc::Global;
use tf_model::memory::OutOfMemory;
use tf_words::word::behind_key;

impl Json {
    ghost use Rattle.tf_export.specs.Adds.{Adds};

    fn refusal(&mut self, row: &[u8]) -> Result<(), OutOfMemory>
        ensures { OnOk result (Adds self.old self.new (refusal (words row.now))) }
    {
        self.fields(b"refusal", b"arguments", row)
    }

    // The refusal of the text of this name, from the words behind that.
    fn refused_text(&mut self, name: &[u8], row: &[u8]) -> Result<(), OutOfMemory>
        ensures { OnOk result (Adds self.old self.new
            (member (codes "text") (string name.now) ∷ refusal (words row.now))) }
    {
        self.string_member(b"text", name)?;
        self.refusal(row)?;
        Ok(())
    }

    fn refused(&mut self, row: &[u8]) -> Result<(), OutOfMemory>
        ensures { OnOk result (Adds self.old self.new (refused (words row.now))) }
    {
        if let Some(row) = behind_key(row, b"answer") {
            return self.refused_text(b"answer", row);
        }
        if let Some(row) = behind_key(row, b"bound") {
            return self.refused_text(b"bound", row);
        }
        self.refusal(row)
    }

    fn fault(&mut self, alloc: Global, row: &[u8]) -> Result<(), OutOfMemory>
        ensures { OnOk result (Adds self.old self.new (fault (words row.now))) }
    {
        match behind_key(row, b"refused:") {
            None => self.phrase_member(alloc, b"fault", row),
            Some(row) => self.refused(row),
        }
    }

    fn explanation(&mut self, text: &[u8]) -> Result<(), OutOfMemory>
        ensures { OnOk result (Adds self.old self.new (explanation text.now)) }
    {
        if text.is_empty() {
            return Ok(());
        }
        self.string_member(b"explanation", text)
    }

    fn fault_members(&mut self, alloc: Global, text: &[u8]) -> Result<(), OutOfMemory>
        requires { 0 < length text.now }
        ensures { OnOk result (Adds self.old self.new (fault_members text.now)) }
    {
        let (line, rest) = next_line(text);
        match behind_key(line, b"threefield:") {
            None => self.explanation(text),
            Some(row) => {
                self.fault(alloc, row)?;
                self.explanation(rest)?;
                Ok(())
            }
        }
    }
}

/// What is said of a fault, and an explanation, as one JSON object on a line of its own, with the
/// number of its instance where it is about one of several. Of an empty text nothing is said.
///
/// # Errors
///
/// There was no memory.
pub fn fault_json(alloc: Global, instance: Option<u32>, text: &[u8]) -> Result<Vec<u8>, OutOfMemory>
    ensures { IfOk result (λ json. json.items ≡ fault_json instance text.now) }
{
    let mut json = Json::new(alloc);
    if text.is_empty() {
        return Ok(json.into_text());
    }
    json.enter(b'{')?;
    json.heading(instance)?;
    json.fault_members(alloc, text)?;
    json.push(b"}\n")?;
    Ok(json.into_text())
}
