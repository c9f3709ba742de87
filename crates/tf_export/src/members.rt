//! What a line of words says, as members of a JSON object.
ghost use Rattle.std.specs.Prelude.{◌≡◌, ◌∷◌, [], codes, length, OnOk};
ghost use Rattle.tf_words.specs.Words.{words};
ghost use Rattle.tf_export.specs.Members.{certificate_names, answer_list, bound_list, certificate};
ghost use Rattle.tf_export.specs.Members.{arc_members, answer_certificate, is_bound_kind};
ghost use Rattle.tf_export.specs.Members.{is_plain_key, verdict, verdict_members, keyed_members};
ghost use Rattle.tf_export.specs.Members.{line_members, bounding_members, fault_name, named_value};

use crate::json::Json;
use crate::line::count_words;
use crate::value::is_number;
use std::alloc::Global;
use tf_model::memory::OutOfMemory;
use tf_words::word::{behind_key, first_word, is};

/// The names of a certificate's first words, by its kind.
fn certificate_names(kind: &[u8]) -> &'static [u8]
    ensures { result.now ≡ certificate_names kind.now }
{
    if is(kind, b"split") {
        return b"side delta";
    }
    if is(kind, b"machine") {
        return b"machine";
    }
    if is(kind, b"job") {
        return b"job";
    }
    if is(kind, b"crowd") {
        return b"jobs_per_machine";
    }
    if is(kind, b"multipliers") {
        return b"machine denominator";
    }
    if is(kind, b"prices") {
        return b"denominator";
    }
    if is(kind, b"prices_on") {
        return b"machine denominator";
    }
    if is(kind, b"pair") {
        return b"first_machine second_machine side delta";
    }
    if is(kind, b"parts") {
        return b"from until late";
    }
    if is(kind, b"potentials") {
        return b"end";
    }
    b""
}

/// The name of the list of an answer's certificate.
fn answer_list(kind: &[u8]) -> &'static [u8]
    ensures { result.now ≡ answer_list kind.now }
{
    if is(kind, b"last") || is(kind, b"window") || is(kind, b"split") || is(kind, b"ranks") {
        return b"jobs";
    }
    b""
}

/// The name of the list of a bound's certificate.
pub(crate) fn bound_list(kind: &[u8]) -> &'static [u8]
    ensures { result.now ≡ bound_list kind.now }
{
    if is(kind, b"multipliers") || is(kind, b"prices") || is(kind, b"prices_on") {
        return b"numerators";
    }
    if is(kind, b"potentials") {
        return b"potentials";
    }
    if is(kind, b"job") || is(kind, b"alone") {
        return b"";
    }
    b"jobs"
}

/// Whether a line is the certificate of a bound.
pub(crate) fn is_bound_kind(key: &[u8], row: &[u8]) -> bool
    ensures { result ≡ is_bound_kind key.now (words row.now) }
{
    is(key, b"machine")
        || is(key, b"window")
        || is(key, b"crowd")
        || is(key, b"multipliers")
        || is(key, b"prices")
        || is(key, b"prices_on")
        || is(key, b"kept")
        || is(key, b"shortest")
        || is(key, b"ranks")
        || is(key, b"pair")
        || is(key, b"parts")
        || is(key, b"potentials")
        || (is(key, b"job") && count_words(row) == 1)
        || (is(key, b"alone") && count_words(row) == 0)
}

/// Whether a line of this key says one thing.
fn is_plain_key(key: &[u8]) -> bool
    ensures { result ≡ is_plain_key key.now }
{
    is(key, b"problem")
        || is(key, b"jobs")
        || is(key, b"machines")
        || is(key, b"value")
        || is(key, b"claimed")
        || is(key, b"best")
        || is(key, b"gap")
}

/// The name of the fault of a line that says a bound, or why there is none.
fn fault_name(key: &[u8]) -> &'static [u8]
    ensures { result.now ≡ fault_name key.now }
{
    if is(key, b"offered") {
        return b"offered_fault";
    }
    b"bound_fault"
}

impl Json {
    ghost use Rattle.tf_export.specs.Adds.{Adds};

    /// Adds the numerators of the arcs, where the line behind multipliers has them.
    fn arc_members(&mut self, kind: &[u8], next: &[u8]) -> Result<(), OutOfMemory>
        ensures { OnOk result (Adds self.old self.new (arc_members kind.now (words next.now))) }
    {
        if !is(kind, b"multipliers") {
            return Ok(());
        }
        match behind_key(next, b"arcs") {
            None => Ok(()),
            Some(row) => self.scalars_member(b"arcs", row),
        }
    }

    /// Adds a certificate by its kind, the name of its list, its other words and the next line.
    pub(crate) fn certificate(
        &mut self,
        kind: &[u8],
        list: &[u8],
        row: &[u8],
        next: &[u8],
    ) -> Result<(), OutOfMemory>
        ensures { OnOk result (Adds self.old self.new
            (certificate kind.now list.now (words row.now) (words next.now) ∷ [])) }
    {
        self.name(b"certificate")?;
        self.enter(b'{')?;
        self.string_member(b"kind", kind)?;
        self.fields(certificate_names(kind), list, row)?;
        self.arc_members(kind, next)?;
        self.leave(b'}')?;
        Ok(())
    }

    fn answer_certificate(&mut self, row: &[u8]) -> Result<(), OutOfMemory>
        ensures { OnOk result (Adds self.old self.new (answer_certificate (words row.now))) }
    {
        match first_word(row) {
            None => Ok(()),
            Some((kind, row)) => self.certificate(kind, answer_list(kind), row, b""),
        }
    }

    /// Adds a verdict: whether it is a good one, and if not the fault and its arguments.
    fn verdict(
        &mut self,
        name: &[u8],
        value: &[u8],
        fault: &[u8],
        row: &[u8],
    ) -> Result<(), OutOfMemory>
        ensures { OnOk result
            (Adds self.old self.new (verdict name.now value.now fault.now (words row.now))) }
    {
        self.member(name, value)?;
        self.fields(fault, b"arguments", row)?;
        Ok(())
    }

    /// Adds a bound, or `null` and why there is none.
    fn bounding_members(&mut self, alloc: Global, key: &[u8], row: &[u8]) -> Result<(), OutOfMemory>
        ensures { OnOk result
            (Adds self.old self.new (bounding_members key.now (words row.now))) }
    {
        if is_number(row) {
            return self.said_member(alloc, key, row);
        }
        self.member(key, b"null")?;
        self.phrase_member(alloc, fault_name(key), row)?;
        Ok(())
    }

    fn verdict_members(&mut self, key: &[u8], row: &[u8]) -> Result<(), OutOfMemory>
        ensures { OnOk result (Adds self.old self.new (verdict_members key.now (words row.now))) }
    {
        if is(key, b"fits") {
            return self.member(b"fits", b"true");
        }
        if is(key, b"misfit") {
            return self.verdict(b"fits", b"false", b"misfit", row);
        }
        if is(key, b"accepted") {
            return self.member(b"accepted", b"true");
        }
        if is(key, b"rejected:") {
            return self.verdict(b"accepted", b"false", b"reason", row);
        }
        Ok(())
    }

    /// Adds the value that stands behind its name.
    pub(crate) fn named_value(&mut self, row: &[u8]) -> Result<(), OutOfMemory>
        ensures { OnOk result (Adds self.old self.new (named_value (words row.now))) }
    {
        let Some((name, more)) = first_word(row) else {
            return Ok(());
        };
        let Some((value, _)) = first_word(more) else {
            return Ok(());
        };
        self.member(name, value)
    }

    /// Adds what a line says, by its key, its other words and the next line.
    fn keyed_members(
        &mut self,
        alloc: Global,
        key: &[u8],
        row: &[u8],
        next: &[u8],
    ) -> Result<(), OutOfMemory>
        ensures { OnOk result
            (Adds self.old self.new (keyed_members key.now (words row.now) (words next.now))) }
    {
        if is_plain_key(key) {
            return self.said_member(alloc, key, row);
        }
        if is(key, b"bound") || is(key, b"offered") {
            return self.bounding_members(alloc, key, row);
        }
        if is(key, b"cert") {
            return self.answer_certificate(row);
        }
        if is_bound_kind(key, row) {
            return self.certificate(key, bound_list(key), row, next);
        }
        if is(key, b"measure") {
            return self.named_value(row);
        }
        self.verdict_members(key, row)
    }

    /// Adds what a line says, with what the next one adds to it.
    pub(crate) fn line_members(
        &mut self,
        alloc: Global,
        line: &[u8],
        next: &[u8],
    ) -> Result<(), OutOfMemory>
        ensures { OnOk result
            (Adds self.old self.new (line_members (words line.now) (words next.now))) }
    {
        match first_word(line) {
            None => Ok(()),
            Some((key, row)) => self.keyed_members(alloc, key, row, next),
        }
    }
}
