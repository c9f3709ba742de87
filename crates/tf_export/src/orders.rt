//! Lines of orders as JSON.
//!
//! A line has the number of the order's line, perhaps a label and a colon, and what the order comes
//! to: a value and a gap, perhaps with its values by the other objectives, or a misfit, or what is
//! wrong.
ghost use Rattle.std.specs.Prelude.{◌≡◌, ◌∷◌, [], OnOk};
ghost use Rattle.std.specs.List.{position};
ghost use Rattle.tf_words.specs.Words.{words};
ghost use Rattle.tf_export.specs.Orders.{is_colon, labelled, order_in, order_members};
ghost use Rattle.tf_export.specs.Orders.{order_outcome};
ghost use Rattle.tf_export.specs.Orders.{rated, row_of, standing_of, unlabelled, unrated};

use crate::json::Json;
use crate::line::behind_first;
use std::alloc::Global;
use tf_model::memory::OutOfMemory;
use tf_words::word::behind_key;

// The names of what a line says of a schedule that fits.
const RATED_NAMES: &[u8] = b"value gap Cmax Lmax Tmax sumC sumwC sumT sumwT sumU sumwU";

/// Where the label of a line ends: at its first colon.
pub(crate) fn colon_in(line: &[u8]) -> Option<usize>
    ensures { result ≡ position is_colon line.now }
{
    line.iter().position(|byte| *byte == b':')
}

/// How an order with a value and a gap stands.
pub(crate) fn standing_of(row: &[u8]) -> &'static [u8]
    ensures { result.now ≡ standing_of (words row.now) }
{
    match behind_key(behind_first(row), b"0") {
        Some(_) => b"optimal",
        None => b"fits",
    }
}

/// What a line says behind its number and label.
pub(crate) fn row_of(line: &[u8]) -> &[u8]
    ensures { words result.now ≡ row_of line.now }
{
    match colon_in(line) {
        None => behind_first(line),
        Some(place) => &line[place + 1..],
    }
}

impl Json {
    ghost use Rattle.tf_export.specs.Adds.{Adds};

    /// Adds the order of a line as an object.
    pub(crate) fn order_in(&mut self, alloc: Global, line: &[u8]) -> Result<(), OutOfMemory>
        ensures { OnOk result (Adds self.old self.new (order_in line.now ∷ [])) }
    {
        self.begin()?;
        self.enter(b'{')?;
        self.order_members(alloc, line)?;
        self.leave(b'}')?;
        Ok(())
    }

    fn order_members(&mut self, alloc: Global, line: &[u8]) -> Result<(), OutOfMemory>
        ensures { OnOk result (Adds self.old self.new (order_members line.now)) }
    {
        match colon_in(line) {
            None => self.unlabelled(line),
            Some(place) => self.labelled(alloc, &line[..place], &line[place + 1..]),
        }
    }

    fn unlabelled(&mut self, line: &[u8]) -> Result<(), OutOfMemory>
        ensures { OnOk result (Adds self.old self.new (unlabelled (words line.now))) }
    {
        self.fields(b"line", b"", line)?;
        self.member(b"label", b"null")?;
        self.order_outcome(behind_first(line))?;
        Ok(())
    }

    // The order of a line whose number and label stand in front of a row.
    fn labelled(&mut self, alloc: Global, front: &[u8], row: &[u8]) -> Result<(), OutOfMemory>
        ensures { OnOk result
            (Adds self.old self.new (labelled (words front.now) (words row.now))) }
    {
        self.fields(b"line", b"", front)?;
        self.phrase_member(alloc, b"label", behind_first(front))?;
        self.order_outcome(row)?;
        Ok(())
    }

    // What an order comes to.
    fn order_outcome(&mut self, row: &[u8]) -> Result<(), OutOfMemory>
        ensures { OnOk result (Adds self.old self.new (order_outcome (words row.now))) }
    {
        if let Some(reason) = behind_key(row, b"misfit") {
            return self.unrated(b"misfit", reason);
        }
        if let Some(reason) = behind_key(row, b"wrong") {
            return self.unrated(b"wrong", reason);
        }
        self.rated(row)
    }

    // An order without a value, and why it has none.
    fn unrated(&mut self, standing: &[u8], reason: &[u8]) -> Result<(), OutOfMemory>
        ensures { OnOk result (Adds self.old self.new (unrated standing.now (words reason.now))) }
    {
        self.string_member(b"standing", standing)?;
        self.member(b"value", b"null")?;
        self.member(b"gap", b"null")?;
        self.fields(b"reason", b"arguments", reason)?;
        Ok(())
    }

    // An order with a value and a gap, and perhaps its values by the other objectives.
    fn rated(&mut self, row: &[u8]) -> Result<(), OutOfMemory>
        ensures { OnOk result (Adds self.old self.new (rated (words row.now))) }
    {
        self.string_member(b"standing", standing_of(row))?;
        self.fields(RATED_NAMES, b"", row)?;
        Ok(())
    }
}
