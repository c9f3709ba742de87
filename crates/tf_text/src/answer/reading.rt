//! Answer texts, read line by line.
ghost use Rattle.tf_model.specs.Limit.{most_bytes, most_machines};
ghost use Rattle.std.specs.Prelude.{◌≡◌, ◌+◌, ◌<◌, ◌≤◌, ◌++◌, ◌∷◌, [], ◌==◌, not, true, ℕ, List};
ghost use Rattle.std.specs.Prelude.{Result, Err, IfOk, OnOk, length};
ghost use Rattle.std.specs.List.{list_all};
ghost use Rattle.tf_words.specs.Words.{lines, kept_lines};
ghost use Rattle.tf_text.specs.AnswerText.{SheetData};
ghost use Rattle.tf_text.specs.AnswerReading.{Gives, sheet_of, answer_in};
ghost use Rattle.tf_text.specs.declared.answer.fault.AnswerFault.{AnswerFault};

use crate::answer::fault::AnswerFault;
use crate::answer::pieces::push_usual;
use crate::answer::sheet::Sheet;
use crate::answer::stage::Stage;
use std::alloc::{Allocator, Global};
use tf_model::limit::MOST_BYTES;
use tf_model::memory::OutOfMemory;
use tf_words::feed::Feed;
use tf_words::line::line_len;

/// A reader of an answer, to which its text is fed piece by piece.
///
/// Of the text it keeps the present line alone. After the first fault, and where a growth was
/// refused, it passes over the rest of the text.
#[derive(Drop)]
pub struct AnswerReader<A: Allocator = Global> {
    alloc: A,
    stage: Stage<A>,
    // the number of the present line, and what was fed of it
    number: u32,
    line: Vec<u8, A>,
    // how many bytes may follow, and one that is too many
    left: usize,
    ghost room: { number + left ≤ most_bytes + 2 },
    ghost own: { list_all (λ b. not (b == 10)) line.items ≡ true },
}

impl<A: Allocator + Copy> AnswerReader<A> {
    ghost use Rattle.tf_text.specs.AnswerReader.{Awaits};

    /// The reader before the first byte. It takes no memory.
    pub fn new(alloc: A) -> Self
        ensures left { result.left ≡ most_bytes + 1 }
        ensures awaits { (text : List ℕ) →
            Awaits result text (sheet_of (kept_lines 1 (lines text))) }
    {
        AnswerReader {
            alloc,
            stage: Stage::Heading,
            number: 1,
            line: Vec::new(alloc),
            left: MOST_BYTES + 1,
        }
    }

    /// Reads the end of the present line.
    fn end_line(&mut self, rest: &[u8]) -> Result<(), OutOfMemory>
        requires room { self.old.number + 1 + self.old.left ≤ most_bytes + 2 }
        requires own { list_all (λ b. not (b == 10)) rest.now ≡ true }
        ensures number { self.new.number ≤ self.old.number + 1 }
        ensures left { self.new.left ≡ self.old.left }
        ensures awaits { OnOk result ((more : List ℕ) (total : Result SheetData AnswerFault) →
            Awaits self.old (rest.now ++ 10 ∷ more) total → Awaits self.new more total) }
    {
        self.line.extend_from_slice(rest)?;
        self.stage
            .read_line(self.alloc, self.number, self.line.as_slice());
        self.line.clear();
        self.number += 1;
        Ok(())
    }

    /// Reads the lines of pieces that come next, as far as each has its usual form; what follows
    /// them.
    fn usual_lines<'a>(&mut self, text: &'a [u8]) -> Result<&'a [u8], OutOfMemory>
        requires room { self.old.number + length text.now + self.old.left ≤ most_bytes + 2 }
        ensures number { self.new.number ≤ self.old.number + length text.now }
        ensures left { self.new.left ≡ self.old.left }
        ensures later { IfOk result (λ rest.
            self.new.number + length rest.now ≤ self.old.number + length text.now) }
        ensures fewer { IfOk result (λ rest. length rest.now ≤ length text.now) }
        ensures awaits { IfOk result (λ rest.
            (more : List ℕ) (total : Result SheetData AnswerFault) →
            Awaits self.old (text.now ++ more) total →
            Awaits self.new (rest.now ++ more) total) }
    {
        let Stage::Pieces(_, _, pieces) = &mut self.stage else {
            return Ok(text);
        };
        if !self.line.is_empty() {
            return Ok(text);
        }
        let (number, rest) = push_usual(pieces, self.number, text)?;
        self.number = number;
        Ok(rest)
    }

    /// Reads the next piece of the text.
    fn read(&mut self, piece: &[u8]) -> Result<(), OutOfMemory>
        requires room { self.old.number + length piece.now + self.old.left ≤ most_bytes + 2 }
        ensures left { self.new.left ≡ self.old.left }
        ensures awaits { OnOk result ((more : List ℕ) (total : Result SheetData AnswerFault) →
            Awaits self.old (piece.now ++ more) total → Awaits self.new more total) }
    {
        let mut rest = piece;
        loop {
            let text = self.usual_lines(rest)?;
            let (front, from) = text.split_at(line_len(text));
            let Some((_, after)) = from.split_first() else {
                self.line.extend_from_slice(front)?;
                return Ok(());
            };
            self.end_line(front)?;
            rest = after;
        }
    }

    /// The sheet that the text says, where no more is fed, or its first fault. It takes no memory.
    pub fn finish(self) -> Result<Sheet<A>, AnswerFault>
        ensures too_long { self.left ≡ 0 → result ≡ Err AnswerFault.TooLong }
        ensures read { (total : Result SheetData AnswerFault) → 0 < self.left →
            Awaits self [] total → Gives (λ s. s) result total }
        ensures machines { IfOk result (λ s. (0 < s.machines) × (s.machines ≤ most_machines)) }
    {
        let AnswerReader {
            alloc,
            mut stage,
            number,
            line,
            left,
        } = self;
        if left == 0 {
            return Err(AnswerFault::TooLong);
        }
        stage.read_line(alloc, number, line.as_slice());
        stage.ended()
    }
}

impl<A: Allocator + Copy> Feed for AnswerReader<A> {
    ghost use Rattle.std.proofs.Common.{subst, arith, append_assoc, length-append, ◌++◌};
    ghost use Rattle.tf_text.specs.AnswerReader.{Awaits, TakesAnswer};

    ghost Takes = { TakesAnswer };

    fn feed(&mut self, piece: &[u8]) {
        self.left = self.left.saturating_sub(piece.len());
        if self.left > 0 && self.read(piece).is_err() {
            self.stage = Stage::Failed(AnswerFault::OutOfMemory);
        }
    }

    ghost took_nothing = { λ x. record {
      left = omega arith;
      goes_on = λ some more total h. h;
    } };

    ghost took_both = { λ x y z front back first second. record {
      left = omega (arith, first.left, second.left, length-append front back);
      goes_on = λ some more total h.
          second.goes_on some more total
          (first.goes_on (omega (arith, some, second.left)) (back ++ more) total
          (subst (λ text. Awaits x text total) (append_assoc front back more) h));
    } };
}

/// The sheet that an answer text of either version says. Lines without words and lines whose first
/// word begins with `#` are skipped, words are divided by any white space, and numbers may have
/// leading zeros. Nothing is compared between lines.
///
/// # Errors
///
/// The first fault of the text, from its first line to its last. In each line the form comes first,
/// and then the numbers from left to right.
pub fn read_answer<A: Allocator + Copy>(alloc: A, text: &[u8]) -> Result<Sheet<A>, AnswerFault>
    ensures read { Gives (λ s. s) result (answer_in text.now) }
    ensures machines { IfOk result (λ s. (0 < s.machines) × (s.machines ≤ most_machines)) }
{
    let mut reader = AnswerReader::new(alloc);
    reader.feed(text);
    reader.finish()
}
