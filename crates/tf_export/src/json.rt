//! An object or an array, of which a part is written.
ghost use Rattle.std.specs.Prelude.{◌≡◌, ◌∷◌, ◌++◌, [], true, false, map, OnOk, IfOk};
ghost use Rattle.tf_words.specs.Words.{words};
ghost use Rattle.tf_export.specs.Json.{string, scalar, array, member, object, heading};
ghost use Rattle.tf_export.specs.Members.{phrase, said, fields, rest_members, record_of};

use crate::value::{push_phrase, push_said, push_scalar, push_string};
use itoa::Buffer;
use std::alloc::Global;
use tf_model::memory::OutOfMemory;
use tf_words::word::first_word;

/// The version of what is written, the value of the first member of each object.
const VERSION: &[u8] = b"1";

/// A text, and whether what is added next is the first value or member of its array or object.
#[derive(Drop)]
pub(crate) struct Json {
    text: Vec<u8>,
    is_first: bool,
}

impl Json {
    ghost use Rattle.tf_export.specs.Adds.{Adds, comma};

    /// Nothing is written yet.
    pub(crate) fn new(alloc: Global) -> Json
        ensures text { result.text.items ≡ [] }
        ensures first { result.is_first ≡ true }
    {
        Json {
            text: Vec::new(alloc),
            is_first: true,
        }
    }

    /// What is written.
    pub(crate) fn into_text(self) -> Vec<u8>
        ensures { result ≡ self.text }
    {
        self.text
    }

    /// Adds bytes as they are.
    pub(crate) fn push(&mut self, bytes: &[u8]) -> Result<(), OutOfMemory>
        ensures { OnOk result
            (self.new.text.items ≡ self.old.text.items ++ bytes.now) }
    {
        self.text.extend_from_slice(bytes)?;
        Ok(())
    }

    /// Begins a value or a member.
    pub(crate) fn begin(&mut self) -> Result<(), OutOfMemory>
        ensures text { OnOk result
            (self.new.text.items ≡ self.old.text.items ++ comma self.old.is_first) }
        ensures first { self.new.is_first ≡ false }
    {
        if self.is_first {
            self.is_first = false;
            return Ok(());
        }
        self.text.push(b',')?;
        Ok(())
    }

    /// Opens an array or an object.
    pub(crate) fn enter(&mut self, bracket: u8) -> Result<(), OutOfMemory>
        ensures text { OnOk result
            (self.new.text.items ≡ self.old.text.items ++ bracket ∷ []) }
        ensures first { self.new.is_first ≡ true }
    {
        self.is_first = true;
        self.text.push(bracket)?;
        Ok(())
    }

    /// Closes it.
    pub(crate) fn leave(&mut self, bracket: u8) -> Result<(), OutOfMemory>
        ensures text { OnOk result
            (self.new.text.items ≡ self.old.text.items ++ bracket ∷ []) }
        ensures first { self.new.is_first ≡ false }
    {
        self.is_first = false;
        self.text.push(bracket)?;
        Ok(())
    }

    /// Begins a member by its name.
    pub(crate) fn name(&mut self, name: &[u8]) -> Result<(), OutOfMemory>
        ensures text { OnOk result (self.new.text.items
            ≡ self.old.text.items ++ (comma self.old.is_first ++ (string name.now ++ 58 ∷ []))) }
        ensures first { self.new.is_first ≡ false }
    {
        self.begin()?;
        push_string(&mut self.text, name)?;
        self.text.push(b':')?;
        Ok(())
    }

    /// Adds a member with a value that is written already.
    pub(crate) fn member(&mut self, name: &[u8], value: &[u8]) -> Result<(), OutOfMemory>
        ensures { OnOk result (Adds self.old self.new (member name.now value.now ∷ [])) }
    {
        self.name(name)?;
        self.text.extend_from_slice(value)?;
        Ok(())
    }

    /// Adds the members that begin each object: the version, and the number of the instance that it
    /// is about, where it is about one of several.
    pub(crate) fn heading(&mut self, instance: Option<u32>) -> Result<(), OutOfMemory>
        ensures { OnOk result (Adds self.old self.new (heading instance)) }
    {
        self.member(b"version", VERSION)?;
        let Some(number) = instance else {
            return Ok(());
        };
        let mut digits = Buffer::new();
        self.member(b"instance", digits.format(number).as_bytes())?;
        Ok(())
    }

    /// Adds a member with a string.
    pub(crate) fn string_member(&mut self, name: &[u8], text: &[u8]) -> Result<(), OutOfMemory>
        ensures { OnOk result (Adds self.old self.new (member name.now (string text.now) ∷ [])) }
    {
        self.name(name)?;
        push_string(&mut self.text, text)?;
        Ok(())
    }

    /// Adds a member with a word.
    fn scalar_member(&mut self, name: &[u8], word: &[u8]) -> Result<(), OutOfMemory>
        ensures { OnOk result (Adds self.old self.new (member name.now (scalar word.now) ∷ [])) }
    {
        self.name(name)?;
        push_scalar(&mut self.text, word)?;
        Ok(())
    }

    /// Adds a member with one word, or a phrase.
    pub(crate) fn said_member(
        &mut self,
        alloc: Global,
        name: &[u8],
        row: &[u8],
    ) -> Result<(), OutOfMemory>
        ensures { OnOk result
            (Adds self.old self.new (member name.now (said (words row.now)) ∷ [])) }
    {
        self.name(name)?;
        push_said(alloc, &mut self.text, row)?;
        Ok(())
    }

    /// Adds a member with a phrase.
    pub(crate) fn phrase_member(
        &mut self,
        alloc: Global,
        name: &[u8],
        row: &[u8],
    ) -> Result<(), OutOfMemory>
        ensures { OnOk result
            (Adds self.old self.new (member name.now (phrase (words row.now)) ∷ [])) }
    {
        self.name(name)?;
        push_phrase(alloc, &mut self.text, row)?;
        Ok(())
    }

    /// Adds words as one value.
    pub(crate) fn phrase(&mut self, alloc: Global, row: &[u8]) -> Result<(), OutOfMemory>
        ensures { OnOk result (Adds self.old self.new (phrase (words row.now) ∷ [])) }
    {
        self.begin()?;
        push_phrase(alloc, &mut self.text, row)?;
        Ok(())
    }

    /// Adds a word as one value.
    fn scalar(&mut self, word: &[u8]) -> Result<(), OutOfMemory>
        ensures { OnOk result (Adds self.old self.new (scalar word.now ∷ [])) }
    {
        self.begin()?;
        push_scalar(&mut self.text, word)?;
        Ok(())
    }

    /// Adds each word as a value.
    fn scalars(&mut self, row: &[u8]) -> Result<(), OutOfMemory>
        ensures { OnOk result (Adds self.old self.new (map scalar (words row.now))) }
    {
        let mut rest = row;
        while let Some((word, more)) = first_word(rest) {
            self.scalar(word)?;
            rest = more;
        }
        Ok(())
    }

    /// Adds a member with an array of words.
    pub(crate) fn scalars_member(&mut self, name: &[u8], row: &[u8]) -> Result<(), OutOfMemory>
        ensures { OnOk result
            (Adds self.old self.new (member name.now (array (map scalar (words row.now))) ∷ [])) }
    {
        self.name(name)?;
        self.enter(b'[')?;
        self.scalars(row)?;
        self.leave(b']')?;
        Ok(())
    }

    /// Adds the words that no name is left for, unless the name of their array is empty.
    fn rest_members(&mut self, name: &[u8], row: &[u8]) -> Result<(), OutOfMemory>
        ensures { OnOk result (Adds self.old self.new (rest_members name.now (words row.now))) }
    {
        if name.is_empty() {
            return Ok(());
        }
        self.scalars_member(name, row)?;
        Ok(())
    }

    /// Adds each word by its name, and the others as an array.
    pub(crate) fn fields(
        &mut self,
        names: &[u8],
        rest: &[u8],
        row: &[u8],
    ) -> Result<(), OutOfMemory>
        ensures { OnOk result
            (Adds self.old self.new (fields (words names.now) rest.now (words row.now))) }
    {
        let mut names_left = names;
        let mut left = row;
        while let Some((name, more)) = first_word(names_left) {
            let Some((word, others)) = first_word(left) else {
                return Ok(());
            };
            self.scalar_member(name, word)?;
            names_left = more;
            left = others;
        }
        self.rest_members(rest, left)?;
        Ok(())
    }

    /// Adds an object with a word for each name.
    pub(crate) fn record(&mut self, names: &[u8], row: &[u8]) -> Result<(), OutOfMemory>
        ensures { OnOk result (Adds self.old self.new (record_of names.now (words row.now) ∷ [])) }
    {
        self.begin()?;
        self.enter(b'{')?;
        self.fields(names, b"", row)?;
        self.leave(b'}')?;
        Ok(())
    }
}
