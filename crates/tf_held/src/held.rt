//! Texts in memory, by their names.
ghost use Rattle.std.specs.Prelude.{◌≡◌, option_map};
ghost use Rattle.tf_held.specs.Texts.{beside_of, named_beside};

use std::io;
use tf_command::source::Sources;

/// Texts beside instances: of answers or orders, and of bounds. Where there are none, it is empty.
#[derive(Clone, Copy)]
pub(crate) struct Beside<'a> {
    pub answers: &'a [u8],
    pub bounds: &'a [u8],
}

/// An instance and a bound by their names, and an answer by every other name.
#[derive(Clone, Copy)]
pub(crate) struct Held<'a> {
    pub name: &'a str,
    pub instance: &'a [u8],
    /// The name of the bound, if there is one.
    pub bound: Option<&'a str>,
    pub beside: Beside<'a>,
}

impl<'a> Held<'a> {
    /// What a name that is not the instance's stands for.
    fn named(&self, name: &str) -> &'a [u8]
        ensures { result.now ≡ named_beside (option_map (λ name. name.now) self.now.bound)
            (beside_of self.now.beside) name.now }
    {
        match self.bound {
            Some(bound) if name == bound => self.beside.bounds,
            _ => self.beside.answers,
        }
    }
}

impl<'a> Sources for Held<'a> {
    ghost use Rattle.std.specs.Prelude.{option_map};
    ghost use Rattle.tf_held.specs.Texts.{beside_of, held_texts};

    type Source = &'a [u8];

    ghost text_of = { λ held. held_texts held.name.now held.instance.now
        (option_map (λ name. name.now) held.bound) (beside_of held.beside) };

    fn open(&self, name: &str) -> io::Result<&'a [u8]> {
        if name == self.name {
            Ok(self.instance)
        } else {
            Ok(self.named(name))
        }
    }

    fn size(&self, name: &str) -> Option<usize> {
        if name == self.name {
            Some(self.instance.len())
        } else {
            Some(self.named(name).len())
        }
    }
}
