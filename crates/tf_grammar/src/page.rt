//! What a command's help says of it as a whole.
ghost use Rattle.std.specs.Prelude.{◌≡◌};
ghost use Rattle.tf_grammar.specs.Commands.{name_of};

use clap::Command;
use std::alloc::Global;

/// The name of a command, and the texts of its help.
#[derive(Clone, Copy)]
pub(crate) struct Page {
    pub name: &'static str,
    pub about: &'static str,
    /// What stands behind the options, in short help and, where it has none of its own, in long.
    pub after: &'static str,
    /// The same in long help.
    pub long: Option<&'static str>,
}

impl Page {
    /// The command, without options.
    pub(crate) fn command<'a>(&self, alloc: Global) -> Command<'a>
        ensures { name_of result ≡ self.now.name.now }
    {
        let command = Command::new(alloc, self.name)
            .about(self.about)
            .after_help(self.after);
        match self.long {
            Some(text) => command.after_long_help(text),
            None => command,
        }
    }
}
