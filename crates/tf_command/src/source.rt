//! Where a text comes from.
use std::io;
use std::io::Read;

/// What opens a text by the name that the command line gives it.
pub trait Sources {
    ghost use Rattle.std.specs.Prelude.{◌≡◌, ℕ, List, Option, None, Some, IfSome, IfOk, IfErr};

    type Source: Read + Drop;

    /// The bytes of the text of each name, where they are known.
    ghost text_of: { Self → List ℕ → Option (List ℕ) } = { λ _ _. None };

    /// The text of that name, with nothing read of it. Where its bytes are known it is opened.
    fn open(&self, name: &str) -> io::Result<Self::Source>
        ensures opened { IfOk result (λ source.
            IfSome (text_of self.now name.now) (λ text. Self.Source.remaining source ≡ Some text)) }
        ensures unopened { IfErr result (λ _. text_of self.now name.now ≡ None) };

    /// About how many bytes the text of that name has, where that can be told without reading it.
    /// Memory is reserved by it, and nothing else rests on it.
    fn size(&self, name: &str) -> Option<usize>;
}
