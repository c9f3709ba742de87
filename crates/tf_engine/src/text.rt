//! Texts.
use std::alloc::{Allocator, Global};
use std::marker::Model;

/// A text.
#[derive(Drop)]
pub struct Text<A: Allocator = Global> {
    text: String<A>,
}

impl<A: Allocator> Model for Text<A> {
    ghost use Rattle.std.specs.Prelude.{ℕ, List, string_bytes};

    ghost Value = { List ℕ };

    ghost view = { λ t. string_bytes t.text };
}

impl<A: Allocator> Text<A> {
    ghost use Rattle.std.specs.Prelude.{◌≡◌, string_bytes};

    /// That text. It takes no memory.
    pub fn new(text: String<A>) -> Self
        ensures { result ≡ string_bytes text }
    {
        Text { text }
    }

    /// What it says. It takes no memory.
    pub fn as_str(&self) -> &str
        ensures { result.now ≡ self.now }
    {
        self.text.as_str()
    }
}
