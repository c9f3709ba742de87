//! Texts that come in pieces.

/// Something to which a text is fed, piece by piece.
pub trait Feed {
    ghost use Rattle.std.specs.Prelude.{ℕ, List, [], ◌++◌};

    /// The first took these bytes and became the second.
    ghost Takes: { Self → List ℕ → Self → Type 0 };

    /// Takes the next piece of the text.
    fn feed(&mut self, piece: &[u8])
        ensures { Takes self.old piece.now self.new };

    /// Without a byte nothing changes.
    ghost took_nothing: { (x : Self) → Takes x [] x };

    /// Two pieces, one after the other, are one.
    ghost took_both: { (x y z : Self) (front back : List ℕ) →
        Takes x front y → Takes y back z → Takes x (front ++ back) z };
}
