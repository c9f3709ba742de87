//! Judging the words of a text that comes in pieces.
ghost use Rattle.std.specs.Prelude.{◌≡◌, ℕ, ◌+◌, ◌^◌, ◌<◌, ◌≤◌, List, [], ◌∷◌, ◌++◌, length};
ghost use Rattle.tf_words.specs.Words.{lines, words_from};
ghost use Rattle.tf_read.specs.Said.{Says};
ghost use Rattle.tf_read.specs.WordFeed.{HasFed};

use tf_words::number::Number;
use tf_words::scan::Scan;
use tf_words::so_far::SoFar;

/// What the words of a text are judged by, one after the other.
pub(crate) trait Judge {
    ghost use Rattle.std.specs.Prelude.{List, [], ◌∷◌, ◌++◌};
    ghost use Rattle.tf_words.specs.Words.{Word};
    ghost use Rattle.tf_words.specs.Scan.{IsOf, IsInRange};
    ghost use Rattle.tf_read.specs.Said.{Says};

    /// These words were judged, where it is wanted what `says` says of all of them.
    ghost HasRead: { Self → Says → List Word → Type 0 };

    /// With one word more.
    fn judge(&mut self, line: u32, number: Number)
        requires { IsInRange number }
        ensures { (says : Says) (seen : List Word) (word : Word) → IsOf word line number →
            HasRead self.old says seen → HasRead self.new says (seen ++ word ∷ []) };
}

/// The words of a text, and what judges them.
#[derive(Drop)]
pub(crate) struct WordFeed<J: Judge> {
    pub scan: Scan,
    pub judge: J,
}

impl<J: Judge> WordFeed<J> {
    /// Before the first byte, which stands on this line.
    pub(crate) fn new(line: u32, judge: J) -> Self
        ensures fed { (says : Says) → J.HasRead judge says [] →
            HasFed J.HasRead line says result [] }
        ensures line { result.scan.line ≡ line }
    {
        WordFeed {
            scan: Scan::new(line),
            judge,
        }
    }

    /// With the numbers with which the next piece begins, as far as each has its usual form; what
    /// follows them.
    #[inline(never)]
    fn numbers<'a>(&mut self, piece: &'a [u8]) -> &'a [u8]
        requires { self.old.scan.line + length piece.now < 2 ^ 32 }
        ensures within { length result.now ≤ length piece.now }
        ensures later { self.new.scan.line + length result.now
            ≤ self.old.scan.line + length piece.now }
        ensures fed { (first : ℕ) (says : Says) (fed : List ℕ) →
            HasFed J.HasRead first says self.old fed →
            (before : List ℕ) × HasFed J.HasRead first says self.new before
            × (before ++ result.now ≡ fed ++ piece.now) }
    {
        let SoFar::Empty = self.scan.shown else {
            return piece;
        };
        let mut scan = Scan {
            line: self.scan.line,
            shown: SoFar::Empty,
        };
        let mut rest = piece;
        while let Some((line, number, after)) = scan.numeral(rest) {
            self.judge.judge(line, Number::Value(number));
            rest = after;
        }
        self.scan = scan;
        rest
    }

    /// With the next piece of the text.
    pub(crate) fn feed(&mut self, piece: &[u8])
        requires { self.old.scan.line + length piece.now < 2 ^ 32 }
        ensures later { self.new.scan.line ≤ self.old.scan.line + length piece.now }
        ensures fed { (first : ℕ) (says : Says) (fed : List ℕ) →
            HasFed J.HasRead first says self.old fed →
            HasFed J.HasRead first says self.new (fed ++ piece.now) }
    {
        let mut rest = piece;
        while !rest.is_empty() {
            let from = self.numbers(rest);
            let (taken, word) = self.scan.advance(from);
            let (_, after) = from.split_at(taken);
            rest = after;
            match word {
                None => {}
                Some((line, number)) => self.judge.judge(line, number),
            }
        }
    }

    /// With the word at the text's end.
    pub(crate) fn ended(self) -> J
        ensures { (first : ℕ) (says : Says) (fed : List ℕ) →
            HasFed J.HasRead first says self fed →
            J.HasRead result says (words_from first (lines fed)) }
    {
        let WordFeed { scan, mut judge } = self;
        match scan.ended() {
            None => judge,
            Some((line, number)) => {
                judge.judge(line, number);
                judge
            }
        }
    }
}
