//! Where the reading of a flow shop stands: at the heading, at the sizes, or at the pairs.
ghost use Rattle.std.specs.Prelude.{◌≡◌, ◌≢◌, ℕ, ◌+◌, ◌^◌, ◌<◌, ◌≤◌, List, [], ◌∷◌, ◌++◌, length};
ghost use Rattle.std.specs.Prelude.{take, Option};
ghost use Rattle.tf_words.specs.Words.{lines, words_from};
ghost use Rattle.tf_read.specs.Faults.{Gives};
ghost use Rattle.tf_read.specs.PresentLine.{AreOfLine};
ghost use Rattle.tf_read.specs.Heading.{HeadingShown};
ghost use Rattle.tf_read.specs.Sizes.{SizesShown};
ghost use Rattle.tf_read.specs.FlowShop.{IsOfPairs, sized, from_sizes, from_heading};
ghost use Rattle.tf_read.specs.FlowStage.{line_of, WantsHeading, WantsSizes, HasTakenShop};

use crate::fault::ReadFault;
use crate::heading::{HeadingLine, HeadingWord};
use crate::instance_numbers::InstanceNumbers;
use crate::pairs::Pairs;
use crate::sizes::{SizesLine, judged_sizes};
use crate::word_feed::WordFeed;
use std::alloc::Allocator;
use tf_words::line::line_len;

/// Where the reading of a text stands.
#[derive(Drop)]
pub(crate) enum Stage<A: Allocator> {
    /// The heading is wanted, and the bytes of this line have shown so much of it.
    Heading(u32, HeadingLine),
    /// The sizes are wanted, and the bytes of this line have shown so much of them.
    Sizes(u32, SizesLine),
    /// The pairs are read.
    Pairs(WordFeed<Pairs<A>>),
    /// A fault was met, or a growth was refused.
    Ended(ReadFault),
}

/// Behind a line on which the heading was wanted.
fn below_heading<A: Allocator>(line: u32, shown: HeadingLine, name: &[u8]) -> Stage<A>
    requires { line + 1 < 2 ^ 32 }
    ensures later { line_of result ≤ line + 1 }
    ensures taken { (pair : Option (ℕ × ℕ)) (fed : List ℕ) →
        WantsHeading name.now pair line shown fed →
        HasTakenShop name.now pair result (fed ++ 10 ∷ []) }
{
    if shown.is_heading(name) {
        Stage::Sizes(line + 1, SizesLine::Blank)
    } else {
        Stage::Heading(line + 1, HeadingLine::Spelled(HeadingWord::Instance, 0))
    }
}

/// Behind a line on which the sizes were wanted. Behind the sizes it makes all room.
fn below_sizes<A: Allocator + Copy>(
    alloc: A,
    pair: Option<(u32, u32)>,
    line: u32,
    shown: SizesLine,
) -> Stage<A>
    requires { line + 1 < 2 ^ 32 }
    ensures later { line_of result ≤ line + 1 }
    ensures taken { (name : List ℕ) (fed : List ℕ) → WantsSizes name pair line shown fed →
        HasTakenShop name pair result (fed ++ 10 ∷ []) }
{
    let Some(sizes) = shown.sizes() else {
        return Stage::Sizes(line + 1, SizesLine::Blank);
    };
    match judged_sizes(pair, line, sizes) {
        Err(fault) => Stage::Ended(fault),
        Ok((jobs, machines)) => match Pairs::new(alloc, jobs, machines, pair) {
            Err(_) => Stage::Ended(ReadFault::OutOfMemory),
            Ok(pairs) => Stage::Pairs(WordFeed::new(line + 1, pairs)),
        },
    }
}

/// The fault of a text that ends on a line on which the heading was wanted.
fn without_sizes(name: &[u8], shown: HeadingLine) -> ReadFault
    ensures fault { (pair : Option (ℕ × ℕ)) (line : ℕ) (bytes : List ℕ) → AreOfLine bytes →
        HeadingShown name.now bytes shown →
        from_heading name.now pair line (lines bytes) ≡ Err result }
    ensures memory { result ≢ ReadFault.OutOfMemory }
{
    if shown.is_heading(name) {
        ReadFault::EndsEarly
    } else {
        ReadFault::NoInstance
    }
}

/// The fault of a text that ends on a line on which the sizes were wanted.
fn without_pairs(pair: Option<(u32, u32)>, line: u32, shown: SizesLine) -> ReadFault
    ensures fault { (bytes : List ℕ) → AreOfLine bytes → SizesShown bytes shown →
        from_sizes pair line (lines bytes) ≡ Err result }
    ensures memory { result ≢ ReadFault.OutOfMemory }
{
    match shown.sizes() {
        None => ReadFault::EndsEarly,
        Some(sizes) => match judged_sizes(pair, line, sizes) {
            Err(fault) => fault,
            Ok(_) => ReadFault::EndsEarly,
        },
    }
}

/// What is wanted of a flow shop: the instance of a name, on all machines or on a pair of them,
/// counted from 0.
#[derive(Clone, Copy)]
pub(crate) struct Wanted<'a> {
    pub name: &'a [u8],
    pub pair: Option<(u32, u32)>,
}

impl<A: Allocator + Copy> Stage<A> {
    /// Before the first byte.
    pub(crate) fn new() -> Self
        ensures taken { (name : List ℕ) (pair : Option (ℕ × ℕ)) → HasTakenShop name pair result [] }
        ensures line { line_of result ≡ 1 }
    {
        Stage::Heading(1, HeadingLine::Spelled(HeadingWord::Instance, 0))
    }

    /// With one byte more.
    fn push(&mut self, alloc: A, wanted: &Wanted<'_>, byte: u8)
        requires { line_of self.old + 1 < 2 ^ 32 }
        ensures later { line_of self.new ≤ line_of self.old + 1 }
        ensures taken { (fed : List ℕ) →
            HasTakenShop wanted.now.name.now wanted.now.pair self.old fed →
            HasTakenShop wanted.now.name.now wanted.now.pair self.new (fed ++ byte ∷ []) }
    {
        match self {
            Stage::Heading(line, shown) => {
                if byte == b'\n' {
                    *self = below_heading(*line, *shown, wanted.name);
                } else {
                    *shown = shown.push(wanted.name, byte);
                }
            }
            Stage::Sizes(line, shown) => {
                if byte == b'\n' {
                    *self = below_sizes(alloc, wanted.pair, *line, *shown);
                } else {
                    *shown = shown.push(byte);
                }
            }
            Stage::Pairs(words) => words.feed(&[byte]),
            Stage::Ended(_) => {}
        }
    }

    /// How many of the next bytes change nothing: those of a line that is not the wanted one, and
    /// all behind a fault.
    fn idle(&self, piece: &[u8]) -> usize
        ensures within { result ≤ length piece.now }
        ensures taken { (name : List ℕ) (pair : Option (ℕ × ℕ)) (fed : List ℕ) →
            HasTakenShop name pair self.now fed →
            HasTakenShop name pair self.now (fed ++ take result piece.now) }
    {
        match self {
            Stage::Heading(_, shown) => match shown {
                HeadingLine::Other => line_len(piece),
                _ => 0,
            },
            Stage::Sizes(_, shown) => match shown {
                SizesLine::Other => line_len(piece),
                _ => 0,
            },
            Stage::Pairs(_) => 0,
            Stage::Ended(_) => piece.len(),
        }
    }

    /// With the next piece of the text.
    pub(crate) fn feed(&mut self, alloc: A, wanted: &Wanted<'_>, piece: &[u8])
        requires { line_of self.old + length piece.now < 2 ^ 32 }
        ensures later { line_of self.new ≤ line_of self.old + length piece.now }
        ensures taken { (fed : List ℕ) →
            HasTakenShop wanted.now.name.now wanted.now.pair self.old fed →
            HasTakenShop wanted.now.name.now wanted.now.pair self.new (fed ++ piece.now) }
    {
        let mut k = 0;
        while k < piece.len() {
            let (_, rest) = piece.split_at(k);
            if let Stage::Pairs(words) = self {
                words.feed(rest);
                return;
            }
            k += self.idle(rest);
            if k < piece.len() {
                self.push(alloc, wanted, piece[k]);
                k += 1;
            }
        }
    }

    /// The numbers of the instance, where the text ends here, or the first fault. It takes no
    /// memory.
    pub(crate) fn ended(self, wanted: &Wanted<'_>) -> Result<InstanceNumbers<A>, ReadFault>
        ensures given { (fed : List ℕ) → HasTakenShop wanted.now.name.now wanted.now.pair self fed →
            Gives (λ i. i) result (from_heading wanted.now.name.now wanted.now.pair 1 (lines fed)) }
        ensures wants { (fed : List ℕ) → HasTakenShop wanted.now.name.now wanted.now.pair self fed →
            result ≡ Err ReadFault.OutOfMemory →
            IsOfPairs (from_heading wanted.now.name.now wanted.now.pair 1 (lines fed)) }
    {
        match self {
            Stage::Heading(_, shown) => Err(without_sizes(wanted.name, shown)),
            Stage::Sizes(line, shown) => Err(without_pairs(wanted.pair, line, shown)),
            Stage::Pairs(words) => words.ended().whole(),
            Stage::Ended(fault) => Err(fault),
        }
    }
}
