//! Entries of which the greatest goes first.
use std::alloc::Allocator;
use std::collections::BinaryHeap;
use tf_model::memory::OutOfMemory;

/// Entries of which the greatest goes first.
///
/// Those that are there before one is taken are sorted once; a heap takes those that follow.
#[derive(Drop)]
pub(crate) struct GreatestFirst<E: Ord + Copy, A: Allocator> {
    // In rising order once an entry is taken.
    pub(crate) first: Vec<E, A>,
    pub(crate) later: BinaryHeap<E, A>,
    pub(crate) has_begun: bool,
}

impl<E: Ord + Copy, A: Allocator + Copy> GreatestFirst<E, A> {
    ghost use Rattle.std.specs.Prelude.{◌≡◌, ◌<◌, ◌-◌, [], ◌∷◌, ◌++◌, length, slice_index_or};
    ghost use Rattle.std.specs.Prelude.{true, false, IfOk};
    ghost use Rattle.std.specs.BinaryHeap.{heap_items, IsHeap};
    ghost use Rattle.std.specs.List.Sorted.{IsPermutation, IsSorted};
    ghost use Rattle.tf_single.specs.GreatestFirst.{entries, AreOrdered, IsGreatest, IsRising};

    /// No entry, and room for so many.
    pub(crate) fn new(alloc: A, room: usize) -> Result<Self, OutOfMemory>
        ensures none { IfOk result (λ it. entries it ≡ []) }
        ensures ordered { IfOk result (λ it. AreOrdered E.cmp it) }
    {
        Ok(GreatestFirst {
            first: Vec::with_capacity(alloc, room)?,
            later: BinaryHeap::with_capacity(alloc, room)?,
            has_begun: false,
        })
    }

    /// Whether there is no entry.
    pub(crate) fn is_empty(&self) -> bool
        ensures none { result ≡ true → entries self.now ≡ [] }
        ensures some { result ≡ false → 0 < length (entries self.now) }
    {
        self.first.is_empty() && self.later.is_empty()
    }

    /// One entry more.
    pub(crate) fn push(&mut self, entry: E) -> Result<(), OutOfMemory>
        ensures entries { IfOk result (λ _.
            IsPermutation (entry ∷ entries self.old) (entries self.new)) }
        ensures ordered { IfOk result (λ _.
            AreOrdered E.cmp self.old → AreOrdered E.cmp self.new) }
    {
        if self.has_begun {
            self.later.push(entry)?;
        } else {
            self.first.push(entry)?;
        }
        Ok(())
    }

    /// Takes away the greatest entry.
    pub(crate) fn pop(&mut self) -> E
        requires some { 0 < length (entries self.old) }
        requires ordered { AreOrdered E.cmp self.old }
        ensures greatest { IsGreatest E.cmp (entries self.old) result }
        ensures moved { IsPermutation (entries self.old) (result ∷ entries self.new) }
        ensures ordered { AreOrdered E.cmp self.new }
    {
        self.begin();
        if self.is_first_ahead() {
            return self.first.pop().unwrap();
        }
        self.later.pop().unwrap()
    }

    // From now on the entries that are pushed follow.
    fn begin(&mut self)
        requires { IsRising E.cmp self.old.has_begun self.old.first.items }
        ensures begun { self.new.has_begun ≡ true }
        ensures first { IsPermutation self.old.first.items self.new.first.items }
        ensures rising { IsSorted E.cmp self.new.first.items }
        ensures later { self.new.later ≡ self.old.later }
    {
        if !self.has_begun {
            self.first.sort_unstable();
            self.has_begun = true;
        }
    }

    // Whether the last of the first entries goes before the greatest of those that followed.
    fn is_first_ahead(&self) -> bool
        requires rising { IsSorted E.cmp self.now.first.items }
        requires heap { IsHeap E.cmp (heap_items self.now.later) }
        ensures first { result ≡ true → (0 < length self.now.first.items)
            × ((d : E) → IsGreatest E.cmp (entries self.now)
            (slice_index_or self.now.first.items (length self.now.first.items - 1) d)) }
        ensures later { result ≡ false → 0 < length (entries self.now)
            → (0 < length (heap_items self.now.later))
            × ((d : E) → IsGreatest E.cmp (entries self.now)
            (slice_index_or (heap_items self.now.later) 0 d)) }
    {
        let Some(later) = self.later.peek() else {
            return !self.first.is_empty();
        };
        let Some(first) = self.first.last() else {
            return false;
        };
        later.cmp(first).is_lt()
    }
}
