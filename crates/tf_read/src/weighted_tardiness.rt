//! Weighted tardiness files, after OR-Library's: instances one after the other, each of n times,
//! then n weights, then n due dates.
ghost use Rattle.std.specs.Prelude.{◌≡◌, ◌+◌, ◌≤◌, List, [], ℕ, IfOk};
ghost use Rattle.tf_model.specs.Limit.{most_bytes};
ghost use Rattle.tf_read.specs.Faults.{Gives};
ghost use Rattle.tf_read.specs.WeightedTardiness.{request_fault, weighted_tardiness};
ghost use Rattle.tf_read.specs.WtReading.{line_in, HasTakenTardiness};

use crate::fault::ReadFault;
use crate::instance_numbers::InstanceNumbers;
use crate::numbers::Numbers;
use crate::word_feed::WordFeed;
use std::alloc::{Allocator, Global};
use tf_model::instance::Instance;
use tf_model::limit::{MOST_BYTES, MOST_JOBS};
use tf_model::memory::OutOfMemory;
use tf_words::feed::Feed;

/// A reader of one instance, to which a text is fed piece by piece.
///
/// Of the words from the first up to the instance's last, each is judged. The text is not kept, and
/// feeding it takes no memory. After the first fault the rest of the text is passed over.
#[derive(Drop)]
pub struct WtReader<A: Allocator = Global> {
    alloc: A,
    // how many bytes may follow, and one that is too many
    left: usize,
    /// The words, or why what was asked for is not there, whatever the text says.
    reading: Result<WordFeed<Numbers<A>>, ReadFault>,
    ghost early: { line_in reading + left ≤ most_bytes + 2 },
}

/// Why there is no such instance in any text.
fn refusal(jobs: u32, index: u32) -> Option<ReadFault>
    ensures { result ≡ request_fault jobs index }
{
    if jobs == 0 {
        Some(ReadFault::NoJobs)
    } else if jobs as usize > MOST_JOBS {
        Some(ReadFault::TooManyJobs)
    } else if index == 0 {
        Some(ReadFault::NoInstance)
    } else {
        None
    }
}

impl<A: Allocator + Copy> WtReader<A> {
    ghost use Rattle.std.specs.Prelude.{◌≡◌, List, [], ℕ, true, is_some, IfOk, IsOk};
    ghost use Rattle.tf_read.specs.Said.{TextSays};
    ghost use Rattle.tf_read.specs.WtReader.{HasFedTardiness};

    /// The reader of the instance of this index, from 1, where each has so many jobs. It makes all
    /// room that is needed, and none where no text has such an instance.
    pub fn new(alloc: A, jobs: u32, index: u32) -> Result<Self, OutOfMemory>
        ensures given { IfOk result (λ r. HasFedTardiness r (weighted_tardiness jobs index) []) }
        ensures no_room { is_some (request_fault jobs index) ≡ true → IsOk result }
    {
        match refusal(jobs, index) {
            Some(fault) => Ok(WtReader::before(alloc, Err(fault))),
            None => {
                let numbers = Numbers::new(alloc, u64::from(jobs), u64::from(index))?;
                Ok(WtReader::before(alloc, Ok(WordFeed::new(1, numbers))))
            }
        }
    }

    // Before the first byte.
    fn before(alloc: A, reading: Result<WordFeed<Numbers<A>>, ReadFault>) -> Self
        requires { line_in reading ≤ 1 }
        ensures { (n k : ℕ) → HasTakenTardiness n k reading [] →
            HasFedTardiness result (weighted_tardiness n k) [] }
    {
        WtReader {
            alloc,
            left: MOST_BYTES + 1,
            reading,
        }
    }

    /// The numbers of the instance that the text says, or its first fault, where no more is fed.
    /// It takes no memory.
    pub fn into_numbers(self) -> Result<InstanceNumbers<A>, ReadFault>
        ensures { (says : TextSays) (fed : List ℕ) → HasFedTardiness self says fed →
            result ≡ says fed }
    {
        let WtReader { left, reading, .. } = self;
        if left == 0 {
            return Err(ReadFault::TooLong);
        }
        match reading {
            Err(fault) => Err(fault),
            Ok(words) => words.ended().whole(),
        }
    }

    /// The instance that the text says, or its first fault, where no more is fed. It takes no
    /// memory.
    pub fn finish(self) -> Result<Instance<A>, ReadFault>
        ensures { (says : TextSays) (fed : List ℕ) → HasFedTardiness self says fed →
            result ≡ says fed }
    {
        let alloc = self.alloc;
        match self.into_numbers() {
            Err(fault) => Err(fault),
            Ok(numbers) => Ok(numbers.into_instance(alloc)),
        }
    }
}

impl<A: Allocator + Copy> Feed for WtReader<A> {
    ghost use Rattle.std.proofs.Common.{subst, sym, append_assoc};
    ghost use Rattle.std.proofs.lemmas.List.{append-nil};
    ghost use Rattle.tf_read.specs.WtReader.{HasFedTardiness, TakesTardiness};

    ghost Takes = { TakesTardiness };

    fn feed(&mut self, piece: &[u8]) {
        self.left = self.left.saturating_sub(piece.len());
        if self.left == 0 {
            return;
        }
        if let Ok(words) = &mut self.reading {
            words.feed(piece);
        }
    }

    ghost took_nothing = { λ x says fed h.
        subst (HasFedTardiness x says) (sym (append-nil fed)) h };

    ghost took_both = { λ x y z front back first second says fed h.
        subst (HasFedTardiness z says) (append_assoc fed front back)
        (second says _ (first says fed h)) };
}

/// The instance of this index, from 1, where each has `jobs` jobs, or the first fault, as a
/// [`WtReader`] reads it.
pub fn read_wt<A: Allocator + Copy>(
    alloc: A,
    text: &[u8],
    jobs: u32,
    index: u32,
) -> Result<Instance<A>, ReadFault>
    ensures { Gives (λ i. i) result (weighted_tardiness jobs index text.now) }
{
    let mut reader = WtReader::new(alloc, jobs, index)?;
    reader.feed(text);
    reader.finish()
}
