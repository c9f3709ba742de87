//! Flow shop files: a heading with a name, the sizes, and for each job the pairs machine, time.
ghost use Rattle.std.specs.Prelude.{◌≡◌, ℕ, ◌+◌, ◌≤◌, List, [], Option};
ghost use Rattle.tf_model.specs.Limit.{most_bytes};
ghost use Rattle.tf_read.specs.Faults.{Gives};
ghost use Rattle.tf_read.specs.FlowShop.{flow_shop};
ghost use Rattle.tf_read.specs.FlowStage.{line_of};

use crate::fault::ReadFault;
use crate::flow_stage::{Stage, Wanted};
use crate::instance_numbers::InstanceNumbers;
use std::alloc::{Allocator, Global};
use tf_model::instance::Instance;
use tf_model::limit::MOST_BYTES;
use tf_words::feed::Feed;

/// A reader of the instance of a name, to which a text is fed piece by piece.
///
/// With a pair of machines, counted from 0, the times are those on the two, as on machines 1 and 2;
/// without one they are those on the first two machines, or on the only one. The text is not kept.
/// Feeding it takes memory for the jobs, behind the sizes; where that is refused, and after the
/// first fault, the rest of the text is passed over.
#[derive(Drop)]
pub struct FlowReader<'a, A: Allocator = Global> {
    alloc: A,
    wanted: Wanted<'a>,
    // how many bytes may follow, and one that is too many
    left: usize,
    stage: Stage<A>,
    ghost early: { line_of stage + left ≤ most_bytes + 2 },
}

impl<'a, A: Allocator + Copy> FlowReader<'a, A> {
    ghost use Rattle.std.specs.Prelude.{◌≡◌, ◌<◌, List, [], ℕ, Err, length};
    ghost use Rattle.tf_model.specs.Limit.{most_bytes};
    ghost use Rattle.tf_read.specs.Said.{TextSays};
    ghost use Rattle.tf_read.specs.FlowReader.{HasFedShop};
    ghost use Rattle.tf_read.specs.FlowShop.{IsOfPairs};

    /// The reader of the instance of this name, and of this pair of machines, if there is one. It
    /// takes no memory.
    pub fn new(alloc: A, name: &'a [u8], pair: Option<(u32, u32)>) -> Self
        ensures { HasFedShop result (flow_shop name.now pair) [] }
    {
        FlowReader {
            alloc,
            wanted: Wanted { name, pair },
            left: MOST_BYTES + 1,
            stage: Stage::new(),
        }
    }

    /// The numbers of the instance that the text says, or its first fault, where no more is fed.
    /// It takes no memory; a growth that was refused as the text was fed is
    /// [`ReadFault::OutOfMemory`].
    pub fn into_numbers(self) -> Result<InstanceNumbers<A>, ReadFault>
        ensures given { (says : TextSays) (fed : List ℕ) → HasFedShop self.entry says fed →
            Gives (λ i. i) result (says fed) }
        // Memory is wanting only where the text says what some pairs of times say, or ends early:
        // there is a heading, and its sizes are no fault.
        ensures sized { (says : TextSays) (fed : List ℕ) → HasFedShop self.entry says fed →
            result ≡ Err ReadFault.OutOfMemory → IsOfPairs (says fed) }
        // A text that is too long comes before a growth that was refused.
        ensures too_long { (says : TextSays) (fed : List ℕ) → HasFedShop self.entry says fed →
            most_bytes < length fed → result ≡ Err ReadFault.TooLong }
    {
        if self.left == 0 {
            return Err(ReadFault::TooLong);
        }
        self.stage.ended(&self.wanted)
    }

    /// The instance that the text says, or its first fault, as [`FlowReader::into_numbers`] gives
    /// their numbers. It takes no memory.
    pub fn finish(self) -> Result<Instance<A>, ReadFault>
        ensures given { (says : TextSays) (fed : List ℕ) → HasFedShop self.entry says fed →
            Gives (λ i. i) result (says fed) }
        ensures sized { (says : TextSays) (fed : List ℕ) → HasFedShop self.entry says fed →
            result ≡ Err ReadFault.OutOfMemory → IsOfPairs (says fed) }
        ensures too_long { (says : TextSays) (fed : List ℕ) → HasFedShop self.entry says fed →
            most_bytes < length fed → result ≡ Err ReadFault.TooLong }
    {
        let alloc = self.alloc;
        match self.into_numbers() {
            Err(fault) => Err(fault),
            Ok(numbers) => Ok(numbers.into_instance(alloc)),
        }
    }
}

impl<A: Allocator + Copy> Feed for FlowReader<'_, A> {
    ghost use Rattle.std.proofs.Common.{subst, sym, append_assoc};
    ghost use Rattle.std.proofs.lemmas.List.{append-nil};
    ghost use Rattle.tf_read.specs.FlowReader.{HasFedShop, TakesShop};

    ghost Takes = { TakesShop };

    fn feed(&mut self, piece: &[u8]) {
        self.left = self.left.saturating_sub(piece.len());
        if self.left > 0 {
            self.stage.feed(self.alloc, &self.wanted, piece);
        }
    }

    ghost took_nothing = { λ x says fed h. subst (HasFedShop x says) (sym (append-nil fed)) h };

    ghost took_both = { λ x y z front back first second says fed h.
        subst (HasFedShop z says) (append_assoc fed front back)
        (second says _ (first says fed h)) };
}

/// The instance of this name in a text, or the first fault, as a [`FlowReader`] reads it.
pub fn read_flowshop<A: Allocator + Copy>(
    alloc: A,
    text: &[u8],
    name: &[u8],
    pair: Option<(u32, u32)>,
) -> Result<Instance<A>, ReadFault>
    ensures { Gives (λ i. i) result (flow_shop name.now pair text.now) }
{
    let mut reader = FlowReader::new(alloc, name, pair);
    reader.feed(text);
    reader.finish()
}
