//! Each growth that a call asks for, refused in turn.
use crate::runs::ensure;
use refusing::Refusing;
use std::alloc::Global;
use std::test::Fail;

/// How a call ended in which a growth may have been refused. Whatever else it may answer is a
/// failure of the test.
#[derive(Clone, Copy, PartialEq, Eq)]
pub enum Ended {
    /// With the answer that is wanted of it.
    Answered,
    /// With want of memory, and without a trace.
    OutOfMemory,
}

/// No call of a test asks for so many growths.
const MANY: u64 = 400;

/// More growths than any call asks for, and few enough that none counts as refused.
const AMPLE: u64 = 1_000_000_000;

/// A heap that grants each growth.
pub fn ample(alloc: Global) -> Refusing<Global> {
    Refusing::new(alloc, AMPLE)
}

/// Makes the call with growth n refused, for n = 0, 1, .. until it meets no refusal; and after each
/// of them once more with ample memory, with which it answers. How many growths it asks for.
pub fn refuse_each_growth<F: Fn(&Refusing<Global>) -> Result<Ended, Fail>>(
    rt: &HostRuntime,
    call: F,
) -> Result<u64, Fail>
    requires { F.IsAlwaysCallable call }
{
    for growths in 0..MANY {
        let heap = Refusing::new(rt.alloc(), growths);
        let ended = call(&heap)?;
        if !heap.has_refused() {
            ensure(ended == Ended::Answered, "want of memory without a refusal")?;
            return Ok(growths);
        }
        let again = call(&ample(rt.alloc()))?;
        ensure(again == Ended::Answered, "want of memory for ever")?;
    }
    Err(Fail::new("each call meets a refusal"))
}
