//! The sizes of a flow shop, a line of two words of digits alone, byte by byte.
ghost use Rattle.tf_model.specs.Limit.{most_jobs, most_machines};
ghost use Rattle.std.specs.Prelude.{◌≡◌, ℕ, ◌<◌, ◌≤◌, List, [], ◌∷◌, ◌++◌, IfOk, IsTrue, true};
ghost use Rattle.std.specs.Prelude.{false};
ghost use Rattle.std.specs.Char.{is_ascii_digit};
ghost use Rattle.tf_words.specs.Words.{words, is_white};
ghost use Rattle.tf_read.specs.FlowShop.{are_machines, sizes_in};
ghost use Rattle.tf_read.specs.Sizes.{HasDigits, IsSize, SizesShown, judged_sizes};

use crate::fault::ReadFault;
use tf_model::limit::{LIMIT, MOST_JOBS, MOST_MACHINES};
use tf_words::digits::with_digit;
use tf_words::word::is_white;

/// What the bytes of a line have shown of sizes. A number above the limit is cut off.
#[derive(Clone, Copy)]
pub(crate) enum SizesLine {
    /// No word.
    Blank,
    /// The number of jobs, which may go on.
    Jobs(u64),
    /// The number of jobs, and white space.
    Between(u64),
    /// The numbers of jobs and of machines, of which the second may go on.
    Machines(u64, u64),
    /// Both numbers, and white space.
    Both(u64, u64),
    /// No sizes, however the line goes on.
    Other,
}

/// A size with one digit more, cut off.
fn size_with(size: u64, digit: u8) -> u64
    requires { is_ascii_digit digit ≡ true }
    ensures { (word : List ℕ) → HasDigits size word → IsSize result (word ++ digit ∷ []) }
{
    with_digit(size, digit).min(LIMIT as u64 + 1)
}

impl SizesLine {
    /// With a white byte more.
    fn gap(self) -> SizesLine
        ensures { (bytes : List ℕ) (byte : ℕ) → is_white byte ≡ true → SizesShown bytes self →
            SizesShown (bytes ++ byte ∷ []) result }
    {
        match self {
            SizesLine::Jobs(jobs) => SizesLine::Between(jobs),
            SizesLine::Machines(jobs, machines) => SizesLine::Both(jobs, machines),
            line => line,
        }
    }

    /// With a digit more.
    fn digit(self, byte: u8) -> SizesLine
        requires { is_ascii_digit byte ≡ true }
        ensures { (bytes : List ℕ) → is_white byte ≡ false → SizesShown bytes self →
            SizesShown (bytes ++ byte ∷ []) result }
    {
        match self {
            SizesLine::Blank => SizesLine::Jobs(size_with(0, byte)),
            SizesLine::Jobs(jobs) => SizesLine::Jobs(size_with(jobs, byte)),
            SizesLine::Between(jobs) => SizesLine::Machines(jobs, size_with(0, byte)),
            SizesLine::Machines(jobs, machines) => {
                SizesLine::Machines(jobs, size_with(machines, byte))
            }
            SizesLine::Both(_, _) | SizesLine::Other => SizesLine::Other,
        }
    }

    /// With one byte more of the line.
    pub(crate) fn push(self, byte: u8) -> SizesLine
        ensures { (bytes : List ℕ) → SizesShown bytes self →
            SizesShown (bytes ++ byte ∷ []) result }
    {
        if is_white(byte) {
            self.gap()
        } else if byte.is_ascii_digit() {
            self.digit(byte)
        } else {
            SizesLine::Other
        }
    }

    /// The numbers of jobs and of machines, if the line ends here and is one of sizes.
    pub(crate) fn sizes(self) -> Option<(u64, u64)>
        ensures { (bytes : List ℕ) → SizesShown bytes self → result ≡ sizes_in (words bytes) }
    {
        match self {
            SizesLine::Machines(jobs, machines) | SizesLine::Both(jobs, machines) => {
                Some((jobs, machines))
            }
            _ => None,
        }
    }
}

/// Whether there is such a pair among so many machines.
fn is_pair(machines: u32, pair: Option<(u32, u32)>) -> bool
    ensures { result ≡ are_machines machines pair }
{
    match pair {
        None => true,
        Some((first, second)) => first != second && first < machines && second < machines,
    }
}

/// The sizes on a line, as they are judged.
pub(crate) fn judged_sizes(
    pair: Option<(u32, u32)>,
    line: u32,
    sizes: (u64, u64),
) -> Result<(usize, u32), ReadFault>
    ensures value { result ≡ judged_sizes pair line sizes }
    ensures within { IfOk result (λ s. record {
      some : 0 < s.0;
      few : s.0 ≤ most_jobs;
      machines_some : 0 < s.1;
      machines_few : s.1 ≤ most_machines;
      pair : IsTrue (are_machines s.1 pair);
    }) }
{
    let (jobs, machines) = sizes;
    if jobs == 0 {
        return Err(ReadFault::NoJobs);
    }
    if jobs > MOST_JOBS as u64 {
        return Err(ReadFault::TooManyJobs);
    }
    if machines == 0 || machines > u64::from(MOST_MACHINES) {
        return Err(ReadFault::BadLine(line));
    }
    let machines = machines as u32;
    if !is_pair(machines, pair) {
        return Err(ReadFault::BadPair);
    }
    Ok((jobs as usize, machines))
}
