//! Jobs in the order of a key that each has.
ghost use Rattle.std.specs.Prelude.{◌≡◌};
ghost use Rattle.tf_check.specs.Ranked.{IsNear, IsRank, ranked};

use tf_model::ids::JobId;

/// A job and the key that it is sorted by. The greater has the greater key, or the same key and the
/// greater number.
#[derive(Clone, Copy, Debug, Drop, PartialEq, Eq, PartialOrd, Ord)]
pub struct KeyedJob {
    pub key: i64,
    pub job: JobId,
}

// How many numbers a job may have; keys that are as near to one another fit into a rank.
const NUMBERS: u64 = 1 << 32;

/// Between which numbers some keys lie.
#[derive(Clone, Copy, Debug)]
pub struct KeySpan {
    pub least: i64,
    pub greatest: i64,
}

impl KeySpan {
    ghost use Rattle.std.specs.Prelude.{ℤ, IfSome};
    ghost use Rattle.tf_check.specs.Ranked.{IsBetween, IsNear};
    ghost use Rattle.tf_check.specs.declared.keyed_job.KeyedJob.{KeyedJob};

    /// That of no key.
    pub const EMPTY: KeySpan = KeySpan {
        least: i64::MAX,
        greatest: i64::MIN,
    };

    /// With one key more.
    pub fn with(self, key: i64) -> KeySpan
        ensures more { IsBetween result key }
        ensures all { (other : ℤ) → IsBetween self other → IsBetween result other }
    {
        KeySpan {
            least: self.least.min(key),
            greatest: self.greatest.max(key),
        }
    }

    /// The least, where no key is too far from it for a rank.
    pub fn near_least(self) -> Option<i64>
        ensures { IfSome result (λ least. (job : KeyedJob) → IsBetween self job.key
            → IsNear least job) }
    {
        let distance = self.greatest.checked_sub(self.least)?;
        if distance < NUMBERS as i64 {
            Some(self.least)
        } else {
            None
        }
    }
}

/// The rank of a job: how far its key is from the least, and then its number. Of two jobs the
/// greater has the greater rank.
pub fn rank_of(job: KeyedJob, least: i64) -> u64
    requires { IsNear least job }
    ensures job { ranked least result ≡ job }
    ensures rank { IsRank least result }
{
    (job.key - least) as u64 * NUMBERS + u64::from(job.job.get())
}

/// The job of a rank, with its key.
pub fn job_of(rank: u64, least: i64) -> KeyedJob
    requires { IsRank least rank }
    ensures { result ≡ ranked least rank }
{
    KeyedJob {
        key: least + (rank / NUMBERS) as i64,
        job: JobId::at((rank % NUMBERS) as usize - 1),
    }
}
