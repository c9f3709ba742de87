//! The dates of jobs.
ghost use Rattle.std.specs.Prelude.{◌≡◌, ◌-ℤ◌};
ghost use Rattle.tf_model.specs.Whole.{as_time};
ghost use Rattle.tf_picture.specs.Dates.{due_of, release_of, tardiness};

use tf_model::ids::JobId;
use tf_schedule::piece::Piece;

/// The dates of a job, in time steps, as far as the problem uses them.
#[derive(Clone, Copy, Debug, PartialEq, Eq)]
pub struct JobDates {
    /// The release date: the job starts no earlier.
    pub release: Option<i64>,
    /// The due date, which may be negative: a job that is completed later is late.
    pub due: Option<i64>,
}

/// The release date of a job, where it has one.
pub fn release_of(dates: &[JobDates], job: JobId) -> Option<i64>
    ensures { result ≡ release_of dates.now job }
{
    match dates.get(job.place()) {
        Some(found) => found.release,
        None => None,
    }
}

/// The due date of a job, where it has one.
pub fn due_of(dates: &[JobDates], job: JobId) -> Option<i64>
    ensures { result ≡ due_of dates.now job }
{
    match dates.get(job.place()) {
        Some(found) => found.due,
        None => None,
    }
}

/// How many time steps after the due date of its job a piece stops: 0 where it does not.
pub fn tardiness(dates: &[JobDates], piece: &Piece) -> u64
    ensures { result ≡ tardiness dates.now piece.now }
{
    match due_of(dates, piece.job) {
        Some(due) => steps_after(due, piece.stop),
        None => 0,
    }
}

// How many time steps after a date a time is: 0 where it is not.
fn steps_after(date: i64, time: i64) -> u64
    ensures { result ≡ as_time (time -ℤ date) }
{
    let late = i128::from(time) - i128::from(date);
    late.max(0) as u64
}
