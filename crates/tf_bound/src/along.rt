//! The least dates of jobs that are at least their own, and along each arc at least the date of the
//! job before and its time.
ghost use Rattle.std.specs.Prelude.{◌≡◌, ℕ, List, [], ◌∷◌, ◌-◌, ◌<◌, ◌≤◌, length, slice_index};
ghost use Rattle.std.specs.Prelude.{slice_index_or, slice_set, false, true, IfOk, IsTrue};
ghost use Rattle.std.specs.Prelude.{MatchOption};
ghost use Rattle.tf_model.specs.Limit.{most_jobs};
ghost use Rattle.tf_problem.specs.Pushed.{release_in};
ghost use Rattle.tf_bound.specs.Along.{AreAlong, AreAmong, AreDated, AreTimes, AreWithin, IsAmong};
ghost use Rattle.tf_bound.specs.Along.{IsEndless, IsPassed, IsRaised, IsRaising, IsSettled};
ghost use Rattle.tf_bound.specs.Along.{KeepsRaised};

use std::alloc::Allocator;
use tf_model::ids::JobId;
use tf_model::limit::LIMIT;
use tf_model::memory::OutOfMemory;

/// The dates, by the jobs' own dates and times. None where the arcs have a cycle, or where a date
/// is beyond twice the limit: due dates are counted back from the limit.
pub(crate) fn dates_along<A: Allocator + Copy>(
    alloc: A,
    own: &[u64],
    work: &[u64],
    arcs: &[(JobId, JobId)],
) -> Result<Option<Vec<u64, A>>, OutOfMemory>
    requires { AreDated own.now work.now arcs.now }
    ensures { IfOk result (λ found. MatchOption found
        ((r : List ℕ) → AreAlong own.now work.now arcs.now r → ¬ (AreWithin r))
        (λ dates. AreAlong own.now work.now arcs.now dates.items × AreWithin dates.items)) }
{
    let mut dates = Vec::from_slice(alloc, own)?;
    if raise_all(alloc, work, dates.as_mut_slice(), arcs)? {
        Ok(Some(dates))
    } else {
        Ok(None)
    }
}

// Raises the dates to those that the arcs ask for, if there are such dates within twice the limit.
fn raise_all<A: Allocator + Copy>(
    alloc: A,
    work: &[u64],
    dates: &mut [u64],
    arcs: &[(JobId, JobId)],
) -> Result<bool, OutOfMemory>
    requires { AreDated dates.old work.now arcs.now }
    ensures len { length dates.new ≡ length dates.old }
    ensures within { IfOk result (λ _. AreWithin dates.new) }
    ensures settled { IfOk result (IsSettled dates.old work.now arcs.now dates.new) }
{
    let waits = walk_arcs(alloc, work, dates, arcs)?;
    if is_endless(alloc, &waits, arcs)? {
        return Ok(false);
    }
    Ok(settle(work, dates, arcs))
}

// ---- passes along all arcs

/// What raising dates along arcs comes to.
#[derive(Clone, Copy)]
pub(crate) enum Raise {
    /// No date had to be raised.
    Unmoved,
    /// A date was raised.
    Raised,
    /// A date would be beyond twice the limit.
    Beyond,
}

// The number of a job, 0 where the list has none.
fn number_of(numbers: &[u64], job: JobId) -> u64
    ensures { result ≡ release_in numbers.now job }
{
    numbers.get(job.place()).copied().unwrap_or(0)
}

// Raises the date of the job behind an arc to when the job before it is completed, if it starts at
// its date.
fn raise_date(work: &[u64], dates: &mut [u64], before: JobId, after: JobId) -> Raise
    requires times { AreTimes (length dates.old) work.now }
    requires within { AreWithin dates.old }
    requires after { IsAmong (length dates.old) after }
    ensures { IsRaising work.now dates.old (before, after) dates.new result }
{
    let end = number_of(dates, before) + number_of(work, before);
    let place = after.place();
    if end <= dates[place] {
        return Raise::Unmoved;
    }
    if end > 2 * LIMIT as u64 {
        return Raise::Beyond;
    }
    dates[place] = end;
    Raise::Raised
}

// Raises the dates along all arcs, one after another.
fn pass(work: &[u64], dates: &mut [u64], arcs: &[(JobId, JobId)]) -> Raise
    requires times { AreTimes (length dates.old) work.now }
    requires within { AreWithin dates.old }
    requires arcs { AreAmong (length dates.old) arcs.now }
    ensures len { length dates.new ≡ length dates.old }
    ensures within { AreWithin dates.new }
    ensures passed { IsPassed work.now arcs.now dates.old dates.new result }
{
    let mut is_raised = false;
    for (before, after) in arcs {
        match raise_date(work, dates, *before, *after) {
            Raise::Unmoved => {}
            Raise::Raised => is_raised = true,
            Raise::Beyond => return Raise::Beyond,
        }
    }
    if is_raised {
        Raise::Raised
    } else {
        Raise::Unmoved
    }
}

// Raises the dates by passes until none is raised, or one would be beyond twice the limit. Each
// pass makes the date of one more job the last one, so that one pass for each job is enough.
fn settle(work: &[u64], dates: &mut [u64], arcs: &[(JobId, JobId)]) -> bool
    requires times { AreTimes (length dates.old) work.now }
    requires within { AreWithin dates.old }
    requires arcs { AreAmong (length dates.old) arcs.now }
    ensures len { length dates.new ≡ length dates.old }
    ensures within { AreWithin dates.new }
    ensures settled { (own : List ℕ) → IsRaised own work.now arcs.now dates.old
        → IsSettled own work.now arcs.now dates.new result }
{
    for _ in 0..dates.len() + 1 {
        match pass(work, dates, arcs) {
            Raise::Unmoved => return true,
            Raise::Raised => {}
            Raise::Beyond => return false,
        }
    }
    false
}

// ---- cycles

fn is_waiting(waits: &[u32], job: JobId) -> bool
    ensures { IsTrue result → 0 < release_in waits.now job }
{
    matches!(waits.get(job.place()), Some(count) if *count > 0)
}

fn mark<A: Allocator>(marks: &mut Vec<bool, A>, job: JobId)
    ensures marks { marks.new.items ≡ slice_set marks.old.items (job - 1) true }
    ensures from_one { 0 < job }
{
    let place = job.place();
    if place < marks.len() {
        marks[place] = true;
    }
}

// Whether jobs wait, and each of them comes by an arc behind one of them.
fn is_endless<A: Allocator>(
    alloc: A,
    waits: &[u32],
    arcs: &[(JobId, JobId)],
) -> Result<bool, OutOfMemory>
    ensures { IfOk result (λ endless. IsTrue endless → IsEndless waits.now arcs.now) }
{
    let mut marks = vec![in alloc; false; waits.len()]?;
    for (before, after) in arcs {
        if is_waiting(waits, *before) {
            mark(&mut marks, *after);
        }
    }
    Ok(are_marked(waits, &marks))
}

// Whether jobs wait, and each of them is marked.
fn are_marked(waits: &[u32], marks: &[bool]) -> bool
    ensures some { IsTrue result → (i : ℕ) × (0 < slice_index waits.now i) }
    ensures each { IsTrue result → (i : ℕ) → 0 < slice_index waits.now i
        → slice_index_or marks.now i false ≡ true }
{
    let mut is_waiting = false;
    for place in 0..waits.len() {
        if waits[place] > 0 {
            if !marks.get(place).copied().unwrap_or(false) {
                return false;
            }
            is_waiting = true;
        }
    }
    is_waiting
}

// ---- the walk

/// How far a walk along the arcs has come.
#[derive(Drop)]
struct Walk<A: Allocator> {
    /// For each job, how many arcs to it were not walked.
    waits: Vec<u32, A>,
    /// The jobs to which all arcs were walked.
    free: Vec<JobId, A>,
}

impl<A: Allocator> Walk<A> {
    ghost use Rattle.std.specs.Prelude.{length, IfOk};
    ghost use Rattle.tf_bound.specs.Along.{AreAmong, AreTimes, AreWithin, KeepsRaised};

    // One arc to the job is walked.
    fn count(&mut self, job: JobId) -> Result<(), OutOfMemory> {
        if let Some(count) = self.waits.get_mut(job.place()) {
            *count = count.saturating_sub(1);
            if *count == 0 {
                self.free.push(job)?;
            }
        }
        Ok(())
    }

    // Walks the arcs from a job; the arcs are sorted.
    fn leave(
        &mut self,
        job: JobId,
        work: &[u64],
        dates: &mut [u64],
        sorted: &[(JobId, JobId)],
    ) -> Result<(), OutOfMemory>
        requires times { AreTimes (length dates.old) work.now }
        requires within { AreWithin dates.old }
        requires arcs { AreAmong (length dates.old) sorted.now }
        ensures len { length dates.new ≡ length dates.old }
        ensures kept { IfOk result (λ _. KeepsRaised work.now sorted.now dates.old dates.new) }
    {
        let begin = sorted.partition_point(|(before, _)| *before < job);
        for place in begin..sorted.len() {
            let arc = sorted[place];
            if arc.0 != job {
                break;
            }
            raise_date(work, dates, arc.0, arc.1);
            self.count(arc.1)?;
        }
        Ok(())
    }
}

// How many arcs lead to each of so many jobs.
fn arcs_into<A: Allocator>(
    alloc: A,
    jobs: usize,
    arcs: &[(JobId, JobId)],
) -> Result<Vec<u32, A>, OutOfMemory> {
    let mut counts: Vec<u32, A> = vec![in alloc; 0; jobs]?;
    for (_, after) in arcs {
        if let Some(count) = counts.get_mut(after.place()) {
            *count = count.saturating_add(1);
        }
    }
    Ok(counts)
}

// The jobs, of so many, to which no arc leads.
fn first_jobs<A: Allocator>(
    alloc: A,
    jobs: usize,
    counts: &[u32],
) -> Result<Vec<JobId, A>, OutOfMemory>
    requires { jobs ≤ most_jobs }
{
    let mut first = Vec::with_capacity(alloc, jobs)?;
    for place in 0..jobs {
        if matches!(counts.get(place), Some(0)) {
            first.push(JobId::at(place))?;
        }
    }
    Ok(first)
}

// Raises the dates by a walk along all arcs, from the jobs on to which none leads (Kahn 1962), and
// gives for each job how many arcs to it could not be walked.
fn walk_arcs<A: Allocator + Copy>(
    alloc: A,
    work: &[u64],
    dates: &mut [u64],
    arcs: &[(JobId, JobId)],
) -> Result<Vec<u32, A>, OutOfMemory>
    requires { AreDated dates.old work.now arcs.now }
    ensures len { length dates.new ≡ length dates.old }
    ensures raised { IfOk result (λ _. IsRaised dates.old work.now arcs.now dates.new
        × AreWithin dates.new) }
{
    let mut sorted = Vec::from_slice(alloc, arcs)?;
    sorted.sort_unstable();
    let waits = arcs_into(alloc, dates.len(), arcs)?;
    let free = first_jobs(alloc, dates.len(), &waits)?;
    let mut walk = Walk { waits, free };
    for next in 0..dates.len() {
        let Some(job) = walk.free.get(next).copied() else {
            break;
        };
        walk.leave(job, work, dates, &sorted)?;
    }
    Ok(walk.waits)
}
