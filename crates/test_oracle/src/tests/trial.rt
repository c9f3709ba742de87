//! The program's answers to small tasks, each held against all timetables.
use super::asking::{pieces_of, task_of};
use super::certificates::certificates;
use crate::family::Family;
use crate::small_task::SmallTask;
use crate::timetable::{Timetable, least_cost};
use std::alloc::{AllocError, Global};
use std::test::Fail;
use tf_check::answer::Answer;
use tf_check::certificate::Certificate;
use tf_check::check::check;
use tf_check::evidence::Evidence;
use tf_check::last_of::LastOf;
use tf_check::verdict::Verdict;
use tf_engine::solve::{SolveFault, solve};
use tf_model::ids::JobId;
use tf_model::job_list::JobList;
use tf_model::task::Task;
use tf_schedule::piece_list::PieceList;

/// How much was looked at. The numbers that the tests want were counted by a program in another
/// language.
#[derive(Clone, Copy, Debug, Default, PartialEq, Eq)]
pub struct Tally {
    pub tasks: u64,
    pub timetables: u64,
    /// Timetables that fit.
    pub fitting: u64,
    /// Certificates that give a bound.
    pub bounds: u64,
}

/// So many tasks, timetables, timetables that fit, and certificates that give a bound.
pub fn counts(tasks: u64, timetables: u64, fitting: u64, bounds: u64) -> Tally {
    Tally {
        tasks,
        timetables,
        fitting,
        bounds,
    }
}

// Each job precedes the next by an arc, and the last precedes the first.
fn is_cycle(task: &SmallTask, jobs: &[JobId]) -> bool {
    let Some(last) = jobs.last() else {
        return false;
    };
    let mut before = *last;
    for job in jobs {
        if !task.arcs.contains(&(before, *job)) {
            return false;
        }
        before = *job;
    }
    true
}

/// Some pieces, and a certificate that names job 1.
fn any_answer(alloc: Global, small: &SmallTask) -> Result<Answer, AllocError> {
    let pieces = first_pieces(alloc, small)?;
    let jobs = JobList::new(vec![in alloc; JobId::at(0)]?);
    Ok(Answer {
        pieces,
        value: 0,
        certificate: Certificate::LastOf(LastOf { jobs }),
    })
}

fn first_pieces(alloc: Global, small: &SmallTask) -> Result<PieceList, AllocError> {
    let timetable = Timetable::first_of(alloc, small, 1)?;
    pieces_of(alloc, &timetable)
}

/// Which timetables are looked at.
#[derive(Clone, Copy)]
enum Timetables {
    /// Those in which each job has its time.
    OfTheTask,
    /// All.
    All,
}

impl Timetables {
    fn first_of(self, alloc: Global, small: &SmallTask) -> Result<Timetable, AllocError> {
        match self {
            Timetables::OfTheTask => Timetable::first_of(alloc, small, small.horizon()),
            Timetables::All => Timetable::idle(alloc, small, small.horizon()),
        }
    }

    fn advance(self, timetable: &mut Timetable, small: &SmallTask) -> bool {
        match self {
            Timetables::OfTheTask => timetable.next_of(small),
            Timetables::All => timetable.next_filling(small),
        }
    }
}

/// A small task, and the least cost of a timetable that fits it.
#[derive(Drop)]
struct Trial<'a> {
    small: &'a SmallTask,
    task: Task,
    least: Option<i64>,
}

impl Trial<'_> {
    fn is_accepted(&self, alloc: Global, answer: &Answer) -> Result<bool, Fail> {
        match check(alloc, &self.task, answer) {
            Ok(Verdict::Accepted) => Ok(true),
            Ok(Verdict::Rejected(_)) => Ok(false),
            Err(_) => Err(Fail::new("want of memory")),
        }
    }

    /// Each of these jobs precedes the next by an arc, and the last precedes the first; and no
    /// timetable fits.
    fn is_a_reason(&self, jobs: &[JobId]) -> bool {
        self.least.is_none() && is_cycle(self.small, jobs)
    }

    /// The program's answer to the task, or some pieces and a certificate where arcs form a cycle;
    /// none where it is wrong.
    fn answer(&self, alloc: Global) -> Result<Option<Answer>, AllocError> {
        match solve(alloc, &self.task) {
            Ok(answer) => {
                let is_least = Some(answer.value) == self.least;
                Ok(if is_least { Some(answer) } else { None })
            }
            Err(SolveFault::Cycle(jobs)) => {
                if self.is_a_reason(jobs.as_slice()) {
                    any_answer(alloc, self.small).map(Some)
                } else {
                    Ok(None)
                }
            }
            Err(SolveFault::OutOfMemory) => Err(AllocError),
        }
    }

    /// The program's answer is accepted where a timetable fits, and its certificate shows that no
    /// other is better.
    fn answer_holds(
        &self,
        alloc: Global,
        timetables: Timetables,
        tally: &mut Tally,
    ) -> Result<bool, Fail> {
        match self.answer(alloc)? {
            Some(answer) => {
                let is_accepted = self.is_accepted(alloc, &answer)?;
                let are_judged = self.timetables_are_judged(alloc, timetables, answer, tally)?;
                Ok(is_accepted == self.least.is_some() && are_judged)
            }
            None => Ok(false),
        }
    }

    /// The checker accepts the answer's certificate with those timetables alone that fit and cost
    /// least, and at no lesser value.
    fn timetables_are_judged(
        &self,
        alloc: Global,
        timetables: Timetables,
        mut answer: Answer,
        tally: &mut Tally,
    ) -> Result<bool, Fail> {
        let mut timetable = timetables.first_of(alloc, self.small)?;
        for _ in 0..u64::MAX {
            if !self.is_counted(alloc, &timetable, &mut answer, tally)? {
                return Ok(false);
            }
            if !timetables.advance(&mut timetable, self.small) {
                break;
            }
        }
        Ok(true)
    }

    /// Counts a timetable, and holds the answer's certificate against it.
    fn is_counted(
        &self,
        alloc: Global,
        timetable: &Timetable,
        answer: &mut Answer,
        tally: &mut Tally,
    ) -> Result<bool, Fail> {
        let fits = timetable.fits(self.small);
        tally.timetables = tally.timetables.saturating_add(1);
        tally.fitting = tally.fitting.saturating_add(u64::from(fits));
        answer.pieces = pieces_of(alloc, timetable)?;
        self.is_judged(alloc, answer, timetable.cost(self.small), fits)
    }

    /// The answer is accepted at this cost where it fits and no timetable costs less, and then not
    /// at a lesser value.
    fn is_judged(
        &self,
        alloc: Global,
        answer: &mut Answer,
        cost: i64,
        fits: bool,
    ) -> Result<bool, Fail> {
        let is_best = fits && self.least == Some(cost);
        answer.value = cost;
        if self.is_accepted(alloc, answer)? != is_best {
            return Ok(false);
        }
        answer.value = cost.saturating_sub(1);
        Ok(!is_best || !self.is_accepted(alloc, answer)?)
    }

    /// No certificate gives a bound that a timetable beats.
    fn bounds_hold(&self, alloc: Global, certificates: &[Certificate], tally: &mut Tally) -> bool {
        for certificate in certificates {
            if let Ok(bound) = certificate.bound(alloc, &self.task) {
                if self.least.is_some_and(|least| bound > i128::from(least)) {
                    return false;
                }
                tally.bounds = tally.bounds.saturating_add(1);
            }
        }
        true
    }
}

/// Whether all holds that is held against the timetables of this task.
fn examine(
    alloc: Global,
    timetables: Timetables,
    small: &SmallTask,
    certificates: &[Certificate],
    tally: &mut Tally,
) -> Result<bool, Fail> {
    let trial = Trial {
        small,
        task: task_of(alloc, small)?,
        least: least_cost(alloc, small)?,
    };
    tally.tasks = tally.tasks.saturating_add(1);
    let bounds_hold = trial.bounds_hold(alloc, certificates, tally);
    Ok(bounds_hold && trial.answer_holds(alloc, timetables, tally)?)
}

/// Examines all tasks of a family, up to the first for which something does not hold.
fn examine_family(
    alloc: Global,
    timetables: Timetables,
    family: &Family,
    tally: &mut Tally,
) -> Result<bool, Fail> {
    let certificates = certificates(alloc, family.jobs)?;
    for number in 0..family.count() {
        if let Some(task) = family.task(alloc, number)?
            && !examine(alloc, timetables, &task, &certificates, tally)?
        {
            return Ok(false);
        }
    }
    Ok(true)
}

/// Ends a test where this is not so, and tells how much was looked at until then.
fn told(is_so: bool, tally: Tally) -> Result<(), Tally> {
    if is_so { Ok(()) } else { Err(tally) }
}

/// Examines all tasks of a family with up to so many jobs. There are as many as is said.
fn examine_all(
    alloc: Global,
    timetables: Timetables,
    most_jobs: u32,
    family: &Family,
    wanted: Tally,
) -> Result<(), Fail> {
    let mut tally = Tally::default();
    let mut holds = true;
    for jobs in 1..=most_jobs {
        holds = holds && examine_family(alloc, timetables, &family.of(jobs), &mut tally)?;
    }
    Ok(told(holds && tally == wanted, tally)?)
}

/// Holds the answers to all tasks of up to so many jobs against the timetables in which each job
/// has its time.
pub fn examine_own(
    alloc: Global,
    most_jobs: u32,
    family: &Family,
    wanted: Tally,
) -> Result<(), Fail> {
    examine_all(alloc, Timetables::OfTheTask, most_jobs, family, wanted)
}

/// Holds the answers to all tasks of one and two jobs and at most four time steps against all
/// timetables.
fn examine_any(alloc: Global, family: &Family, wanted: Tally) -> Result<(), Fail> {
    examine_all(alloc, Timetables::All, 2, &family.within(4), wanted)
}

/// Holds the answers to all tasks of up to three jobs against the timetables in which each job has
/// its time, and those to small ones against all timetables.
pub fn examine_both(alloc: Global, family: &Family, own: Tally, any: Tally) -> Result<(), Fail> {
    examine_own(alloc, 3, family, own)?;
    examine_any(alloc, family, any)
}

/// A family, and how much is looked at of it: tasks, timetables, those that fit, and certificates
/// that give a bound.
pub struct Row {
    pub family: Family,
    /// With the timetables in which each job has its time.
    pub own: [u64; 4],
    /// Of small tasks with all timetables.
    pub any: [u64; 4],
    /// How many of either fit where jobs may be preempted. The other numbers are the same then.
    pub broken: [u64; 2],
}

fn tally_of(row: [u64; 4]) -> Tally {
    let [tasks, timetables, fitting, bounds] = row;
    counts(tasks, timetables, fitting, bounds)
}

/// Holds the answers to the family's tasks against timetables, without preemption and with it.
pub fn examine_row(alloc: Global, row: &Row) -> Result<(), Fail> {
    let (own, any) = (tally_of(row.own), tally_of(row.any));
    examine_both(alloc, &row.family, own, any)?;
    let [fitting_own, fitting_any] = row.broken;
    let own = Tally {
        fitting: fitting_own,
        ..own
    };
    let any = Tally {
        fitting: fitting_any,
        ..any
    };
    examine_both(alloc, &row.family.with_breaks(), own, any)
}
