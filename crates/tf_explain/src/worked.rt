//! The working of a rule that gives the optimum: late jobs on one machine, and completion times
//! with preemption, on one machine with release dates or on identical machines.
use std::alloc::{AllocError, Global};
use tf_advice::page::Page;
use tf_bound::task::ProblemTask;
use tf_model::ids::JobId;
use tf_model::problem::{Env, Goal};
use tf_trace::board::{Board, Style};
use tf_trace::table::Cell;

/// The most jobs of which the working is shown.
const MOST_JOBS: usize = 200;

/// A rule that gives the optimum.
#[derive(Clone, Copy)]
enum Rule {
    /// By due date, the longest is crossed out (Moore 1968).
    CrossOut,
    /// The shortest remaining processing time first (Schrage 1968).
    ShortestRemaining,
    /// The longest jobs last on each machine (McNaughton 1959).
    Ranks,
}

/// A job, and what is left of it.
#[derive(Clone, Copy)]
struct Open {
    job: JobId,
    release: u64,
    due: i64,
    left: u64,
}

/// From when to when a job runs, and what is left of it then.
#[derive(Clone, Copy)]
struct Run {
    job: JobId,
    start: u64,
    stop: u64,
    left: u64,
}

/// Adds the working of the rule, where there is one for the problem.
pub(crate) fn explain_rule(
    page: &mut Page,
    task: &ProblemTask,
    style: Style,
) -> Result<(), AllocError> {
    let Some(rule) = rule_for(task) else {
        return Ok(());
    };
    if task.len() > MOST_JOBS {
        return Ok(());
    }
    let mut board = Board::new(page.alloc, style);
    let jobs = jobs_of(page.alloc, task)?;
    match rule {
        Rule::CrossOut => cross_out(&mut board, jobs)?,
        Rule::ShortestRemaining => run_shortest(&mut board, jobs)?,
        Rule::Ranks => rank(&mut board, jobs, u64::from(task.machines()))?,
    }
    page.text.push_str(board.into_page().as_str())
}

fn rule_for(task: &ProblemTask) -> Option<Rule> {
    let problem = task.problem();
    if problem.prec || problem.prmu || problem.nwt {
        return None;
    }
    match (problem.env, problem.goal) {
        (Env::Single, Goal::SumU) if !problem.release => Some(Rule::CrossOut),
        (Env::Single, Goal::SumC) if problem.prmp && problem.release => {
            Some(Rule::ShortestRemaining)
        }
        (Env::Parallel, Goal::SumC) if problem.prmp && !problem.release => Some(Rule::Ranks),
        _ => None,
    }
}

fn jobs_of(alloc: Global, task: &ProblemTask) -> Result<Vec<Open>, AllocError> {
    let mut jobs = Vec::with_capacity(alloc, task.len())?;
    for k in 0..task.len() {
        let job = JobId::at(k);
        jobs.push(Open {
            job,
            release: task.release(job),
            due: task.due(job),
            left: task.work(job),
        })?;
    }
    Ok(jobs)
}

// ---- late jobs

fn cross_out(board: &mut Board, jobs: Vec<Open>) -> Result<(), AllocError> {
    let mut jobs = jobs;
    jobs.sort_unstable_by_key(|job| (job.due, job.job.get()));
    board.say(
        "The jobs by due date (Moore 1968, by an idea of Hodgson's). Where their processing times \
         come to more than the due date, the longest job so far is crossed out:",
    )?;
    board
        .table
        .begin_ragged(&["job", "time", "due", "sum", "crossed out"])?;
    let late = show_crossed(board, &mut jobs)?;
    board.show()?;
    match late {
        0 => board
            .text
            .push_str("No job is crossed out, so all are in time in this order.")?,
        _ => write!(
            board.text,
            "Crossed out: {late} of {}, which go last; the others are in time in this order. No \
             schedule has fewer late jobs: of the first jobs by due date, no choice keeps more in \
             time, or as many in less time.",
            jobs.len()
        )?,
    }
    board.end_sentence()
}

// A row for each job. Nothing is left of those that are crossed out, and how many there are is
// returned.
fn show_crossed(board: &mut Board, jobs: &mut [Open]) -> Result<u32, AllocError> {
    let rows = jobs.len();
    let mut note = String::new(board.alloc);
    let mut sum: u64 = 0;
    let mut late: u32 = 0;
    for place in 0..rows {
        let Some(job) = jobs.get(place).copied() else {
            break;
        };
        let with = sum.saturating_add(job.left);
        sum = with;
        note.clear();
        if i128::from(with) > i128::from(job.due) {
            let longest = taken_out(jobs, place);
            sum = with.saturating_sub(longest.left);
            late = late.saturating_add(1);
            write!(note, "job {}, leaves {sum}", longest.job.get())?;
        }
        let cells = [
            Cell::Number(i128::from(job.job.get())),
            Cell::Number(i128::from(job.left)),
            Cell::Number(i128::from(job.due)),
            Cell::Number(i128::from(with)),
            Cell::Words(note.as_str()),
        ];
        board.row(place, rows, &cells)?;
    }
    Ok(late)
}

// The first of the longest jobs up to a place, of which nothing is left then.
fn taken_out(jobs: &mut [Open], last: usize) -> Open {
    let mut longest = Open {
        job: JobId::at(0),
        release: 0,
        due: 0,
        left: 0,
    };
    let mut at = 0;
    for (place, job) in jobs.iter().enumerate() {
        if place <= last && job.left > longest.left {
            longest = *job;
            at = place;
        }
    }
    if let Some(job) = jobs.get_mut(at) {
        job.left = 0;
    }
    longest
}

// ---- the shortest remaining processing time

fn run_shortest(board: &mut Board, jobs: Vec<Open>) -> Result<(), AllocError> {
    let runs = shortest_runs(board.alloc, jobs)?;
    board.say(
        "Of the released jobs the one of the shortest remaining processing time runs (Schrage \
         1968):",
    )?;
    board.table.begin(&["job", "from", "to", "left"])?;
    let mut total: u64 = 0;
    for (place, run) in runs.iter().enumerate() {
        let cells = [
            Cell::Number(i128::from(run.job.get())),
            Cell::Number(i128::from(run.start)),
            Cell::Number(i128::from(run.stop)),
            Cell::Number(i128::from(run.left)),
        ];
        board.row(place, runs.len(), &cells)?;
        if run.left == 0 {
            total = total.saturating_add(run.stop);
        }
    }
    board.show()?;
    write!(
        board.text,
        "The completion times come to {total}. No schedule has a smaller sum: at each time no \
         other has more jobs completed."
    )?;
    board.end_sentence()
}

fn shortest_runs(alloc: Global, jobs: Vec<Open>) -> Result<Vec<Run>, AllocError> {
    let mut jobs = jobs;
    let mut runs: Vec<Run> = Vec::new(alloc);
    let mut now: u64 = 0;
    for _ in 0..jobs.len().saturating_mul(3) {
        let next = next_release(&jobs, now);
        let Some(place) = shortest_at(&jobs, now) else {
            match next {
                Some(release) => now = release,
                None => break,
            }
            continue;
        };
        if let Some(job) = jobs.get_mut(place) {
            let stop = next.unwrap_or(u64::MAX).min(now.saturating_add(job.left));
            job.left = job.left.saturating_sub(stop.saturating_sub(now));
            extend(&mut runs, job, now, stop)?;
            now = stop;
        }
    }
    Ok(runs)
}

// The first release date behind a time of a job that is not complete.
fn next_release(jobs: &[Open], now: u64) -> Option<u64> {
    let mut next: Option<u64> = None;
    for job in jobs {
        if job.left > 0 && job.release > now {
            next = Some(next.unwrap_or(u64::MAX).min(job.release));
        }
    }
    next
}

// The place of the released job of which least is left, the first among equals.
fn shortest_at(jobs: &[Open], now: u64) -> Option<usize> {
    let mut shortest: Option<(usize, u64)> = None;
    for (place, job) in jobs.iter().enumerate() {
        let least = match shortest {
            Some((_, left)) => left,
            None => u64::MAX,
        };
        if job.release <= now && job.left > 0 && job.left < least {
            shortest = Some((place, job.left));
        }
    }
    shortest.map(|(place, _)| place)
}

// Adds a run, or makes the last one longer where its job goes on.
fn extend(runs: &mut Vec<Run>, job: &Open, start: u64, stop: u64) -> Result<(), AllocError> {
    if let Some(last) = runs.last_mut() {
        if last.job == job.job && last.stop == start {
            last.stop = stop;
            last.left = job.left;
            return Ok(());
        }
    }
    runs.push(Run {
        job: job.job,
        start,
        stop,
        left: job.left,
    })?;
    Ok(())
}

// ---- ranks

fn rank(board: &mut Board, jobs: Vec<Open>, machines: u64) -> Result<(), AllocError> {
    let mut jobs = jobs;
    jobs.sort_unstable_by_key(|job| (u64::MAX.saturating_sub(job.left), job.job.get()));
    write!(
        board.text,
        "The jobs by falling processing time: the {machines} longest go last on their machines and \
         count once, the next {machines} twice, and so on (McNaughton 1959):"
    )?;
    board.end_sentence()?;
    board.table.begin(&["job", "time", "counts", "product"])?;
    let mut total: u64 = 0;
    let mut place_in: u64 = 0;
    for (place, job) in jobs.iter().enumerate() {
        let counts = (place_in / machines.max(1)).saturating_add(1);
        let product = counts.saturating_mul(job.left);
        total = total.saturating_add(product);
        place_in = place_in.saturating_add(1);
        let cells = [
            Cell::Number(i128::from(job.job.get())),
            Cell::Number(i128::from(job.left)),
            Cell::Number(i128::from(counts)),
            Cell::Number(i128::from(product)),
        ];
        board.row(place, jobs.len(), &cells)?;
    }
    board.show()?;
    write!(
        board.text,
        "The products come to {total}. No schedule has a smaller sum of completion times, with \
         preemption or without."
    )?;
    board.end_sentence()
}
