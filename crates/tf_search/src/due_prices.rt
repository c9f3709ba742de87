//! Prices that fall at due dates, for the number of late jobs and its weighted form.
//!
//! A job that is in time takes all of its time between its release date and its due date. The jobs
//! of greatest ratio of weight to time are given room first, each as far as all windows around it
//! have room. Where a window is full, its time steps cost the ratio of the first job that found no
//! room. These are the best prices of the relaxation in which a part of a job may be in time, since
//! the greedy algorithm is exact for it (Edmonds 1971).
//!
//! Nothing is promised of the prices: the judge computes what they bound.
use std::alloc::Allocator;
use std::cmp::Ordering;
use tf_bound::task::ProblemTask;
use tf_model::ids::JobId;
use tf_model::memory::OutOfMemory;

// The most jobs of which the release dates are used, which takes the third power of their number.
const MOST_RELEASED: usize = 300;

// When a job is released and due, how long it takes, and what it costs to be late.
#[derive(Clone, Copy)]
struct DueJob {
    release: u64,
    due: u64,
    time: u64,
    weight: u64,
}

// The time steps between a release date and a due date, and how much of the machines' time is left
// there.
#[derive(Clone, Copy)]
struct Room {
    from: u64,
    to: u64,
    left: u64,
}

impl Room {
    // Whether the job has to be here to be in time.
    fn is_around(self, job: DueJob) -> bool {
        self.from <= job.release && job.due <= self.to
    }
}

/// The prices over q of the first `rows` time steps, which fall at due dates.
pub(crate) fn due_prices<A: Allocator + Copy, B: Allocator>(
    alloc: A,
    task: &ProblemTask<B>,
    rows: usize,
    q: u64,
) -> Result<Vec<u64, A>, OutOfMemory> {
    let mut jobs = jobs_of(alloc, task)?;
    let mut rooms = rooms_of(alloc, &jobs, u64::from(task.machines()))?;
    let mut prices = vec![in alloc; 0_u64; rows]?;
    jobs.sort_unstable_by(|first, second| by_ratio(first, second));
    for job in jobs.iter() {
        if give_room(&mut rooms, *job) < job.time {
            let price = q.saturating_mul(job.weight).checked_div(job.time);
            raise(&mut prices, full_around(&rooms, *job), price.unwrap_or(0));
        }
    }
    Ok(prices)
}

/// What the jobs cost that the rule of Moore and Hodgson makes late: by due date each job is put
/// in, and while the jobs that are in end too late, the one of least ratio of weight to time is
/// crossed out. On one machine without release dates and arcs all others are in time.
pub(crate) fn crossed_out_cost<A: Allocator, B: Allocator>(
    alloc: A,
    task: &ProblemTask<B>,
) -> Result<u64, OutOfMemory> {
    let mut jobs = jobs_of(alloc, task)?;
    jobs.sort_unstable_by(|first, second| first.due.cmp(&second.due));
    let mut chosen = Chosen { work: 0, cost: 0 };
    for last in 0..jobs.len() {
        if let Some(job) = jobs.get(last).copied() {
            chosen.work = chosen.work.saturating_add(job.time);
            chosen = chosen.within(&mut jobs, last, job.due);
        }
    }
    Ok(chosen.cost)
}

// The time of the jobs that are in time, and what the others cost.
#[derive(Clone, Copy)]
struct Chosen {
    work: u64,
    cost: u64,
}

impl Chosen {
    // Crosses out jobs up to the last one until the others end by a due date. One that is crossed
    // out has no time.
    fn within(self, jobs: &mut [DueJob], last: usize, due: u64) -> Chosen {
        let mut chosen = self;
        for _ in 0..=last {
            if chosen.work <= due {
                break;
            }
            let place = least_worth(jobs, last);
            if let Some(job) = jobs.get_mut(place) {
                chosen.work = chosen.work.saturating_sub(job.time);
                chosen.cost = chosen.cost.saturating_add(job.weight);
                job.time = 0;
            }
        }
        chosen
    }
}

// The place of the job of least ratio of weight to time, among those up to the last one that take
// time.
fn least_worth(jobs: &[DueJob], last: usize) -> usize {
    let mut least: Option<DueJob> = None;
    let mut best = 0;
    for (place, job) in jobs.iter().enumerate() {
        let is_less = match least {
            Some(other) => matches!(by_ratio(&other, job), Ordering::Less),
            None => true,
        };
        if place <= last && job.time > 0 && is_less {
            least = Some(*job);
            best = place;
        }
    }
    best
}

// Falling ratios of weight to time, compared as products.
fn by_ratio(first: &DueJob, second: &DueJob) -> Ordering {
    let ahead = u128::from(first.weight) * u128::from(second.time);
    let behind = u128::from(second.weight) * u128::from(first.time);
    behind.cmp(&ahead)
}

fn jobs_of<A: Allocator, B: Allocator>(
    alloc: A,
    task: &ProblemTask<B>,
) -> Result<Vec<DueJob, A>, OutOfMemory> {
    let mut jobs = Vec::with_capacity(alloc, task.len())?;
    let has_releases = task.problem().release && task.len() <= MOST_RELEASED;
    for k in 0..task.len() {
        let job = JobId::at(k);
        jobs.push(DueJob {
            release: if has_releases { task.release(job) } else { 0 },
            due: u64::try_from(task.due(job)).unwrap_or(0),
            time: task.work(job),
            weight: task.weight(job),
        })?;
    }
    Ok(jobs)
}

// The room of all machines between each release date and each due date.
fn rooms_of<A: Allocator + Copy>(
    alloc: A,
    jobs: &[DueJob],
    machines: u64,
) -> Result<Vec<Room, A>, OutOfMemory> {
    let mut releases = Vec::with_capacity(alloc, jobs.len())?;
    let mut dues = Vec::with_capacity(alloc, jobs.len())?;
    for job in jobs {
        releases.push(job.release)?;
        dues.push(job.due)?;
    }
    releases.sort_unstable();
    releases.dedup();
    dues.sort_unstable();
    dues.dedup();
    between(alloc, &releases, &dues, machines)
}

fn between<A: Allocator>(
    alloc: A,
    releases: &[u64],
    dues: &[u64],
    machines: u64,
) -> Result<Vec<Room, A>, OutOfMemory> {
    let mut rooms = Vec::new(alloc);
    for from in releases {
        for to in dues {
            rooms.push(Room {
                from: *from,
                to: *to,
                left: machines.saturating_mul(to.saturating_sub(*from)),
            })?;
        }
    }
    Ok(rooms)
}

// Takes as much room for a job as all windows around it have. Returns how much.
fn give_room(rooms: &mut [Room], job: DueJob) -> u64 {
    let mut given = job.time;
    for room in rooms.iter() {
        if room.is_around(job) {
            given = given.min(room.left);
        }
    }
    for room in rooms.iter_mut() {
        if room.is_around(job) {
            room.left = room.left.saturating_sub(given);
        }
    }
    given
}

// The time steps that all full windows around a job have in common.
fn full_around(rooms: &[Room], job: DueJob) -> Room {
    let mut full = Room {
        from: 0,
        to: u64::MAX,
        left: 0,
    };
    for room in rooms {
        if room.left == 0 && room.is_around(job) {
            full.from = full.from.max(room.from);
            full.to = full.to.min(room.to);
        }
    }
    full
}

// Gives the time steps a price that have none.
fn raise(prices: &mut [u64], full: Room, price: u64) {
    let to = full.to.min(prices.len() as u64) as usize;
    for row in (full.from as usize)..to {
        if prices[row] == 0 {
            prices[row] = price;
        }
    }
}
