//! Who is told how far the searches of a plan are.
use tf_improve::watch::Watch;
use tf_search::effort::{Nobody, Progress};

/// Is told how far the search for a schedule is.
pub trait PlanProgress {
    /// So many of all steps are done, and the best schedule costs so much. None costs less than the
    /// bound.
    fn at_cost(&mut self, done: u64, all: u64, cost: i128, bound: i128);

    /// The search is over.
    fn has_plan(&mut self);
}

impl PlanProgress for Nobody {
    fn at_cost(&mut self, _done: u64, _all: u64, _cost: i128, _bound: i128) {}

    fn has_plan(&mut self) {}
}

/// The progress of the search for a bound, lent to that.
#[derive(Drop)]
pub(crate) struct Lent<'a, P> {
    pub progress: &'a mut P,
}

impl<P: Progress> Progress for Lent<'_, P> {
    fn at_step(&mut self, done: u32, all: u32) {
        self.progress.at_step(done, all);
    }

    fn is_over(&mut self) {
        self.progress.is_over();
    }
}

/// Who watches the search for a schedule, if anybody does, how many steps it has, and the bound.
#[derive(Drop)]
pub(crate) struct Watched<'a, P> {
    pub progress: &'a mut Option<P>,
    pub all: u64,
    pub bound: i128,
}

impl<P: PlanProgress> Watch for Watched<'_, P> {
    fn at_steps(&mut self, steps: u64, cost: i128) {
        if let Some(progress) = &mut *self.progress {
            progress.at_cost(steps, self.all, cost, self.bound);
        }
    }
}
