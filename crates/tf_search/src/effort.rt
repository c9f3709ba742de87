//! How many steps a search may take, and who is told how far it is.

/// Is told how far a search is.
pub trait Progress {
    /// So many of all steps are done.
    fn at_step(&mut self, done: u32, all: u32);

    /// The search is over.
    fn is_over(&mut self);
}

/// Nobody, to whom nothing is shown.
#[derive(Clone, Copy)]
pub struct Nobody;

impl Progress for Nobody {
    fn at_step(&mut self, _done: u32, _all: u32) {}

    fn is_over(&mut self) {}
}

/// The steps of a search for prices, where the caller says how many, and to whom each is shown.
#[derive(Drop)]
pub struct Effort<P> {
    pub steps: Option<u32>,
    pub progress: Option<P>,
}

impl<P: Progress> Effort<P> {
    /// So many steps, shown to nobody.
    pub fn untold(steps: Option<u32>) -> Self {
        Effort {
            steps,
            progress: None,
        }
    }

    /// So many of all steps are done.
    pub(crate) fn at_step(&mut self, done: u32, all: u32) {
        if let Some(progress) = &mut self.progress {
            progress.at_step(done, all);
        }
    }

    /// The search is over.
    pub(crate) fn is_over(&mut self) {
        if let Some(progress) = &mut self.progress {
            progress.is_over();
        }
    }
}
