//! The lines before the value of an answer.
ghost use Rattle.std.specs.Prelude.{◌<◌, ◌≤◌};
ghost use Rattle.tf_model.specs.Limit.{most_machines};

use crate::answer::layout::Layout;
use tf_model::problem::Problem;

/// What an answer is for, and its version.
#[derive(Clone, Copy)]
pub(crate) struct Head {
    pub layout: Layout,
    pub problem: Problem,
    pub jobs: u32,
    pub machines: u32,
    pub ghost some: { 0 < machines },
    pub ghost most: { machines ≤ most_machines },
}
