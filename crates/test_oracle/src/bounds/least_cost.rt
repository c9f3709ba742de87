//! The least cost of a small task.
use super::clock::{assignment_count, cost_of, first_order};
use super::small_task::SmallTask;
use crate::arrangement::advance;
use std::alloc::{AllocError, Global};

/// What was seen of a task's schedules.
#[derive(Clone, Copy, Default)]
pub struct Survey {
    /// How many orders there are, those among them that break an arc.
    pub orders: u64,
    /// The least cost of a schedule.
    pub least: Option<i64>,
}

impl Survey {
    fn with(self, cost: Option<i64>) -> Survey {
        let least = match (self.least, cost) {
            (Some(least), Some(cost)) => Some(least.min(cost)),
            (least, cost) => least.or(cost),
        };
        Survey {
            orders: self.orders.saturating_add(1),
            least,
        }
    }
}

/// Looks at the schedules of all orders on all assignments to machines.
pub fn survey_of(alloc: Global, task: &SmallTask) -> Result<Survey, AllocError> {
    let mut survey = Survey::default();
    for assignment in 0..assignment_count(task) {
        let mut order = first_order(alloc, task, assignment)?;
        for _ in 0..u64::MAX {
            survey = survey.with(cost_of(task, &order));
            if !advance(&mut order) {
                break;
            }
        }
    }
    Ok(survey)
}
