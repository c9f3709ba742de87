//! Lists of jobs, each with a number, of which long ones are shortened.
use std::alloc::{AllocError, Global};
use tf_model::ids::JobId;

/// The most jobs of a list that are shown.
const MOST_SHOWN: usize = 8;

/// A list as it is written: its first jobs, and always the one that is chosen.
#[derive(Drop)]
pub(crate) struct Shortened {
    text: String,
    chosen: JobId,
    has_chosen: bool,
    shown: usize,
    count: usize,
}

impl Shortened {
    pub(crate) fn new(alloc: Global, chosen: JobId) -> Self {
        Shortened {
            text: String::new(alloc),
            chosen,
            has_chosen: false,
            shown: 0,
            count: 0,
        }
    }

    /// A job more, with its number.
    pub(crate) fn push(&mut self, job: JobId, number: i128) -> Result<(), AllocError> {
        self.count = self.count.saturating_add(1);
        let is_chosen = job == self.chosen;
        self.has_chosen |= is_chosen;
        let room = MOST_SHOWN - usize::from(!self.has_chosen);
        if self.shown >= room {
            return Ok(());
        }
        let gap = if self.shown == 0 { "" } else { ", " };
        self.shown = self.shown.saturating_add(1);
        write!(self.text, "{gap}{} ({number})", job.get())
    }

    /// The list, and how many are not shown.
    pub(crate) fn into_text(mut self) -> Result<String, AllocError> {
        let hidden = self.count.saturating_sub(self.shown);
        if hidden > 0 {
            write!(self.text, ", and {hidden} more")?;
        }
        Ok(self.text)
    }
}
