//! What the commands of `threefield` are asked for: the problem and the instance, the answer or the
//! schedules, and how the output is written. The program's command line and the page ask for the
//! same.
#![tactic(auto)]

pub mod aids;
pub mod format;
pub mod options;
pub mod series;
