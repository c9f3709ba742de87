//! Plain words on a run that is over: what is wrong with what was read, and how to fix it. It
//! looks at the texts again and decides nothing. [`explain`] has a call for each way in which a run
//! ends.
#![tactic(auto)]

mod answer;
mod critical;
mod critical_tables;
pub mod explain;
mod instance;
mod refusal;
mod text;
mod verdict;
mod worked;
