//! Certificates, the bounds that they prove, and the check of an answer.
#![tactic(auto)]

pub mod answer;
pub mod certificate;
pub mod check;
pub mod evidence;
pub mod fault;
mod jobs;
pub mod judgement;
pub mod keyed_job;
mod kinds;
pub mod last_of;
pub mod load;
pub mod machine_load;
pub mod one_job;
pub mod pairs;
pub mod ranking;
pub mod ranks;
pub mod ratio;
pub mod set_numbers;
pub mod split;
pub mod verdict;
pub mod weighted_job;
pub mod window;
