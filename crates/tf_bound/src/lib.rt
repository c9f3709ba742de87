//! Tasks of any problem at run time, and the judges of certificates of lower bounds.
#![tactic(auto)]

pub mod alike;
pub mod alone;
mod along;
mod arc_multipliers;
mod asks;
pub mod certificate;
pub mod fault;
pub mod horizon;
pub mod job_times;
mod jobs;
pub mod kept;
pub mod kept_weight;
pub mod machine;
pub mod machine_prices;
pub mod multipliers;
pub mod parts;
pub mod potentials;
pub mod prices;
pub mod pushed;
pub mod ranks;
mod route_time;
pub mod routed_times;
mod row_prices;
pub mod row_sums;
pub mod shortest;
pub mod split;
pub mod task;
