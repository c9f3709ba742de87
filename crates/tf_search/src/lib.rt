//! Searches for certificates of lower bounds.
//!
//! Nothing is promised of what they find: the judges of `tf_bound` compute what it bounds.
#![tactic(auto)]

mod arc_links;
mod arc_search;
mod assignment;
mod due_prices;
pub mod effort;
mod intervals;
mod job_starts;
pub mod machine_search;
pub mod multiplier_search;
mod pair_search;
pub mod price_search;
pub mod price_start;
mod ranked;
mod row_prices;
pub mod sequence;
mod shop_prices;
pub mod strongest;
mod windows;
