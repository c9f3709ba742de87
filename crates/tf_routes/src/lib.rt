//! Reading the routes of jobs: job shop files in OR-Library's layout, and job tables with routes.
#![tactic(auto)]

pub mod job_shop;
mod number;
pub mod route;
pub mod routed;
pub mod routed_table;
mod shop_steps;
#[cfg(test)]
mod tests;
mod text_lines;
mod text_words;
mod unrouted;
