//! Words, lines and numbers of a text.
#![tactic(auto)]

pub mod digits;
pub mod feed;
pub mod first_line;
pub mod limit;
pub mod line;
pub mod number;
pub mod part;
pub mod ranged;
pub mod scan;
pub mod so_far;
pub mod word;
