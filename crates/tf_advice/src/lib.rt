//! Plain words on texts: which line is wrong and how to fix it, what a problem line means, which
//! problems are solved. It looks at the texts again and decides nothing.
#![tactic(auto)]

pub mod advice;
mod border;
pub mod border_list;
pub mod cycle;
mod field;
pub mod notation;
mod number;
pub mod page;
pub mod piece_lines;
pub mod shop;
pub mod source;
pub mod table;
pub mod tardiness;
pub mod unused;
