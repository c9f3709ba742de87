//! Schedules as pictures in SVG: a row a machine, a bar a piece.
#![tactic(auto)]

mod axis;
mod bars;
pub mod dates;
mod frame;
pub mod front;
mod labels;
mod links;
mod marks;
pub mod picture;
mod rows;
pub mod run_picture;
mod strips;
pub mod view;
mod writing;
