//! Tests over single public calls, of what no command line shows: the model, schedules, a
//! certificate, and texts of bytes or lengths that no session has. And runs over the greatest
//! sizes.
//!
//! The wanted values are worked out by hand from the formats of the texts.
#![tactic(auto)]

#[cfg(test)]
mod answer_texts;
#[cfg(test)]
mod certificates;
#[cfg(test)]
mod instance_texts;
#[cfg(test)]
mod limits;
#[cfg(test)]
mod model;
#[cfg(test)]
mod notations;
#[cfg(test)]
mod pieces;
