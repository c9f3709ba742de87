//! Answers as texts.
mod block;
mod claim;
pub mod fault;
mod field;
mod head;
mod job_words;
pub mod layout;
mod line;
pub mod pieces;
pub mod reading;
pub mod run;
pub mod sheet;
mod stage;
mod usual;
pub mod writing;
