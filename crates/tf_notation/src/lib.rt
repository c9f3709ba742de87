//! Three-field notation `environment|conditions|objective` of scheduling problems
//! (Graham, Lawler, Lenstra and Rinnooy Kan 1979; Pinedo, *Scheduling*, chapter 2): its texts read
//! and written.
//!
//! [`reading::read`] gives the problem that a text means, or the byte of the first fault.
//! [`writing::notation_text`] gives a problem's canonical text.
#![tactic(auto)]

pub mod reading;
pub mod spelling;
mod token;
pub mod writing;
