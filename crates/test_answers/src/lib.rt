//! Tests over the runs that take an answer: it is judged, drawn, pictured, evaluated, and assessed
//! by a bound; and over the runs that print a bound or rate orders. And what is said of faults that
//! no session comes to.
#![tactic(auto)]

#[cfg(test)]
mod bounds;
#[cfg(test)]
mod checked;
#[cfg(test)]
mod dated;
#[cfg(test)]
mod drawn;
#[cfg(test)]
mod evaluated;
#[cfg(test)]
mod offers;
#[cfg(test)]
mod orders;
#[cfg(test)]
mod pictured;
#[cfg(test)]
mod said;
