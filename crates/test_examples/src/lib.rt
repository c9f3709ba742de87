//! Tests over the runs of the examples and of texts beside them: what they write, over devices that
//! fail or give and take one byte a call, and over growths that are refused.
#![tactic(auto)]

#[cfg(test)]
mod counted;
#[cfg(test)]
mod devices_in_runs;
#[cfg(test)]
mod lent;
#[cfg(test)]
mod memoryless;
#[cfg(test)]
mod readers;
#[cfg(test)]
mod solved;
#[cfg(test)]
mod worked;
