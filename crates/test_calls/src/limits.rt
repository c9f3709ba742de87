//! Runs that take long: jobs of random numbers, the same at each call, and texts of the greatest
//! length.
//!
//! The tests take as many jobs and bytes as there may be, so they want the optimized build of `rt
//! test`: under `rt try` they are not over in time.
mod drawn;
mod lengths;
mod many_jobs;
mod random;
