//! What the program says of small tasks, held against the oracle.
mod asking;
mod certificates;
mod one_machine;
mod parallel_machines;
mod shops;
mod trial;
