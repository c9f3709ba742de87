//! Who is told how far a search is.

/// Is told how far a search is.
pub trait Watch {
    /// So many steps are done, and the best list costs so much.
    fn at_steps(&mut self, steps: u64, cost: i128);
}
