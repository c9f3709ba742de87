//! What schedules are evaluated by beside their problem.

/// What an answer, orders or pieces are evaluated by.
#[derive(Clone, Copy, Debug)]
pub struct Aids<'a> {
    /// The name of the text of a bound.
    pub bound: Option<&'a str>,
    /// The steps of the search for prices.
    pub steps: Option<u32>,
}
