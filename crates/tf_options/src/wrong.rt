//! Why the values of a command's options ask for nothing.

/// Why the values of a command's options ask for nothing.
#[derive(Clone, Copy, Debug)]
pub enum Wrong {
    /// The value of an option is not what it takes.
    Unfit(&'static str),
    /// A value is not there that clap always gives.
    Missing,
}
