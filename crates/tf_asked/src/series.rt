//! What is asked for of several instances of a file.
use crate::aids::Aids;
use tf_sequencing::rule::Rule;

/// Instances of a file, counted from 1: from the first to the last, or to the end of the file.
#[derive(Clone, Copy, Debug, PartialEq, Eq)]
pub struct Span {
    pub first: u32,
    pub last: Option<u32>,
}

/// What is reported of each instance.
#[derive(Clone, Copy, Debug)]
pub enum Told<'a> {
    /// The minimum cost.
    Values,
    /// A lower bound, after so many steps of the search for prices where they are given.
    Bounds(Option<u32>),
    /// The cost and the gap of its answer, which the text of this name holds, by these aids. The
    /// text of a bound holds one for each instance.
    Answers(&'a str, Aids<'a>),
    /// The same of the order of its jobs, which a line of the text of this name says.
    Orders(&'a str, Aids<'a>),
    /// The same of the order that a rule gives.
    Ruled(Rule, Aids<'a>),
}

/// How the instances of a file are written.
#[derive(Clone, Copy, Debug)]
pub enum FileForm {
    /// A weighted tardiness file, of instances of so many jobs.
    Wt { jobs: u32 },
    /// A flow shop or job shop file, of all machines or of these two, counted from 0.
    Flow { pair: Option<(u32, u32)> },
}

/// Instances of a file, of each of which a line is told.
#[derive(Drop)]
pub struct Series<'a> {
    pub problem: &'a str,
    /// The name of the file.
    pub input: &'a str,
    pub machines: Option<u32>,
    pub form: FileForm,
    pub span: Span,
    pub told: Told<'a>,
    /// Whether each line is a JSON object, as is what is said on standard error.
    pub json: bool,
}
