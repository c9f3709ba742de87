//! What a command is asked for, apart from how the words of a command line say it.
ghost use Rattle.std.specs.Prelude.{◌≡◌, false, IfOk};
ghost use Rattle.tf_engine.specs.FormData.{form_of};
ghost use Rattle.tf_asked.specs.Asking.{form_asked, requested};

use crate::aids::Aids;
use std::alloc::{AllocError, Allocator};
use tf_engine::request::{Form, Request};
use tf_engine::text::Text;
use tf_evaluate::evaluation::Detail;
use tf_listing::listing::Listed;
use tf_picture::view::View;
use tf_random::run_random::Wanted;
use tf_sequencing::rule::Rule;
use tf_text::answer::layout::Layout;
use tf_trace::board::Style;

/// The most steps of the search for prices.
pub const MOST_STEPS: u32 = 1_000_000;

/// The problem and the instance, and how they are read and told.
#[derive(Drop)]
pub struct Options<'a> {
    pub problem: &'a str,
    pub form: FormOption<'a>,
    pub machines: Option<u32>,
    pub input: &'a str,
    pub telling: Telling,
}

/// Whether what is wrong is said in plain words too, and what is to be said of the options.
#[derive(Clone, Copy, Debug)]
pub struct Telling {
    pub explain: bool,
    /// Whether the values of a schedule by the other objectives are told.
    pub measures: bool,
    /// How a critical path is written.
    pub style: Style,
    pub idle: Idle,
}

impl Telling {
    /// Nothing is said.
    pub fn nothing() -> Telling
        ensures explain { result.explain ≡ false }
        ensures measures { result.measures ≡ false }
    {
        Telling {
            explain: false,
            measures: false,
            style: Style::Plain,
            idle: Idle {
                jobs: false,
                name: false,
                pair: false,
            },
        }
    }
}

/// The options that were given, and that the form of the instance does not use.
#[derive(Clone, Copy, Debug)]
pub struct Idle {
    pub jobs: bool,
    pub name: bool,
    pub pair: bool,
}

/// The form of the instance, with what that form needs.
#[derive(Clone, Copy)]
pub enum FormOption<'a> {
    Table,
    Wt {
        jobs: u32,
        index: u32,
    },
    Flow {
        name: &'a str,
        pair: Option<(u32, u32)>,
    },
}

impl FormOption<'_> {
    /// The form of an instance text.
    pub fn form<A: Allocator>(&self, alloc: A) -> Result<Form<A>, AllocError>
        ensures { IfOk result (λ form. form_of form ≡ form_asked self.now) }
    {
        match *self {
            FormOption::Table => Ok(Form::Table),
            FormOption::Wt { jobs, index } => Ok(Form::Wt { jobs, index }),
            FormOption::Flow { name, pair } => Ok(Form::Flow {
                name: Text::new(String::from_str(alloc, name)?),
                pair,
            }),
        }
    }
}

impl Options<'_> {
    /// What a run is asked for, with an answer in this version.
    pub fn request<A: Allocator + Copy>(
        &self,
        alloc: A,
        layout: Layout,
    ) -> Result<Request<A>, AllocError>
        ensures { IfOk result (λ request. request ≡ requested self.now layout) }
    {
        Ok(Request {
            problem: Text::new(String::from_str(alloc, self.problem)?),
            form: self.form.form(alloc)?,
            machines: self.machines,
            layout,
        })
    }
}

/// Which answer is evaluated, to what, and how much is reported of it.
#[derive(Drop)]
pub struct Evaluating<'a> {
    pub options: Options<'a>,
    /// The name of the answer.
    pub answer: &'a str,
    pub detail: Detail,
    /// The steps of the search for prices, where they are given.
    pub steps: Option<u32>,
}

/// Which answer is assessed, to what, and beside which bound.
#[derive(Drop)]
pub struct Assessing<'a> {
    pub options: Options<'a>,
    /// The name of the answer.
    pub answer: &'a str,
    /// The name of the text of a bound.
    pub bound: &'a str,
    /// The steps of the search for prices, where they are given.
    pub steps: Option<u32>,
}

/// Where the orders of jobs or the pieces come from whose schedules are evaluated.
#[derive(Clone, Copy, Debug)]
pub enum OrderSource<'a> {
    /// One order, as it is given, and how much is reported of the certificate of the optimum.
    Given(&'a str, Detail),
    /// The order of a rule, and the same.
    Ruled(Rule, Detail),
    /// The name of a text with an order in each line, whether a line that is none is told and the
    /// others are gone on with, and whether each is told with the number of its line.
    Named {
        name: &'a str,
        goes_on: bool,
        is_numbered: bool,
    },
    /// The name of a text with the pieces of a schedule, and the same as of one order.
    Drawn(&'a str, Detail),
}

/// How the schedule of an answer is drawn.
#[derive(Clone, Copy, Debug, PartialEq, Eq)]
pub enum Drawing {
    /// As a chart of letters, in so many columns at most.
    Chart { columns: u32 },
    /// As a picture in SVG.
    Picture(View),
}

/// Which answer is drawn as a picture, with the dates of which instance.
#[derive(Drop)]
pub struct Picturing<'a> {
    /// The name of the instance.
    pub input: &'a str,
    pub form: FormOption<'a>,
    /// The name of the answer.
    pub answer: &'a str,
    pub view: View,
    pub telling: Telling,
}

/// What a command is to do.
#[derive(Drop)]
pub enum Work<'a> {
    /// Solve, and print the answer in this version.
    Solve(Options<'a>, Layout),
    /// Print a lower bound, after so many steps of the search for prices where they are given.
    Bound(Options<'a>, Option<u32>),
    /// Print a schedule and how good it is, after so many steps of the searches where they are
    /// given; for a problem that is solved its answer in this version.
    Plan(Options<'a>, Layout, Option<u32>),
    /// Print how an optimal schedule is found, step by step, in this style.
    Trace(Options<'a>, Style),
    /// Judge the answer of this name.
    Check(Options<'a>, &'a str),
    /// Tell how good an answer is.
    Evaluate(Evaluating<'a>),
    /// Tell how good an answer is by lower bounds, of which a text offers one.
    Assess(Assessing<'a>),
    /// Tell how good the semi-active schedules of orders are, or a schedule.
    Rate(Options<'a>, OrderSource<'a>, Aids<'a>),
    /// Draw the answer of this name.
    Gantt {
        answer: &'a str,
        drawing: Drawing,
        explain: bool,
    },
    /// Draw an answer as a picture, with the dates of an instance.
    Picture(Picturing<'a>),
    /// Write a random job table.
    Random(Wanted<'a>),
    /// List the problems that are solved or bounded, with a job table those that it has the fields
    /// for.
    Problems(Listed, Option<&'a str>),
    /// List which problems are polynomial and which are NP-hard.
    Border,
}
