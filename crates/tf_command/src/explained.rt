//! What is said, in plain words, of a run that has ended.
ghost use Rattle.std.specs.Prelude.{[]};
ghost use Rattle.tf_command.specs.Ending.{SaysLine};

use crate::gathered::send;
use crate::recorded::Recorded;
use std::alloc::{AllocError, Global};
use std::io;
use std::io::Write;
use tf_advice::source::Source;
use tf_asked::options::{Drawing, Telling};
use tf_dated::run_dated::Pictured;
use tf_engine::fault::RunFault;
use tf_engine::request::{Form, Request};
use tf_engine::run_check::Checked;
use tf_evaluate::evaluation::{Standing, WhyUnfit};
use tf_explain::explain;
use tf_model::limit::LIMIT;
use tf_model::prepare::Refusal;
use tf_orders::again::pieces_again;
use tf_orders::run_orders::{OrderForm, OrdersRated, OrdersRequest};
use tf_planning::writing::Planned;
use tf_schedule::piece::Piece;
use tf_text::answer::fault::AnswerFault;
use tf_text::counted::Counted;
use tf_words::ranged::{Ranged, number_in};

/// What is said of a problem that has no solver.
const MAY_BE_BOUNDED: &str = "\
For many problems without a solver \"threefield plan\" prints a schedule, and how
good it is; \"threefield bound\" prints a lower bound, and \"threefield evaluate\"
judges a schedule by it.
";

/// What is said of a plan that no schedule beats.
const IS_OPTIMAL: &str = "It is proved that no schedule costs less.\n";

/// What is said of a plan that may be beaten.
const MAY_BE_BEATEN: &str = "\
Whether a schedule costs less is not known. The lower bound behind the line
\"end\", if there is one, says by how much at most.
";

/// The signs of a chart: the digits and the letters.
const SIGNS: i64 = 36;

/// What is said of a chart with more jobs than signs.
const SIGNS_SHARED: &str = "\
There are more jobs than signs: jobs whose numbers differ by 36 have the same
sign. \"threefield gantt --svg\" shows the numbers.
";

/// What is said of an order that is malformed.
const WHAT_AN_ORDER_IS: &str = "\
An order names each job once, by its number, with spaces between: \"3 1 2\". On
parallel machines it has one list for each machine, with / between: \"1 3 / 2\".
In a job shop it may also name each job once for each of its operations.
";

/// What is said of a line that is malformed among the pieces of a schedule.
const WHAT_A_SCHEDULE_IS: &str = "\
A schedule has a line \"piece JOB MACHINE START STOP\" for each piece, with times
from 0. The other lines of an answer may stand before and after them.
";

/// What is said of a picture of an answer that is for other jobs than the instance has.
const OTHER_JOBS: &str = "\
The line \"jobs\" of the answer has not the number of the instance's jobs: the answer
is for another instance, or --input names the wrong one.
";

/// What a run over an instance read, and the source that failed.
#[derive(Clone, Copy)]
pub struct Told<'a> {
    pub instance: Source<'a>,
    pub answer: Option<Source<'a>>,
    failure: Option<(&'a str, io::Error)>,
}

impl<'a> Told<'a> {
    /// What was kept of an instance.
    pub fn of_instance<R>(instance: &'a Recorded<'a, R>) -> Option<Told<'a>> {
        Some(Told {
            instance: instance.source()?,
            answer: None,
            failure: instance.failure(),
        })
    }

    /// What was kept of an instance and an answer, where the instance was.
    pub fn of_both<R, S>(
        instance: &'a Recorded<'a, R>,
        answer: &'a Recorded<'a, S>,
    ) -> Option<Told<'a>> {
        Some(Told {
            instance: instance.source()?,
            answer: answer.source(),
            failure: instance.failure().or(answer.failure()),
        })
    }

    /// What is to be said of a run that gave no answer.
    pub fn refused(
        &self,
        alloc: Global,
        fault: &RunFault,
        request: &Request,
    ) -> Result<String, AllocError> {
        match &self.failure {
            Some((name, error)) => explain::not_read(alloc, name, error),
            None => {
                explain::refused(alloc, fault, request, &self.instance, self.answer.as_ref())
            }
        }
    }
}

/// A picture with the dates of an instance that was asked for.
#[derive(Clone, Copy)]
pub struct Dated<'a> {
    pub alloc: Global,
    pub telling: Telling,
    /// The form of the instance.
    pub form: &'a Form,
}

impl Dated<'_> {
    /// Says what is to be said of the options and of the picture, where the instance was kept.
    pub fn tell<R, S, E: Write>(
        &self,
        run: &Result<Pictured, RunFault>,
        instance: &Recorded<'_, R>,
        answer: &Recorded<'_, S>,
        errors: &mut Counted<E>,
    )
        ensures { SaysLine E.contents self.now.telling.explain errors.old errors.new [] }
    {
        if let Some(told) = Told::of_both(instance, answer) {
            let explanation = match run {
                Ok(Pictured::Drawn) => Ok(String::new(self.alloc)),
                Ok(Pictured::OtherTask) => String::from_str(self.alloc, OTHER_JOBS),
                Err(fault) => self.undrawn(&told, fault),
            };
            tell_behind(self.telling, explanation, errors);
        }
    }

    /// What is to be said of a picture that was not drawn.
    fn undrawn(&self, told: &Told<'_>, fault: &RunFault) -> Result<String, AllocError> {
        match (&told.failure, fault, &told.answer) {
            (Some((name, error)), _, _) => explain::not_read(self.alloc, name, error),
            (None, RunFault::Text(fault), _) => {
                explain::not_an_instance(self.alloc, fault, self.form, &told.instance)
            }
            (None, fault, Some(answer)) => explain::not_drawn(self.alloc, fault, answer),
            (None, _, None) => Ok(String::new(self.alloc)),
        }
    }
}

/// A run over orders or pieces that has ended.
#[derive(Clone, Copy)]
pub struct Rated<'a> {
    pub form: OrderForm,
    /// Whether a bound is offered beside them.
    pub is_bounded: bool,
    pub run: &'a Result<OrdersRated, RunFault>,
}

/// What a run that has ended was asked for.
#[derive(Clone, Copy)]
pub struct Ended<'a> {
    pub alloc: Global,
    pub telling: Telling,
    pub request: &'a Request,
}

impl Ended<'_> {
    /// Says what is to be said of the options and of a run over an instance, where that was kept.
    pub fn tell_solved<T, R, E: Write>(
        &self,
        run: &Result<T, RunFault>,
        instance: &Recorded<'_, R>,
        errors: &mut Counted<E>,
    )
        ensures { SaysLine E.contents self.now.telling.explain errors.old errors.new [] }
    {
        if let Some(told) = Told::of_instance(instance) {
            let explanation = match run {
                Ok(_) => explain::solved(self.alloc, self.request, &told.instance),
                Err(fault) => told.refused(self.alloc, fault, self.request),
            };
            tell_behind(self.telling, explanation, errors);
        }
    }

    /// Says what is to be said of the options and of a plan, where the instance was kept, and how
    /// good the plan is.
    pub fn tell_planned<R, E: Write>(
        &self,
        run: &Result<Planned, RunFault>,
        instance: &Recorded<'_, R>,
        errors: &mut Counted<E>,
    )
        ensures { SaysLine E.contents self.now.telling.explain errors.old errors.new [] }
    {
        self.tell_solved(run, instance, errors);
        let standing = match run {
            Ok(Planned::Optimal) => IS_OPTIMAL,
            Ok(Planned::Open) => MAY_BE_BEATEN,
            Err(_) => "",
        };
        tell_text(self.telling.explain, standing, errors);
    }

    /// Says what else there is for a problem that has no solver.
    pub fn tell_bound<T, E: Write>(&self, run: &Result<T, RunFault>, errors: &mut Counted<E>)
        ensures { SaysLine E.contents self.now.telling.explain errors.old errors.new [] }
    {
        if let Err(RunFault::Task(Refusal::NoSolver)) = run {
            tell_text(self.telling.explain, MAY_BE_BOUNDED, errors);
        }
    }

    /// Says what is to be said of the options and of a check, where the instance was kept.
    pub fn tell_checked<R, S, E: Write>(
        &self,
        run: &Result<Checked, RunFault>,
        instance: &Recorded<'_, R>,
        answer: &Recorded<'_, S>,
        errors: &mut Counted<E>,
    )
        ensures { SaysLine E.contents self.now.telling.explain errors.old errors.new [] }
    {
        if let Some(told) = Told::of_both(instance, answer) {
            let explanation = match run {
                Ok(checked) => {
                    let answer = told.answer.as_ref();
                    explain::checked(self.alloc, checked, self.request, &told.instance, answer)
                }
                Err(fault) => told.refused(self.alloc, fault, self.request),
            };
            tell_behind(self.telling, explanation, errors);
        }
    }

    /// Says what is to be said of the options and of an evaluation, where the instance was kept.
    pub fn tell_evaluated<R, S, E: Write>(
        &self,
        run: &Result<Standing, RunFault>,
        instance: &Recorded<'_, R>,
        answer: &Recorded<'_, S>,
        errors: &mut Counted<E>,
    )
        ensures { SaysLine E.contents self.now.telling.explain errors.old errors.new [] }
    {
        if let Some(told) = Told::of_both(instance, answer) {
            let explanation = match run {
                Ok(Standing::Unfit(why)) => {
                    let answer = told.answer.as_ref();
                    explain::unfit(self.alloc, why, self.request, &told.instance, answer)
                }
                Ok(_) => {
                    let answer = told.answer.as_ref();
                    explain::fit(
                        self.alloc,
                        self.request,
                        &told.instance,
                        answer,
                        self.telling.style,
                    )
                }
                Err(fault) => told.refused(self.alloc, fault, self.request),
            };
            tell_behind(self.telling, explanation, errors);
        }
    }

    // The pieces of a schedule that was rated, which are made again, where it was one.
    fn rated_pieces(&self, rated: &Rated<'_>, told: &Told<'_>) -> Option<Vec<Piece>> {
        let orders = told.answer.as_ref()?;
        let asked = OrdersRequest {
            request: self.request,
            form: rated.form,
        };
        let instance = told.instance.text;
        pieces_again(self.alloc, asked, rated.is_bounded, instance, orders.text)
    }

    // What is said of a schedule that does not fit.
    fn unfit_rated(
        &self,
        rated: &Rated<'_>,
        told: &Told<'_>,
        why: &WhyUnfit,
    ) -> Result<String, AllocError> {
        let (request, instance) = (self.request, &told.instance);
        if matches!(rated.form, OrderForm::Pieces(_)) {
            return explain::unfit(self.alloc, why, request, instance, told.answer.as_ref());
        }
        match self.rated_pieces(rated, told) {
            Some(pieces) => explain::unfit_order(self.alloc, why, request, instance, &pieces),
            None => Ok(String::new(self.alloc)),
        }
    }

    // What is said of one that fits.
    fn fit_rated(&self, rated: &Rated<'_>, told: &Told<'_>) -> Result<String, AllocError> {
        let (request, instance) = (self.request, &told.instance);
        if !explain::may_have_working(request) {
            return Ok(String::new(self.alloc));
        }
        match self.rated_pieces(rated, told) {
            Some(pieces) => {
                explain::fit_pieces(self.alloc, request, instance, pieces, self.telling.style)
            }
            None => Ok(String::new(self.alloc)),
        }
    }

    // What is said of a line that is malformed, which is shown where it is a text's.
    fn malformed(
        &self,
        form: OrderForm,
        text: Option<&Source<'_>>,
        line: u32,
    ) -> Result<String, AllocError> {
        match (form, text) {
            (OrderForm::Lines { .. } | OrderForm::Numbered { .. }, Some(text)) => {
                explain::not_a_line(self.alloc, text, line, WHAT_AN_ORDER_IS)
            }
            (OrderForm::Pieces(_), Some(text)) => {
                explain::not_a_line(self.alloc, text, line, WHAT_A_SCHEDULE_IS)
            }
            (OrderForm::Pieces(_), None) => String::from_str(self.alloc, WHAT_A_SCHEDULE_IS),
            _ => String::from_str(self.alloc, WHAT_AN_ORDER_IS),
        }
    }

    /// Says what is to be said of the options and of a run over orders or pieces, where the
    /// instance was kept.
    pub fn tell_rated<R, S, E: Write>(
        &self,
        rated: Rated<'_>,
        instance: &Recorded<'_, R>,
        orders: &Recorded<'_, S>,
        errors: &mut Counted<E>,
    )
        ensures { SaysLine E.contents self.now.telling.explain errors.old errors.new [] }
    {
        if let Some(told) = Told::of_both(instance, orders) {
            let explanation = match rated.run {
                Ok(OrdersRated::Single(Standing::Unfit(why))) => {
                    self.unfit_rated(&rated, &told, why)
                }
                Ok(OrdersRated::Single(_)) => self.fit_rated(&rated, &told),
                Ok(OrdersRated::Lines) => Ok(String::new(self.alloc)),
                Err(RunFault::Answer(AnswerFault::BadLine(line))) => {
                    self.malformed(rated.form, told.answer.as_ref(), *line)
                }
                Err(fault) => told.refused(self.alloc, fault, self.request),
            };
            tell_behind(self.telling, explanation, errors);
        }
    }
}

/// Says what is to be said of a drawing, where the answer was kept.
pub fn tell_drawn<R, E: Write>(
    explain: bool,
    drawing: Drawing,
    run: &Result<(), RunFault>,
    answer: &Recorded<'_, R>,
    errors: &mut Counted<E>,
    alloc: Global,
)
    ensures { SaysLine E.contents explain errors.old errors.new [] }
{
    let Some(text) = answer.source() else {
        return;
    };
    match run {
        Ok(()) => {
            if matches!(drawing, Drawing::Chart { .. }) && shares_signs(&text) {
                tell_text(explain, SIGNS_SHARED, errors);
            }
        }
        Err(fault) => {
            let explanation = match answer.failure() {
                Some((name, error)) => explain::not_read(alloc, name, &error),
                None => explain::not_drawn(alloc, fault, &text),
            };
            tell(explain, explanation, errors);
        }
    }
}

/// Whether an answer has more jobs than a chart has signs.
fn shares_signs(answer: &Source<'_>) -> bool {
    let Some(line) = answer.line_beginning(&[b"jobs"]) else {
        return false;
    };
    match line.word(1) {
        Some(word) => matches!(number_in(word.bytes, SIGNS + 1, LIMIT), Ranged::Within(_)),
        None => false,
    }
}

/// Says what is to be said of the options, and what is explained.
fn tell_behind<E: Write>(
    telling: Telling,
    explanation: Result<String, AllocError>,
    errors: &mut Counted<E>,
)
    ensures { SaysLine E.contents telling.explain errors.old errors.new [] }
{
    tell_idle(telling, errors);
    tell(telling.explain, explanation, errors);
}

/// Says which options are ignored.
fn tell_idle<E: Write>(telling: Telling, errors: &mut Counted<E>)
    ensures { SaysLine E.contents telling.explain errors.old errors.new [] }
{
    let jobs = "--jobs belongs to --format wt, and is ignored here.\n";
    tell_option(telling, telling.idle.jobs, jobs, errors);
    let name = "--name belongs to --format flow, and is ignored here.\n";
    tell_option(telling, telling.idle.name, name, errors);
    let pair = "--pair belongs to --format flow, and is ignored here.\n";
    tell_option(telling, telling.idle.pair, pair, errors);
}

/// Says this of an option that is ignored.
fn tell_option<E: Write>(telling: Telling, is_idle: bool, text: &str, errors: &mut Counted<E>)
    ensures { SaysLine E.contents telling.explain errors.old errors.new [] }
{
    if is_idle {
        tell_text(telling.explain, text, errors);
    }
}

/// Says what is explained, where that is asked for, and if there was memory for it.
pub fn tell<E: Write>(
    explain: bool,
    explanation: Result<String, AllocError>,
    errors: &mut Counted<E>,
)
    ensures { SaysLine E.contents explain errors.old errors.new [] }
{
    if let Ok(text) = explanation {
        tell_text(explain, text.as_str(), errors);
    }
}

/// Says this, where explanations are asked for.
fn tell_text<E: Write>(explain: bool, text: &str, errors: &mut Counted<E>)
    ensures { SaysLine E.contents explain errors.old errors.new [] }
{
    if explain {
        send(errors, text.as_bytes());
    }
}
