//! Runs that search for a lower bound, which a terminal shows.
ghost use Rattle.std.specs.Prelude.{◌≡◌};
ghost use Rattle.std.specs.declared.alloc.Global.{Global};
ghost use Rattle.tf_assess.specs.RunAssessing.{assessment_run};
ghost use Rattle.tf_assess.specs.RunRating.{IsRatingOf};
ghost use Rattle.tf_bounding.specs.RunBounding.{bound_run};
ghost use Rattle.tf_command.specs.Planning.{IsPlannedRun};
ghost use Rattle.tf_engine.specs.Runs.{IsOutcome};
ghost use Rattle.tf_orders.specs.RunOrders.{orders_run};
ghost use Rattle.tf_command.specs.Recorded.{bytes_left};
ghost use Rattle.tf_text.specs.Counted.{use_of};

use crate::console::Console;
use crate::gathered::{Gathered, send};
use crate::planning::plan_any;
use crate::recorded::Recorded;
use itoa::Buffer;
use std::io::{Read, Write};
use tf_asked::options::Evaluating;
use tf_assess::offered::Aids;
use tf_assess::run_assess::{AssessmentRequest, run_assess};
use tf_assess::run_rate::{RatingRequest, is_solved, run_rate};
use tf_bounding::run_bound::run_bound;
use tf_engine::fault::RunFault;
use tf_engine::request::Request;
use tf_evaluate::evaluation::Standing;
use tf_orders::run_orders::{Measuring, OrdersRated, OrdersRequest, run_orders};
use tf_planning::progress::PlanProgress;
use tf_planning::writing::Planned;
use tf_search::effort::{Effort, Nobody, Progress};
use tf_text::counted::Counted;

/// The most bytes of the line.
const LINE: usize = 64;

/// How many steps the search for a schedule has at least that is shown.
const LEAST_SHOWN: u64 = 5_000_000;

/// A line on a terminal that says how far a search is, which is gone when the search is over.
#[derive(Drop)]
struct StepLine<'a, E> {
    terminal: &'a mut Counted<E>,
    is_shown: bool,
    // The best cost that is shown, and how many hundredths of the steps.
    cost: i128,
    percent: u64,
}

impl<E: Write> Progress for StepLine<'_, E> {
    /// Is told at each hundredth of the steps.
    fn at_step(&mut self, done: u32, all: u32) {
        if all < 100 || done == 0 || done % (all / 100) != 0 {
            return;
        }
        self.is_shown = true;
        let mut digits = Buffer::new();
        let mut line = Gathered::<LINE>::new();
        line.push(self.terminal, b"\rstep ");
        line.push(self.terminal, digits.format(done).as_bytes());
        line.push(self.terminal, b" of ");
        line.push(self.terminal, digits.format(all).as_bytes());
        line.write(self.terminal);
    }

    /// Clears the line.
    fn is_over(&mut self) {
        if self.is_shown {
            self.is_shown = false;
            send(self.terminal, b"\r\x1b[K");
        }
    }
}

impl<E: Write> PlanProgress for StepLine<'_, E> {
    /// Is told at each hundredth of the steps of a long search, and where a schedule costs less.
    fn at_cost(&mut self, done: u64, all: u64, cost: i128, bound: i128) {
        let percent = done.saturating_mul(100).checked_div(all).unwrap_or(100);
        if all < LEAST_SHOWN {
            return;
        }
        if self.is_shown && percent == self.percent && cost == self.cost {
            return;
        }
        self.is_shown = true;
        self.percent = percent;
        self.cost = cost;
        let mut digits = Buffer::new();
        let mut line = Gathered::<LINE>::new();
        line.push(self.terminal, b"\r\x1b[Kcost ");
        line.push(self.terminal, digits.format(cost).as_bytes());
        line.push(self.terminal, b", bound ");
        line.push(self.terminal, digits.format(bound).as_bytes());
        line.push(self.terminal, b", ");
        line.push(self.terminal, digits.format(percent).as_bytes());
        line.push(self.terminal, b" % of the search");
        line.write(self.terminal);
    }

    /// Clears the line.
    fn has_plan(&mut self) {
        self.is_over();
    }
}

/// Runs the search for a bound, and shows its progress where `is_told`, if there is a terminal.
pub(crate) fn bound_over<R: Read, W: Write, E: Write>(
    console: &mut Console<W, E>,
    request: &Request,
    steps: Option<u32>,
    is_told: bool,
    instance: &mut Counted<Recorded<'_, R>>,
) -> Result<(), RunFault>
    ensures outcome { IsOutcome (bound_run Global request.now
        (use_of (bytes_left R.remaining) instance.old instance.new))
        (use_of W.contents console.old.writer console.new.writer) result }
    ensures unsaid { console.new.errors ≡ console.old.errors }
{
    let alloc = console.alloc;
    if is_told && let Some(terminal) = &mut console.terminal {
        let effort = shown_on(terminal, steps);
        run_bound(alloc, request, effort, instance, &mut console.writer)
    } else {
        let effort: Effort<StepLine<'_, E>> = Effort::untold(steps);
        run_bound(alloc, request, effort, instance, &mut console.writer)
    }
}

/// Plans a problem, and shows the progress as [`bound_over`] does.
pub(crate) fn plan_over<R: Read, W: Write, E: Write>(
    console: &mut Console<W, E>,
    request: &Request,
    steps: Option<u32>,
    is_told: bool,
    instance: &mut Counted<Recorded<'_, R>>,
) -> Result<Planned, RunFault>
    ensures outcome { IsPlannedRun request.now
        (use_of (bytes_left R.remaining) instance.old instance.new)
        (use_of W.contents console.old.writer console.new.writer) result }
    ensures unsaid { console.new.errors ≡ console.old.errors }
{
    let alloc = console.alloc;
    if is_told && let Some(terminal) = &mut console.terminal {
        let effort = shown_on(terminal, steps);
        plan_any(alloc, request, effort, instance, &mut console.writer)
    } else {
        let effort: Effort<StepLine<'_, E>> = Effort::untold(steps);
        plan_any(alloc, request, effort, instance, &mut console.writer)
    }
}

/// Runs an evaluation of an answer to any problem, and shows the progress as [`bound_over`] does.
pub(crate) fn rate_over<R: Read, S: Read, W: Write, E: Write>(
    console: &mut Console<W, E>,
    evaluating: &Evaluating<'_>,
    request: &Request,
    instance: &mut Counted<Recorded<'_, R>>,
    answer: &mut Counted<Recorded<'_, S>>,
) -> Result<Standing, RunFault>
    ensures outcome { IsRatingOf evaluating.now.detail request.now
        (use_of (bytes_left R.remaining) instance.old instance.new)
        (use_of (bytes_left S.remaining) answer.old answer.new)
        (use_of W.contents console.old.writer console.new.writer) result }
    ensures unsaid { console.new.errors ≡ console.old.errors }
{
    let is_told = evaluating.options.telling.explain;
    let steps = evaluating.steps;
    if is_told && !is_solved(request.problem.as_str()) {
        let effort: Effort<Nobody> = Effort::untold(steps);
        let aids = Aids {
            effort,
            offered: None,
        };
        let asked = AssessmentRequest { request, aids };
        return assess_over(console, is_told, asked, instance, answer);
    }
    let asked = RatingRequest {
        request,
        detail: evaluating.detail,
        steps,
    };
    run_rate(console.alloc, asked, instance, answer, &mut console.writer)
}

/// Runs an assessment, and shows the progress as [`bound_over`] does.
pub(crate) fn assess_over<R: Read, S: Read, W: Write, E: Write>(
    console: &mut Console<W, E>,
    is_told: bool,
    asked: AssessmentRequest<'_, Nobody>,
    instance: &mut Counted<Recorded<'_, R>>,
    answer: &mut Counted<Recorded<'_, S>>,
) -> Result<Standing, RunFault>
    ensures outcome { IsOutcome (assessment_run Global asked.entry.aids.offered
        asked.entry.request.now
        (use_of (bytes_left R.remaining) instance.old instance.new)
        (use_of (bytes_left S.remaining) answer.old answer.new))
        (use_of W.contents console.old.writer console.new.writer) result }
    ensures unsaid { console.new.errors ≡ console.old.errors }
{
    let alloc = console.alloc;
    let AssessmentRequest { request, aids } = asked;
    let Aids { effort, offered } = aids;
    let steps = effort.steps;
    if is_told && let Some(terminal) = &mut console.terminal {
        let effort = shown_on(terminal, steps);
        let aids = Aids { effort, offered };
        let asked = AssessmentRequest { request, aids };
        run_assess(alloc, asked, instance, answer, &mut console.writer)
    } else {
        let effort: Effort<StepLine<'_, E>> = Effort::untold(steps);
        let aids = Aids { effort, offered };
        let asked = AssessmentRequest { request, aids };
        run_assess(alloc, asked, instance, answer, &mut console.writer)
    }
}

/// Runs a rating of orders or pieces, and shows the progress as [`assess_over`] does.
pub(crate) fn orders_over<R: Read, S: Read, W: Write, E: Write>(
    console: &mut Console<W, E>,
    is_told: bool,
    asked: OrdersRequest<'_>,
    measuring: Measuring<Nobody>,
    instance: &mut Counted<Recorded<'_, R>>,
    orders: &mut Counted<Recorded<'_, S>>,
) -> Result<OrdersRated, RunFault>
    ensures outcome { IsOutcome (orders_run Global asked.entry.form measuring.aids.offered
        asked.entry.request.now measuring.others
        (use_of (bytes_left R.remaining) instance.old instance.new)
        (use_of (bytes_left S.remaining) orders.old orders.new))
        (use_of W.contents console.old.writer console.new.writer) result }
    ensures unsaid { console.new.errors ≡ console.old.errors }
{
    let alloc = console.alloc;
    let Measuring { aids, others } = measuring;
    let Aids { effort, offered } = aids;
    let steps = effort.steps;
    if is_told && let Some(terminal) = &mut console.terminal {
        let effort = shown_on(terminal, steps);
        let aids = Aids { effort, offered };
        let measuring = Measuring { aids, others };
        run_orders(
            alloc,
            asked,
            measuring,
            instance,
            orders,
            &mut console.writer,
        )
    } else {
        let effort: Effort<StepLine<'_, E>> = Effort::untold(steps);
        let aids = Aids { effort, offered };
        let measuring = Measuring { aids, others };
        run_orders(
            alloc,
            asked,
            measuring,
            instance,
            orders,
            &mut console.writer,
        )
    }
}

/// An effort of so many steps that a terminal shows.
fn shown_on<E: Write>(terminal: &mut Counted<E>, steps: Option<u32>) -> Effort<StepLine<'_, E>> {
    Effort {
        steps,
        progress: Some(StepLine {
            terminal,
            is_shown: false,
            cost: 0,
            percent: 0,
        }),
    }
}
