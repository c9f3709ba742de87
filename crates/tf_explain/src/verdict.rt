//! Why an answer was rejected.
use crate::answer::explain_pieces;
use crate::instance::instance_in;
use crate::refusal::class_in;
use std::alloc::{AllocError, Global};
use tf_advice::page::{Page, push_name};
use tf_advice::piece_lines::{Pieces, quote_pieces, steps_of};
use tf_advice::source::Source;
use tf_bound::task::ProblemTask;
use tf_bounding::instance_read::task_read;
use tf_check::answer::Answer;
use tf_check::fault::BoundFault;
use tf_check::judgement::{Fit, Judgement, judge_answer};
use tf_check::verdict::Reason;
use tf_engine::request::{Form, Request};
use tf_engine::run_check::Checked;
use tf_evaluate::evaluation::WhyUnfit;
use tf_model::prepare::prepare;
use tf_model::problem::Problem;
use tf_model::task::Task;
use tf_notation::reading::read;
use tf_notation::writing::notation_text;
use tf_read::table_task::table_task;
use tf_schedule::fit::Misfit;
use tf_schedule::misfit::ProblemMisfit;
use tf_text::answer::reading::read_answer;
use tf_text::answer::sheet::Sheet;
use tf_text::counted::Counted;

/// The texts and what was asked for.
#[derive(Clone, Copy)]
pub(crate) struct Case<'a> {
    pub(crate) alloc: Global,
    pub(crate) request: &'a Request,
    pub(crate) instance: Source<'a>,
    pub(crate) answer: Source<'a>,
}

impl Case<'_> {
    // The task that was asked for. Of a table no instance is made where there is no need.
    fn task(&self) -> Option<Task> {
        let request = self.request;
        let problem = read(request.problem.as_str().as_bytes()).ok()?;
        let text = self.instance.text;
        if matches!(request.form, Form::Table)
            && let Some(task) = table_task(self.alloc, &problem, request.machines, text)
        {
            return Some(task);
        }
        let instance = instance_in(self.alloc, &request.form, &self.instance)?;
        prepare(self.alloc, &instance, &problem, request.machines).ok()
    }

    // How the answer stands to the task.
    fn judged(&self) -> Option<Judged> {
        let task = self.task()?;
        let sheet = self.sheet()?;
        let Answer {
            pieces,
            value,
            certificate,
        } = sheet.into_answer();
        let judgement = judge_answer(self.alloc, &task, pieces.into_vec(), &certificate).ok()?;
        Some(Judged { value, judgement })
    }

    // The task of a problem without a solver.
    fn problem_task(&self) -> Option<ProblemTask> {
        task_read(
            self.alloc,
            self.request,
            &mut Counted::new(self.instance.text),
        )
        .ok()
    }

    // The numbers of jobs and of machines of the task.
    fn sizes(&self) -> Option<(usize, u32)> {
        if let Some(task) = self.task() {
            return Some((task.len(), task.machines()));
        }
        let task = self.problem_task()?;
        Some((task.len(), task.machines()))
    }

    // The problem and the numbers of jobs and of machines that the answer is for.
    fn answered(&self) -> Option<(Problem, u32, u32)> {
        let sheet = self.sheet()?;
        Some((sheet.problem, sheet.jobs, sheet.machines))
    }

    // The value that the answer claims, with what its pieces cost.
    fn cost(&self) -> Option<(i64, i128)> {
        let judged = self.judged()?;
        match judged.judgement.fit {
            Fit::Fits(cost) => Some((judged.value, cost)),
            _ => None,
        }
    }

    // The value that the answer claims, with what its certificate bounds.
    fn bound(&self) -> Option<(i64, i128)> {
        let judged = self.judged()?;
        match judged.judgement.bound {
            Ok(bound) => Some((judged.value, bound)),
            Err(_) => None,
        }
    }

    // What the answer says.
    fn sheet(&self) -> Option<Sheet> {
        read_answer(self.alloc, self.answer.text).ok()
    }

    fn quote_certificate(&self, page: &mut Page) -> Result<(), AllocError> {
        match self.answer.line_beginning(&[b"cert".as_slice()]) {
            Some(line) => page.quote(&self.answer, &line, None),
            None => Ok(()),
        }
    }

    fn quote_job(&self, page: &mut Page, job: u32) -> Result<(), AllocError> {
        let request = self.request;
        if !matches!(request.form, Form::Table) {
            return Ok(());
        }
        match self.instance.job_line(self.alloc, job)? {
            Some(line) => page.quote(&self.instance, &line, None),
            None => Ok(()),
        }
    }

    fn quote_arc(&self, page: &mut Page, before: u32, after: u32) -> Result<(), AllocError> {
        let first = before.to_string(self.alloc)?;
        let second = after.to_string(self.alloc)?;
        let front = [b"prec".as_slice(), first.as_bytes(), second.as_bytes()];
        match self.instance.line_beginning(&front) {
            Some(line) => page.quote(&self.instance, &line, None),
            None => Ok(()),
        }
    }

    fn quote_pieces_of(&self, page: &mut Page, job: u32) -> Result<(), AllocError> {
        quote_pieces(page, &self.answer, Pieces::OfJob(job))
    }
}

/// The value that an answer claims, and how it stands to the task.
#[derive(Drop)]
struct Judged {
    value: i64,
    judgement: Judgement,
}

/// Why the answer was rejected, if it was.
pub(crate) fn explain_verdict(
    page: &mut Page,
    case: &Case<'_>,
    checked: &Checked,
) -> Result<(), AllocError> {
    match checked {
        Checked::Accepted => Ok(()),
        Checked::OtherTask => say_other_task(page, case),
        Checked::Rejected(Reason::Pieces(fault)) => { explain_pieces(page, &case.answer, fault) }
        Checked::Rejected(Reason::Misfit(misfit)) => say_misfit(page, case, misfit),
        Checked::Rejected(Reason::WrongValue) => say_value(page, case),
        Checked::Rejected(Reason::Bound(fault)) => {
            case.quote_certificate(page)?;
            say_bound_fault(page, fault)
        }
        Checked::Rejected(Reason::BoundBelowValue) => say_gap(page, case),
    }
}

/// Why the pieces of an answer do not fit, or which task the answer is for.
pub(crate) fn explain_unfit(
    page: &mut Page,
    case: &Case<'_>,
    why: &WhyUnfit,
) -> Result<(), AllocError> {
    match why {
        WhyUnfit::OtherTask => say_other_task(page, case),
        WhyUnfit::NoSchedule(fault) => explain_pieces(page, &case.answer, fault),
        WhyUnfit::Misfit(misfit) => say_problem_misfit(page, case, misfit),
    }
}

fn say_problem_misfit(
    page: &mut Page,
    case: &Case<'_>,
    misfit: &ProblemMisfit,
) -> Result<(), AllocError> {
    match misfit {
        ProblemMisfit::Plain(misfit) => say_misfit(page, case, misfit),
        ProblemMisfit::OffRoute(job) => {
            let job = job.get();
            writeln!(
                page.text,
                "Job {job} is on a machine before it is completed on an earlier one:"
            )?;
            case.quote_pieces_of(page, job)
        }
        ProblemMisfit::NoOneOrder => page.say(NO_ONE_ORDER),
        ProblemMisfit::Waits(job) => {
            let job = job.get();
            writeln!(
                page.text,
                "Job {job} waits between two operations, and the problem has \"nwt\":"
            )?;
            case.quote_pieces_of(page, job)
        }
    }
}

/// What is wrong with a schedule that is no permutation schedule.
const NO_ONE_ORDER: &str = "\
The problem has \"prmu\", and the jobs pass the machines in different orders.";

fn say_other_task(page: &mut Page, case: &Case<'_>) -> Result<(), AllocError> {
    let Some((problem, jobs, machines)) = case.answered() else {
        return Ok(());
    };
    say_answered(page, &problem, jobs, machines)?;
    if let Some((jobs, machines)) = case.sizes() {
        let request = case.request;
        page.text.push_str("Asked was for ")?;
        push_name(&mut page.text, request.problem.as_str())?;
        writeln!(page.text, "; jobs: {jobs}, machines: {machines}.")?;
    }
    page.say("Check it against the instance and the problem that it was made for.")
}

fn say_answered(
    page: &mut Page,
    problem: &Problem,
    jobs: u32,
    machines: u32,
) -> Result<(), AllocError> {
    let Ok(problem) = notation_text(page.alloc, problem) else {
        return Ok(());
    };
    let problem = problem.as_str();
    writeln!(
        page.text,
        "The answer is for {problem}; jobs: {jobs}, machines: {machines}."
    )
}

fn say_misfit(page: &mut Page, case: &Case<'_>, misfit: &Misfit) -> Result<(), AllocError> {
    match *misfit {
        Misfit::Stranger(job, machine) => {
            case.quote_pieces_of(page, job.get())?;
            let (job, machine) = (job.get(), machine.get());
            writeln!(page.text, "There is no job {job} or no machine {machine}.")?;
            say_sizes(page, case)
        }
        Misfit::JobTwice(job, time) => {
            let job = job.get();
            writeln!(page.text, "Job {job} is on two machines at time {time}:")?;
            quote_pieces(page, &case.answer, Pieces::OfJobAt(job, time))
        }
        Misfit::WrongAmount(job) => say_amount(page, case, job.get()),
        Misfit::Broken(job) => {
            let job = job.get();
            writeln!(
                page.text,
                "Job {job} is interrupted, and the problem has no \"prmp\":"
            )?;
            case.quote_pieces_of(page, job)
        }
        Misfit::TooEarly(job) => {
            let job = job.get();
            writeln!(page.text, "Job {job} starts before its release date:")?;
            case.quote_job(page, job)?;
            case.quote_pieces_of(page, job)
        }
        Misfit::OutOfOrder(before, after) => say_order(page, case, before.get(), after.get()),
        Misfit::OutOfMemory => Ok(()),
    }
}

// Which jobs and machines there are.
fn say_sizes(page: &mut Page, case: &Case<'_>) -> Result<(), AllocError> {
    let Some((jobs, machines)) = case.sizes() else {
        return Ok(());
    };
    writeln!(
        page.text,
        "Jobs count from 1 to {jobs}, and machines from 1 to {machines}."
    )
}

fn say_amount(page: &mut Page, case: &Case<'_>, job: u32) -> Result<(), AllocError> {
    case.quote_job(page, job)?;
    let steps = steps_of(&case.answer, job);
    writeln!(
        page.text,
        "The pieces of job {job} are {steps} time steps together:"
    )?;
    case.quote_pieces_of(page, job)?;
    page.say("They have to be its time, in a shop that of each machine.")
}

fn say_order(page: &mut Page, case: &Case<'_>, before: u32, after: u32) -> Result<(), AllocError> {
    if before == after && is_flow(case) {
        writeln!(
            page.text,
            "Job {before} is on machine 2 before it is completed on machine 1:"
        )?;
        return case.quote_pieces_of(page, before);
    }
    case.quote_arc(page, before, after)?;
    if before == after {
        return page.say(
            "This precedence constraint makes a job wait for itself, so no schedule fits: delete \
             it.",
        );
    }
    writeln!(
        page.text,
        "Job {after} starts before job {before} is completed:"
    )?;
    case.quote_pieces_of(page, before)?;
    case.quote_pieces_of(page, after)
}

// Whether the problem is one of a flow shop.
fn is_flow(case: &Case<'_>) -> bool {
    let request = case.request;
    class_in(request.problem.as_str()).is_some_and(|class| class.is_flow())
}

fn say_value(page: &mut Page, case: &Case<'_>) -> Result<(), AllocError> {
    if let Some((value, cost)) = case.cost() {
        writeln!(
            page.text,
            "The line \"value\" says {value}, and the pieces cost {cost}."
        )?;
    }
    page.say("Correct the line \"value\", or the pieces.")
}

fn say_gap(page: &mut Page, case: &Case<'_>) -> Result<(), AllocError> {
    case.quote_certificate(page)?;
    if let Some((value, bound)) = case.bound() {
        let gap = i128::from(value).saturating_sub(bound);
        writeln!(
            page.text,
            "The schedule fits and costs {value}. The certificate shows that none\n\
             costs less than {bound}, so a gap of {gap} is left."
        )?;
    }
    page.say(GAP)
}

const GAP: &str = "\
Either a better schedule exists, or another certificate proves this one optimal:
the lines \"value\" and \"cert\" of \"threefield solve\" tell which.";

fn say_bound_fault(page: &mut Page, fault: &BoundFault) -> Result<(), AllocError> {
    match *fault {
        BoundFault::OtherKind => page.say("This kind of certificate is not one of the problem's."),
        BoundFault::BadMachine(machine) => {
            let machine = machine.get();
            writeln!(page.text, "The task has no machine {machine}.")
        }
        BoundFault::BadJob(job) => {
            let job = job.get();
            writeln!(page.text, "The task has no job {job}.")
        }
        BoundFault::Repeated(job) => {
            let job = job.get();
            writeln!(page.text, "Job {job} occurs twice in the certificate.")
        }
        BoundFault::EmptySet => page.say("The certificate names no job."),
        BoundFault::Condition(job) => {
            let job = job.get();
            writeln!(
                page.text,
                "Job {job} breaks the condition of this kind of certificate."
            )
        }
        BoundFault::BadDelta => {
            page.say("The number after \"split\" is negative, or no job of its side reaches it.")
        }
        BoundFault::OutOfMemory => Ok(()),
    }
}
