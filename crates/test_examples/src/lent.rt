//! Calls on lent arguments: with each of their growths refused, and again with ample memory.
use refusing::Refusing;
use std::alloc::{Allocator, Global};
use std::test::Fail;
use test_runs::examples::{Example, Given, worked};
use test_runs::growths::{Ended, ample, refuse_each_growth};
use test_runs::runs::ensure;
use tf_check::answer::Answer;
use tf_check::certificate::Certificate;
use tf_check::check::{check, check_owned};
use tf_check::evidence::Evidence;
use tf_check::fault::BoundFault;
use tf_check::verdict::Verdict;
use tf_engine::solve::{SolveFault, solve};
use tf_model::instance::Instance;
use tf_model::memory::OutOfMemory;
use tf_model::prepare::{Refusal, prepare};
use tf_model::problem::Problem;
use tf_model::task::Task;
use tf_notation::reading::read;
use tf_read::fault::ReadFault;
use tf_read::flow_shop::read_flowshop;
use tf_read::job_table::read_table;
use tf_read::weighted_tardiness::read_wt;
use tf_schedule::fit::{Misfit, fits};
use tf_schedule::schedule::Schedule;
use tf_text::answer::layout::Layout;
use tf_text::answer::reading::read_answer;
use tf_text::answer::sheet::Sheet;
use tf_text::answer::writing::write_answer;
use tf_text::counted::Counted;

/// What an example lends to a call.
#[derive(Drop)]
struct Lent {
    example: &'static Example,
    instance: Instance,
    problem: Problem,
    task: Task,
    answer: Answer,
}

fn instance_of(rt: &HostRuntime, example: &Example) -> Result<Instance, ReadFault> {
    match example.given {
        Given::Table => read_table(rt.alloc(), example.instance),
        Given::Tardiness { jobs, index } => read_wt(rt.alloc(), example.instance, jobs, index),
        Given::FlowShop { name, pair } => {
            read_flowshop(rt.alloc(), example.instance, name.as_bytes(), pair)
        }
    }
}

fn lend(rt: &HostRuntime, example: &'static Example) -> Result<Lent, Fail> {
    let instance = instance_of(rt, example)?;
    let problem = read(example.problem.as_bytes())?;
    let task = prepare(rt.alloc(), &instance, &problem, None)?;
    let answer = read_answer(rt.alloc(), example.answer)?.answer;
    Ok(Lent {
        example,
        instance,
        problem,
        task,
        answer,
    })
}

fn written<A: Allocator>(rt: &HostRuntime, sheet: &Sheet<A>) -> Result<Vec<u8>, Fail> {
    let mut text = Vec::new(rt.alloc());
    let mut writer = Counted::new(&mut text);
    let result = write_answer(rt.alloc(), &mut writer, sheet, Layout::One);
    drop(writer);
    result?;
    Ok(text)
}

impl Lent {
    /// The answer is that of the example.
    fn is_answer<A: Allocator, B: Allocator>(
        &self,
        rt: &HostRuntime,
        task: &Task<A>,
        answer: Answer<B>,
    ) -> Result<Ended, Fail> {
        let sheet = Sheet {
            problem: self.problem,
            jobs: task.len() as u32,
            machines: task.machines(),
            answer,
        };
        ensure(
            written(rt, &sheet)?.as_slice() == self.example.answer,
            self.example.name,
        )?;
        Ok(Ended::Answered)
    }

    fn fails(&self) -> Fail {
        Fail::new(self.example.name)
    }

    /// The answer to the task is that of the example.
    fn is_answered<A: Allocator>(&self, rt: &HostRuntime, task: &Task<A>) -> Result<Ended, Fail> {
        match solve(&ample(rt.alloc()), task) {
            Ok(answer) => self.is_answer(rt, task, answer),
            Err(_) => Err(self.fails()),
        }
    }

    /// The task is one whose answer is that of the example.
    fn prepares(&self, rt: &HostRuntime, heap: &Refusing<Global>) -> Result<Ended, Fail> {
        match prepare(heap, &self.instance, &self.problem, None) {
            Ok(task) => self.is_answered(rt, &task),
            Err(Refusal::OutOfMemory) => Ok(Ended::OutOfMemory),
            Err(_) => Err(self.fails()),
        }
    }

    fn solves(&self, rt: &HostRuntime, heap: &Refusing<Global>) -> Result<Ended, Fail> {
        match solve(heap, &self.task) {
            Ok(answer) => self.is_answer(rt, &self.task, answer),
            Err(SolveFault::OutOfMemory) => Ok(Ended::OutOfMemory),
            Err(SolveFault::Cycle(_)) => Err(self.fails()),
        }
    }

    fn is_accepted(&self, verdict: Result<Verdict, OutOfMemory>) -> Result<Ended, Fail> {
        match verdict {
            Ok(Verdict::Accepted) => Ok(Ended::Answered),
            Ok(Verdict::Rejected(_)) => Err(self.fails()),
            Err(_) => Ok(Ended::OutOfMemory),
        }
    }

    fn checks(&self, heap: &Refusing<Global>) -> Result<Ended, Fail> {
        self.is_accepted(check(heap, &self.task, &self.answer))
    }

    fn checks_owned(&self, rt: &HostRuntime, heap: &Refusing<Global>) -> Result<Ended, Fail> {
        let answer = read_answer(rt.alloc(), self.example.answer)?.answer;
        self.is_accepted(check_owned(heap, &self.task, answer))
    }

    fn judges(&self, heap: &Refusing<Global>, schedule: &Schedule) -> Result<Ended, Fail> {
        match fits(heap, &self.task, schedule) {
            Ok(()) => Ok(Ended::Answered),
            Err(Misfit::OutOfMemory) => Ok(Ended::OutOfMemory),
            Err(_) => Err(self.fails()),
        }
    }

    fn bounds(&self, heap: &Refusing<Global>) -> Result<Ended, Fail> {
        match self.answer.certificate.bound(heap, &self.task) {
            Ok(bound) if bound == i128::from(self.answer.value) => Ok(Ended::Answered),
            Err(BoundFault::OutOfMemory) => Ok(Ended::OutOfMemory),
            _ => Err(self.fails()),
        }
    }

    fn has_small_certificate(&self) -> bool {
        matches!(
            &self.answer.certificate,
            Certificate::Load(_) | Certificate::Machine(_) | Certificate::OneJob(_)
        )
    }

    fn growths_of_preparing(&self, rt: &HostRuntime) -> Result<u64, Fail> {
        let prepares = |heap: &Refusing<Global>| self.prepares(rt, heap);
        refuse_each_growth(rt, prepares)
    }

    fn growths_of_solving(&self, rt: &HostRuntime) -> Result<u64, Fail> {
        let solves = |heap: &Refusing<Global>| self.solves(rt, heap);
        refuse_each_growth(rt, solves)
    }

    fn growths_of_checking(&self, rt: &HostRuntime) -> Result<u64, Fail> {
        let checks = |heap: &Refusing<Global>| self.checks(heap);
        refuse_each_growth(rt, checks)
    }

    fn growths_of_checking_owned(&self, rt: &HostRuntime) -> Result<u64, Fail> {
        let checks = |heap: &Refusing<Global>| self.checks_owned(rt, heap);
        refuse_each_growth(rt, checks)
    }

    fn schedule(&self, rt: &HostRuntime) -> Result<Schedule, Fail> {
        let pieces = self.answer.pieces.as_slice().to_vec(rt.alloc())?;
        match Schedule::new(pieces) {
            Ok(schedule) => Ok(schedule),
            Err(_) => Err(self.fails()),
        }
    }

    fn growths_of_judging(&self, rt: &HostRuntime) -> Result<u64, Fail> {
        let schedule = self.schedule(rt)?;
        let judges = |heap: &Refusing<Global>| self.judges(heap, &schedule);
        refuse_each_growth(rt, judges)
    }

    fn growths_of_bounding(&self, rt: &HostRuntime) -> Result<u64, Fail> {
        let bounds = |heap: &Refusing<Global>| self.bounds(heap);
        refuse_each_growth(rt, bounds)
    }

    /// Growths are asked for to prepare the example's task and to solve it.
    fn prepares_and_solves(&self, rt: &HostRuntime) -> Result<bool, Fail> {
        let prepared = self.growths_of_preparing(rt)?;
        let solved = self.growths_of_solving(rt)?;
        Ok(prepared > 0 && solved > 0)
    }

    /// An answer that is given up is judged without a growth for a copy of its pieces, if it has
    /// some.
    fn saves_a_copy(&self, rt: &HostRuntime) -> Result<bool, Fail> {
        let copies = u64::from(!self.answer.pieces.as_slice().is_empty());
        let kept = self.growths_of_checking(rt)?;
        let owned = self.growths_of_checking_owned(rt)?;
        let judged = self.growths_of_judging(rt)?;
        Ok(kept.checked_sub(owned) == Some(copies) && judged > 0)
    }

    /// The bounds of `load`, `machine` and `job` take no memory. Those of the other kinds do, and
    /// are out of memory where their first growth is refused.
    fn bounds_by_its_kind(&self, rt: &HostRuntime) -> Result<bool, Fail> {
        let is_small = self.has_small_certificate();
        let growths = self.growths_of_bounding(rt)?;
        let first = self.bounds(&Refusing::new(rt.alloc(), 0))?;
        Ok((growths == 0) == is_small && (first == Ended::Answered) == is_small)
    }
}

/// Each call on what the example lends answers.
fn all_answer(rt: &HostRuntime, example: &'static Example) -> Result<bool, Fail> {
    let lent = lend(rt, example)?;
    Ok(lent.prepares_and_solves(rt)? && lent.saves_a_copy(rt)? && lent.bounds_by_its_kind(rt)?)
}

#[test]
fn calls_answer_whatever_growth_is_refused(rt: HostRuntime) -> Result<(), Fail> {
    for example in worked() {
        ensure(all_answer(&rt, example)?, example.name)?;
    }
    Ok(())
}
