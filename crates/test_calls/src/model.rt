use std::alloc::{AllocError, Global};
use std::test::Fail;
use tf_model::class::{Class, class_of};
use tf_model::cost::{Cost, CostFault, StepCost};
use tf_model::ids::{JobId, MachineId};
use tf_model::instance::{Instance, InstanceFault};
use tf_model::job::{Job, Times};
use tf_model::prepare::{Refusal, prepare};
use tf_model::problem::{Env, Goal, Problem};

/// What refuses a cost of these steps.
fn step_fault(
    alloc: Global,
    base: i64,
    steps: &[(i64, i64)],
) -> Result<Option<CostFault>, AllocError> {
    Ok(StepCost::new(base, Vec::from_slice(alloc, steps)?).err())
}

fn is_fault_of_steps(alloc: Global, base: i64, steps: &[(i64, i64)], fault: CostFault) -> bool {
    step_fault(alloc, base, steps) == Ok(Some(fault))
}

#[test]
fn steps_rise_and_do_not_fall(rt: HostRuntime) -> Result<(), Fail> {
    let alloc = rt.alloc();
    assert!(rt; is_fault_of_steps(alloc, 0, &[(5, 3), (5, 4)], CostFault::TimesNotRising));
    assert!(rt; is_fault_of_steps(alloc, 0, &[(5, 3), (9, 2)], CostFault::CostFalls));
    assert!(rt; is_fault_of_steps(alloc, 0, &[(-1, 3)], CostFault::OutOfRange));
    let steps = Vec::from_slice(alloc, &[(0, -2)])?;
    assert!(rt; StepCost::new(-2, steps).is_ok_and(|cost| cost.value_at(0) == -2));
    Ok(())
}

pub fn timed(times: Times) -> Job {
    Job {
        times,
        weight: None,
        due: None,
        release: None,
        cost: None,
    }
}

/// What refuses one job of this weight and due date with these arcs and machines.
fn refused_with(
    alloc: Global,
    (weight, due): (Option<i64>, Option<i64>),
    arcs: &[(JobId, JobId)],
    machines: Option<u32>,
) -> Result<Option<InstanceFault>, AllocError> {
    let job = Job {
        weight,
        due,
        ..timed(Times::One(1))
    };
    let jobs = vec![in alloc; job]?;
    let arcs = Vec::from_slice(alloc, arcs)?;
    Ok(Instance::new(jobs, arcs, machines).err())
}

fn is_refused_with(
    alloc: Global,
    fields: (Option<i64>, Option<i64>),
    arcs: &[(JobId, JobId)],
    machines: Option<u32>,
    fault: InstanceFault,
) -> bool {
    refused_with(alloc, fields, arcs, machines) == Ok(Some(fault))
}

fn is_refused_without_jobs(alloc: Global) -> bool {
    let refused = Instance::new(Vec::new(alloc), Vec::new(alloc), None).err();
    refused == Some(InstanceFault::NoJobs)
}

#[test]
fn an_instance_has_its_first_fault(rt: HostRuntime) {
    let (alloc, first) = (rt.alloc(), JobId::at(0));
    assert!(rt; is_refused_without_jobs(alloc));
    let plain = (None, None);
    assert!(rt; is_refused_with(alloc, plain, &[], Some(0), InstanceFault::TooManyMachines));
    let arcs = [(first, JobId::at(1))];
    assert!(rt; is_refused_with(alloc, plain, &arcs, None, InstanceFault::BadArc(1)));
    let negative = (Some(-1), None);
    assert!(rt;
        is_refused_with(
            alloc,
            negative,
            &[],
            None,
            InstanceFault::NegativeNumber(first)
        )
    );
    let beyond = (None, Some(-4_000_000_000_000_000_001));
    assert!(rt; is_refused_with(alloc, beyond, &[], None, InstanceFault::OutOfRange(first)));
}

/// Whether 0 parallel machines are refused.
fn are_refused_without_machines(alloc: Global) -> Result<bool, Fail> {
    let problem = Problem {
        prmp: true,
        ..Problem::plain(Env::Parallel, Goal::Cmax)
    };
    let jobs = vec![in alloc; timed(Times::One(1))]?;
    let instance = Instance::new(jobs, Vec::new(alloc), None)?;
    Ok(prepare(alloc, &instance, &problem, Some(0)).err() == Some(Refusal::MachineCount(0)))
}

fn numbers_count_from_1() -> bool {
    JobId::new(0).is_none()
        && MachineId::new(0).is_none()
        && JobId::new(1).map(JobId::get) == Some(1)
        && MachineId::new(1_000).map(MachineId::get) == Some(1_000)
}

#[test]
fn jobs_and_machines_count_from_1(rt: HostRuntime) -> Result<(), Fail> {
    assert!(rt; numbers_count_from_1());
    assert!(rt; are_refused_without_machines(rt.alloc())?);
    Ok(())
}

/// Problems without conditions, and the class of each.
const CLASSES: &[(Env, Goal, Option<Class>)] = &[
    (Env::Single, Goal::SumWC, Some(Class::WeightedSum)),
    (Env::Single, Goal::SumC, Some(Class::PlainSum)),
    (Env::Single, Goal::Lmax, Some(Class::Lmax)),
    (Env::Single, Goal::Hmax, Some(Class::Hmax)),
    (Env::Parallel, Goal::SumC, Some(Class::ParallelSum)),
    (Env::Parallel, Goal::Cmax, None),
    (Env::Flow, Goal::Cmax, Some(Class::FlowTwo)),
    (Env::OpenShop, Goal::Cmax, Some(Class::OpenTwo)),
];

#[test]
fn a_problem_has_the_class_of_its_notation(rt: HostRuntime) {
    for (env, goal, class) in CLASSES {
        assert!(rt; class_of(&Problem::plain(*env, *goal)) == *class);
    }
}
