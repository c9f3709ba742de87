//! Classes of problems that are solved in one way, and which problem is of which.
ghost use Rattle.std.specs.Prelude.{◌≡◌, ◌↔◌, Some, Option};
ghost use Rattle.tf_model.specs.declared.problem.Env.TheVariants.{Single, Parallel};
ghost use Rattle.tf_model.specs.declared.problem.Goal.TheVariants.{Cmax};
ghost use Rattle.tf_model.specs.ClassTable.{IsOfClass, plain_problem, class_of, single_class};
ghost use Rattle.tf_model.specs.ClassTable.{parallel_class, shop_class};

use crate::problem::{Env, Goal, Problem};

/// A class of problems that are solved in one way. Each is named by its three fields.
#[derive(Clone, Copy, Debug, PartialEq, Eq)]
pub enum Class {
    /// `1||sumwC`
    WeightedSum,
    /// `1||sumC`
    PlainSum,
    /// `1||hmax`
    Hmax,
    /// `1|prec|hmax`
    PrecHmax,
    /// `1||Lmax`
    Lmax,
    /// `1|prec|Lmax`
    PrecLmax,
    /// `1|rj,prmp|Lmax`
    ReleaseLmax,
    /// `F2||Cmax`
    FlowTwo,
    /// `O2||Cmax`
    OpenTwo,
    /// `P|prmp|Cmax`
    ParallelPrmp,
    /// `P||sumC`
    ParallelSum,
    /// `1|prmp|sumwC`
    PrmpWeightedSum,
    /// `1|prmp|sumC`
    PrmpPlainSum,
    /// `1|prmp|hmax`
    PrmpHmax,
    /// `1|prec,prmp|hmax`
    PrmpPrecHmax,
    /// `1|prmp|Lmax`
    PrmpLmax,
    /// `1|prec,prmp|Lmax`
    PrmpPrecLmax,
    /// `F2|prmp|Cmax`
    PrmpFlowTwo,
    /// `O2|prmp|Cmax`
    PrmpOpenTwo,
}

/// The class of a problem, if it is of one: the class whose notation has its environment, exactly
/// its conditions, and its objective. A shop is of a class only with two machines, or where the
/// notation does not say how many. It takes no memory.
#[tactic(auto, using(crate::proofs::OfClass::determined))]
pub fn class_of(problem: &Problem) -> Option<Class>
    ensures value { result ≡ class_of problem.now }
    ensures of { (c : Class) → (result ≡ Some c) ↔ IsOfClass problem.now c }
{
    if problem.prmu || problem.nwt || problem.block || problem.rcrc {
        return None;
    }
    match problem.env {
        Env::Single => single_class(problem.goal, problem.release, problem.prec, problem.prmp),
        Env::Parallel => parallel_class(problem.goal, problem.release, problem.prec, problem.prmp),
        Env::Flow => shop_class(problem, Class::FlowTwo, Class::PrmpFlowTwo),
        Env::OpenShop => shop_class(problem, Class::OpenTwo, Class::PrmpOpenTwo),
        Env::Uniform | Env::Unrelated | Env::JobShop => None,
    }
}

fn single_class(goal: Goal, release: bool, prec: bool, prmp: bool) -> Option<Class>
    ensures { result ≡ single_class goal release prec prmp }
{
    match (goal, release, prec, prmp) {
        (Goal::SumWC, false, false, false) => Some(Class::WeightedSum),
        (Goal::SumWC, false, false, true) => Some(Class::PrmpWeightedSum),
        (Goal::SumC, false, false, false) => Some(Class::PlainSum),
        (Goal::SumC, false, false, true) => Some(Class::PrmpPlainSum),
        (Goal::Hmax, false, false, false) => Some(Class::Hmax),
        (Goal::Hmax, false, false, true) => Some(Class::PrmpHmax),
        (Goal::Hmax, false, true, false) => Some(Class::PrecHmax),
        (Goal::Hmax, false, true, true) => Some(Class::PrmpPrecHmax),
        (Goal::Lmax, false, false, false) => Some(Class::Lmax),
        (Goal::Lmax, false, false, true) => Some(Class::PrmpLmax),
        (Goal::Lmax, false, true, false) => Some(Class::PrecLmax),
        (Goal::Lmax, false, true, true) => Some(Class::PrmpPrecLmax),
        (Goal::Lmax, true, false, true) => Some(Class::ReleaseLmax),
        _ => None,
    }
}

fn parallel_class(goal: Goal, release: bool, prec: bool, prmp: bool) -> Option<Class>
    ensures { result ≡ parallel_class goal release prec prmp }
{
    match (goal, release, prec, prmp) {
        (Goal::Cmax, false, false, true) => Some(Class::ParallelPrmp),
        (Goal::SumC, false, false, false) => Some(Class::ParallelSum),
        _ => None,
    }
}

fn shop_class(problem: &Problem, plain: Class, broken: Class) -> Option<Class>
    ensures { result ≡ shop_class problem.now plain broken }
{
    let free = !problem.release && !problem.prec;
    match (problem.goal, problem.count) {
        (Goal::Cmax, None | Some(2)) if free => { Some(if problem.prmp { broken } else { plain }) }
        _ => None,
    }
}

// A problem of one machine.
fn single(goal: Goal, prec: bool, prmp: bool) -> Problem
    ensures { result ≡ record (plain_problem Single goal) { prec = prec; prmp = prmp } }
{
    Problem {
        prec,
        prmp,
        ..Problem::plain(Env::Single, goal)
    }
}

// A problem of machines in parallel.
fn parallel(goal: Goal, prmp: bool) -> Problem
    ensures { result ≡ record (plain_problem Parallel goal) { prmp = prmp } }
{
    Problem {
        prmp,
        ..Problem::plain(Env::Parallel, goal)
    }
}

// A problem of a shop of two machines.
fn two(env: Env, prmp: bool) -> Problem
    ensures { result ≡ record (plain_problem env Cmax) { count = Some 2; prmp = prmp } }
{
    Problem {
        count: Some(2),
        prmp,
        ..Problem::plain(env, Goal::Cmax)
    }
}

impl Class {
    ghost use Rattle.tf_model.specs.ClassTable.{notation_of, may_break, is_flow, is_shop};
    ghost use Rattle.tf_model.specs.ClassTable.{is_single, is_weighted, is_released, is_due};
    ghost use Rattle.tf_model.specs.ClassTable.{is_costed, is_ordered, is_sum, is_parallel};
    ghost use Rattle.tf_model.specs.ClassTable.{is_span};

    /// The notation of the class, from which all that follows is read.
    pub fn notation(self) -> Problem
        ensures notation { result ≡ notation_of self }
        ensures own { class_of result ≡ Some self }
    {
        match self {
            Class::WeightedSum => single(Goal::SumWC, false, false),
            Class::PlainSum => single(Goal::SumC, false, false),
            Class::Hmax => single(Goal::Hmax, false, false),
            Class::PrecHmax => single(Goal::Hmax, true, false),
            Class::Lmax => single(Goal::Lmax, false, false),
            Class::PrecLmax => single(Goal::Lmax, true, false),
            Class::ReleaseLmax => Problem {
                release: true,
                ..single(Goal::Lmax, false, true)
            },
            Class::FlowTwo => two(Env::Flow, false),
            Class::OpenTwo => two(Env::OpenShop, false),
            Class::ParallelPrmp => parallel(Goal::Cmax, true),
            Class::ParallelSum => parallel(Goal::SumC, false),
            Class::PrmpWeightedSum => single(Goal::SumWC, false, true),
            Class::PrmpPlainSum => single(Goal::SumC, false, true),
            Class::PrmpHmax => single(Goal::Hmax, false, true),
            Class::PrmpPrecHmax => single(Goal::Hmax, true, true),
            Class::PrmpLmax => single(Goal::Lmax, false, true),
            Class::PrmpPrecLmax => single(Goal::Lmax, true, true),
            Class::PrmpFlowTwo => two(Env::Flow, true),
            Class::PrmpOpenTwo => two(Env::OpenShop, true),
        }
    }

    /// Whether a job has a time for each of two machines.
    pub fn is_shop(self) -> bool
        ensures { result ≡ is_shop self }
    {
        self.notation().env.is_shop()
    }

    /// Whether jobs visit machine 1 before machine 2.
    pub fn is_flow(self) -> bool
        ensures { result ≡ is_flow self }
    {
        matches!(self.notation().env, Env::Flow)
    }

    /// Whether there is one machine.
    pub fn is_single(self) -> bool
        ensures { result ≡ is_single self }
    {
        matches!(self.notation().env, Env::Single)
    }

    /// Whether there are identical machines in parallel.
    pub fn is_parallel(self) -> bool
        ensures { result ≡ is_parallel self }
    {
        matches!(self.notation().env, Env::Parallel)
    }

    /// Whether a job may be interrupted and resumed (preemption).
    pub fn may_break(self) -> bool
        ensures { result ≡ may_break self }
    {
        self.notation().prmp
    }

    /// Whether jobs have release dates.
    pub fn is_released(self) -> bool
        ensures { result ≡ is_released self }
    {
        self.notation().release
    }

    /// Whether arcs are kept.
    pub fn is_ordered(self) -> bool
        ensures { result ≡ is_ordered self }
    {
        self.notation().prec
    }

    /// Whether the objective is the greatest completion time.
    pub fn is_span(self) -> bool
        ensures { result ≡ is_span self }
    {
        matches!(self.notation().goal, Goal::Cmax)
    }

    /// Whether jobs have weights of their own.
    pub fn is_weighted(self) -> bool
        ensures { result ≡ is_weighted self }
    {
        matches!(self.notation().goal, Goal::SumWC)
    }

    /// Whether jobs have due dates.
    pub fn is_due(self) -> bool
        ensures { result ≡ is_due self }
    {
        matches!(self.notation().goal, Goal::Lmax)
    }

    /// Whether jobs have cost functions.
    pub fn is_costed(self) -> bool
        ensures { result ≡ is_costed self }
    {
        matches!(self.notation().goal, Goal::Hmax)
    }

    /// Whether the objective is a sum of completion times.
    pub fn is_sum(self) -> bool
        ensures { result ≡ is_sum self }
    {
        matches!(self.notation().goal, Goal::SumC | Goal::SumWC)
    }
}
