//! The words of three-field notation: every spelling that is read, with its meaning.
ghost use Rattle.std.specs.Prelude.{◌≡◌};
ghost use Rattle.tf_notation.specs.Spelling.{goals, meaning, conditions, dividers, environments};
ghost use Rattle.tf_notation.specs.Spelling.{count_of, environment, adds, with_condition, has};

use tf_model::limit::MOST_MACHINES;
use tf_model::problem::{Env, Goal, Problem};
use tf_words::number::plain_of;
use tf_words::word::is;

/// A condition, of which the second field lists some: what is asked of jobs or allowed to them.
#[derive(Clone, Copy, Debug, PartialEq, Eq)]
pub enum Condition {
    /// `rj`: a job may not start before its release date.
    Release,
    /// `prec`: a job may not start before the jobs are over that go before it.
    Prec,
    /// `prmp`: preemption, a job may be interrupted and resumed. The older literature writes
    /// `pmtn`.
    Prmp,
    /// `prmu`: permutation, the jobs pass all machines of a flow shop in one order.
    Prmu,
    /// `nwt`: no wait, a job may not stand between two machines.
    Nwt,
    /// `block`: blocking, a job stays on its machine until the next one is free.
    Block,
    /// `rcrc`: recirculation, a job may visit a machine more than once.
    Rcrc,
}

/// The objective that a word names, if it names one.
pub(crate) fn goal_of(word: &[u8]) -> Option<Goal>
    ensures { result ≡ meaning goals word.now }
{
    if is(word, b"Cmax") || is(word, b"C_max") {
        Some(Goal::Cmax)
    } else if is(word, b"Lmax") || is(word, b"L_max") {
        Some(Goal::Lmax)
    } else if is(word, b"hmax") || is(word, b"h_max") {
        Some(Goal::Hmax)
    } else if is(word, b"sumC") || is(word, b"sumCj") || is(word, b"sumC_j") {
        Some(Goal::SumC)
    } else if is(word, b"sumwC") || is(word, b"sumwjCj") || is(word, b"sumw_jC_j") {
        Some(Goal::SumWC)
    } else if is(word, b"sumT") || is(word, b"sumTj") || is(word, b"sumT_j") {
        Some(Goal::SumT)
    } else if is(word, b"sumwT") || is(word, b"sumwjTj") || is(word, b"sumw_jT_j") {
        Some(Goal::SumWT)
    } else if is(word, b"sumU") || is(word, b"sumUj") || is(word, b"sumU_j") {
        Some(Goal::SumU)
    } else if is(word, b"sumwU") || is(word, b"sumwjUj") || is(word, b"sumw_jU_j") {
        Some(Goal::SumWU)
    } else {
        None
    }
}

/// The condition that a word names, if it names one.
fn condition_of(word: &[u8]) -> Option<Condition>
    ensures { result ≡ meaning conditions word.now }
{
    if is(word, b"rj") || is(word, b"r_j") {
        Some(Condition::Release)
    } else if is(word, b"prec") {
        Some(Condition::Prec)
    } else if is(word, b"prmp") || is(word, b"pmtn") {
        Some(Condition::Prmp)
    } else if is(word, b"prmu") {
        Some(Condition::Prmu)
    } else if is(word, b"nwt") {
        Some(Condition::Nwt)
    } else if is(word, b"block") {
        Some(Condition::Block)
    } else if is(word, b"rcrc") {
        Some(Condition::Rcrc)
    } else {
        None
    }
}

/// Whether another condition follows, if this may stand after a condition.
pub(crate) fn divider_of(word: &[u8]) -> Option<bool>
    ensures { result ≡ meaning dividers word.now }
{
    match word {
        b"," => Some(true),
        b"|" => Some(false),
        _ => None,
    }
}

/// The environment of several machines that a letter names, if it names one.
fn letter_of(word: &[u8]) -> Option<Env>
    ensures { result ≡ meaning environments word.now }
{
    match word {
        b"P" => Some(Env::Parallel),
        b"Q" => Some(Env::Uniform),
        b"R" => Some(Env::Unrelated),
        b"F" => Some(Env::Flow),
        b"O" => Some(Env::OpenShop),
        b"J" => Some(Env::JobShop),
        _ => None,
    }
}

/// The count that stands behind an environment's letter, if this may stand there.
fn count_of(word: &[u8]) -> Option<Option<u32>>
    ensures { result ≡ count_of word.now }
{
    if word.is_empty() || is(word, b"m") {
        return Some(None);
    }
    plain_of(word, MOST_MACHINES).map(Some)
}

/// The environment that a word names and the count that it gives, if it names one.
pub(crate) fn environment_of(word: &[u8]) -> Option<(Env, Option<u32>)>
    ensures { result ≡ environment word.now }
{
    if is(word, b"1") {
        return Some((Env::Single, None));
    }
    if word.is_empty() {
        return None;
    }
    let (letter, rest) = word.split_at(1);
    let env = letter_of(letter)?;
    let count = count_of(rest)?;
    Some((env, count))
}

/// Whether the problem names the condition.
pub fn has(problem: &Problem, condition: Condition) -> bool
    ensures { result ≡ has problem.now condition }
{
    match condition {
        Condition::Release => problem.release,
        Condition::Prec => problem.prec,
        Condition::Prmp => problem.prmp,
        Condition::Prmu => problem.prmu,
        Condition::Nwt => problem.nwt,
        Condition::Block => problem.block,
        Condition::Rcrc => problem.rcrc,
    }
}

/// The problem with one condition more.
fn with_condition(mut problem: Problem, condition: Condition) -> Problem
    ensures { result ≡ with_condition problem condition }
{
    match condition {
        Condition::Release => problem.release = true,
        Condition::Prec => problem.prec = true,
        Condition::Prmp => problem.prmp = true,
        Condition::Prmu => problem.prmu = true,
        Condition::Nwt => problem.nwt = true,
        Condition::Block => problem.block = true,
        Condition::Rcrc => problem.rcrc = true,
    }
    problem
}

/// The problem with the condition that the word names, if that is one which it does not name yet.
pub(crate) fn add(problem: Problem, word: &[u8]) -> Option<Problem>
    ensures { result ≡ adds problem word.now }
{
    let condition = condition_of(word)?;
    if has(&problem, condition) {
        None
    } else {
        Some(with_condition(problem, condition))
    }
}
