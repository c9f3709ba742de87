//! The canonical text of a problem.
ghost use Rattle.std.specs.Prelude.{◌≡◌, OnOk, IfOk, Ok, string_bytes};
ghost use Rattle.tf_notation.specs.Reading.{notation, IsRead};
ghost use Rattle.tf_notation.specs.Canonical.{environment_word, count_text, condition_word};
ghost use Rattle.tf_notation.specs.Canonical.{goal_word, one_more, listed_text};
ghost use Rattle.tf_notation.specs.Canonical.{all_conditions, canonical};

use crate::spelling::{Condition, has};
use std::alloc::Allocator;
use tf_model::memory::OutOfMemory;
use tf_model::problem::{Env, Goal, Problem};

/// An environment without its count.
fn environment_word(env: Env) -> &'static str
    ensures { result.now ≡ environment_word env }
{
    match env {
        Env::Single => "1",
        Env::Parallel => "P",
        Env::Uniform => "Q",
        Env::Unrelated => "R",
        Env::Flow => "F",
        Env::OpenShop => "O",
        Env::JobShop => "J",
    }
}

/// The canonical spelling of a condition.
fn condition_word(condition: Condition) -> &'static str
    ensures { result.now ≡ condition_word condition }
{
    match condition {
        Condition::Release => "rj",
        Condition::Prec => "prec",
        Condition::Prmp => "prmp",
        Condition::Prmu => "prmu",
        Condition::Nwt => "nwt",
        Condition::Block => "block",
        Condition::Rcrc => "rcrc",
    }
}

/// The canonical spelling of an objective.
fn goal_word(goal: Goal) -> &'static str
    ensures { result.now ≡ goal_word goal }
{
    match goal {
        Goal::Cmax => "Cmax",
        Goal::Lmax => "Lmax",
        Goal::Hmax => "hmax",
        Goal::SumC => "sumC",
        Goal::SumWC => "sumwC",
        Goal::SumT => "sumT",
        Goal::SumWT => "sumwT",
        Goal::SumU => "sumU",
        Goal::SumWU => "sumwU",
    }
}

/// The count behind an environment's letter.
fn count_text<A: Allocator + Copy>(
    alloc: A,
    env: Env,
    count: Option<u32>,
) -> Result<String<A>, OutOfMemory>
    ensures { IfOk result (λ s. string_bytes s ≡ count_text env count) }
{
    match (env, count) {
        (Env::Single, _) | (_, None) => Ok(String::new(alloc)),
        (_, Some(count)) => Ok(count.to_string(alloc)?),
    }
}

/// All conditions, in the order in which they are written.
const CONDITIONS: [Condition; 7] = [
    Condition::Release,
    Condition::Prec,
    Condition::Prmp,
    Condition::Prmu,
    Condition::Nwt,
    Condition::Block,
    Condition::Rcrc,
];

/// Adds a word to a list whose words have a comma between each two.
fn add_word<A: Allocator + Copy>(list: &mut String<A>, word: &str) -> Result<(), OutOfMemory>
    ensures { OnOk result (string_bytes list.new ≡ one_more (string_bytes list.old) word.now) }
{
    if !list.is_empty() {
        list.push(',')?;
    }
    list.push_str(word)?;
    Ok(())
}

/// The second field.
fn listed_text<A: Allocator + Copy>(alloc: A, problem: &Problem) -> Result<String<A>, OutOfMemory>
    ensures { IfOk result (λ s. string_bytes s ≡ listed_text problem.now all_conditions) }
{
    let mut list = String::new(alloc);
    for condition in CONDITIONS {
        if has(problem, condition) {
            add_word(&mut list, condition_word(condition))?;
        }
    }
    Ok(list)
}

/// The three fields with a bar between each two.
#[tactic(auto, unfolding(crate::specs::Canonical::canonical))]
fn canonical<A: Allocator + Copy>(alloc: A, problem: &Problem) -> Result<String<A>, OutOfMemory>
    ensures { IfOk result (λ s. string_bytes s ≡ canonical problem.now) }
{
    let count = count_text(alloc, problem.env, problem.count)?;
    let list = listed_text(alloc, problem)?;
    let environment = environment_word(problem.env);
    let goal = goal_word(problem.goal);
    Ok(format!(in alloc; "{environment}{count}|{list}|{goal}")?)
}

/// The canonical text of a problem: no blanks, the first spelling of each word, and the conditions
/// in the order `rj`, `prec`, `prmp`, `prmu`, `nwt`, `block`, `rcrc`. A count beside
/// [`Env::Single`] is left out; any other is written in decimal, also one above the most machines,
/// which no text gives.
///
/// Preemption is written `prmp`, as Pinedo writes it, and not `pmtn`, as the older literature does.
pub fn notation_text<A: Allocator + Copy>(
    alloc: A,
    problem: &Problem,
) -> Result<String<A>, OutOfMemory>
    ensures text { IfOk result (λ s. string_bytes s ≡ canonical problem.now) }
    // The canonical text of a problem that was read means that problem again.
    ensures round_trip { IfOk result
        (λ s. IsRead problem.now → notation (string_bytes s) ≡ Ok problem.now) }
{
    canonical(alloc, problem)
}
