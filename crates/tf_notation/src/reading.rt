//! Reading a problem from its notation.
ghost use Rattle.std.specs.Prelude.{◌≡◌, ◌≤◌, ◌<◌, length, true, IfOk};
ghost use Rattle.tf_notation.specs.Tokens.{tokens_after};
ghost use Rattle.tf_notation.specs.Spelling.{no_conditions, meaning, environment, goals, dividers};
ghost use Rattle.tf_notation.specs.Spelling.{adds};
ghost use Rattle.tf_notation.specs.Reading.{Gives, expect, bar, conditions_at, listed, notation};

use crate::spelling::{add, divider_of, environment_of, goal_of};
use crate::token::next_token;
use tf_model::problem::{Env, Goal, Problem};
use tf_words::word::is;
use thiserror::Error;

/// A text is no notation.
#[derive(Clone, Copy, Debug, PartialEq, Eq, Error)]
#[error("byte {byte} of the notation is not expected")]
pub struct NotationFault {
    /// The offset, from 0, of the first token that is not expected at its place, or the text's
    /// length where the text ends too early.
    pub byte: usize,
}

/// The environment with its count, and the offset behind it.
#[tactic(auto, unfolding(crate::specs::Reading::expect))]
fn read_environment(
    text: &[u8],
    offset: usize,
) -> Result<((Env, Option<u32>), usize), NotationFault>
    requires { offset ≤ length text.now }
    ensures read { Gives (λ x. (x.0, tokens_after text.now x.1)) result
        (expect environment (length text.now) (tokens_after text.now offset)) }
    ensures inside { IfOk result (λ x. (offset < x.1) × (x.1 ≤ length text.now)) }
{
    match next_token(text, offset) {
        None => Err(NotationFault { byte: text.len() }),
        Some(token) => match environment_of(token.word) {
            None => Err(NotationFault { byte: token.start }),
            Some(environment) => Ok((environment, token.end)),
        },
    }
}

/// The offset behind the bar between two fields.
#[tactic(auto, unfolding(crate::specs::Reading::expect))]
fn read_bar(text: &[u8], offset: usize) -> Result<usize, NotationFault>
    requires { offset ≤ length text.now }
    ensures read { Gives (λ at. (tt, tokens_after text.now at)) result
        (expect (meaning bar) (length text.now) (tokens_after text.now offset)) }
    ensures inside { IfOk result (λ at. (offset < at) × (at ≤ length text.now)) }
{
    match next_token(text, offset) {
        None => Err(NotationFault { byte: text.len() }),
        Some(token) => {
            if is(token.word, b"|") {
                Ok(token.end)
            } else {
                Err(NotationFault { byte: token.start })
            }
        }
    }
}

/// The objective, and the offset behind it.
#[tactic(auto, unfolding(crate::specs::Reading::expect))]
fn read_goal(text: &[u8], offset: usize) -> Result<(Goal, usize), NotationFault>
    requires { offset ≤ length text.now }
    ensures read { Gives (λ x. (x.0, tokens_after text.now x.1)) result
        (expect (meaning goals) (length text.now) (tokens_after text.now offset)) }
    ensures inside { IfOk result (λ x. (offset < x.1) × (x.1 ≤ length text.now)) }
{
    match next_token(text, offset) {
        None => Err(NotationFault { byte: text.len() }),
        Some(token) => match goal_of(token.word) {
            None => Err(NotationFault { byte: token.start }),
            Some(goal) => Ok((goal, token.end)),
        },
    }
}

/// The problem with one condition more, which it did not name before, and the offset behind it.
#[tactic(auto, unfolding(crate::specs::Reading::expect))]
fn read_condition(
    text: &[u8],
    offset: usize,
    named: Problem,
) -> Result<(Problem, usize), NotationFault>
    requires { offset ≤ length text.now }
    ensures read { Gives (λ x. (x.0, tokens_after text.now x.1)) result
        (expect (adds named) (length text.now) (tokens_after text.now offset)) }
    ensures inside { IfOk result (λ x. (offset < x.1) × (x.1 ≤ length text.now)) }
{
    match next_token(text, offset) {
        None => Err(NotationFault { byte: text.len() }),
        Some(token) => match add(named, token.word) {
            None => Err(NotationFault { byte: token.start }),
            Some(more) => Ok((more, token.end)),
        },
    }
}

/// Whether another condition follows, and the offset behind the divider that says so.
#[tactic(auto, unfolding(crate::specs::Reading::expect))]
fn read_divider(text: &[u8], offset: usize) -> Result<(bool, usize), NotationFault>
    requires { offset ≤ length text.now }
    ensures read { Gives (λ x. (x.0, tokens_after text.now x.1)) result
        (expect (meaning dividers) (length text.now) (tokens_after text.now offset)) }
    ensures inside { IfOk result (λ x. (offset < x.1) × (x.1 ≤ length text.now)) }
{
    match next_token(text, offset) {
        None => Err(NotationFault { byte: text.len() }),
        Some(token) => match divider_of(token.word) {
            None => Err(NotationFault { byte: token.start }),
            Some(another) => Ok((another, token.end)),
        },
    }
}

/// Problem, of which there is at least one, and the offset behind the bar after the last.
fn read_listed(text: &[u8], offset: usize) -> Result<(Problem, usize), NotationFault>
    requires { offset ≤ length text.now }
    ensures read { Gives (λ x. (x.0, tokens_after text.now x.1)) result
        (listed (length text.now) no_conditions (tokens_after text.now offset)) }
    ensures inside { IfOk result (λ x. (offset < x.1) × (x.1 ≤ length text.now)) }
{
    let mut named = Problem::plain(Env::Single, Goal::Cmax);
    let mut at = offset;
    loop {
        let (more, after) = read_condition(text, at, named)?;
        let (another, after) = read_divider(text, after)?;
        if !another {
            return Ok((more, after));
        }
        named = more;
        at = after;
    }
}

/// A problem with the conditions of the second field, which may be empty, and the offset behind the
/// bar after it.
#[tactic(auto, unfolding(crate::specs::Reading::conditions_at))]
fn read_conditions(text: &[u8], offset: usize) -> Result<(Problem, usize), NotationFault>
    requires { offset ≤ length text.now }
    ensures read { Gives (λ x. (x.0, tokens_after text.now x.1)) result
        (conditions_at (length text.now) (tokens_after text.now offset)) }
    ensures inside { IfOk result (λ x. (offset < x.1) × (x.1 ≤ length text.now)) }
{
    match next_token(text, offset) {
        None => Err(NotationFault { byte: text.len() }),
        Some(token) => {
            if is(token.word, b"|") {
                Ok((Problem::plain(Env::Single, Goal::Cmax), token.end))
            } else {
                read_listed(text, offset)
            }
        }
    }
}

/// The problem that a text means, by the three fields `environment|conditions|objective`. Blanks
/// and tabs may stand between words, upper and lower case differ, and conditions stand in any
/// order, none of them twice. Takes no memory.
///
/// Some problems that are read have no solver.
///
/// # Errors
///
/// The byte of the first token that is not expected, or the text's length in bytes where the text
/// ends too early.
#[tactic(auto, unfolding(crate::specs::Reading::notation))]
pub fn read(text: &[u8]) -> Result<Problem, NotationFault>
    ensures { Gives (λ x. x) result (notation text.now) }
{
    let ((env, count), at) = read_environment(text, 0)?;
    let at = read_bar(text, at)?;
    let (named, at) = read_conditions(text, at)?;
    let (goal, at) = read_goal(text, at)?;
    match next_token(text, at) {
        Some(token) => Err(NotationFault { byte: token.start }),
        None => Ok(Problem {
            env,
            count,
            goal,
            ..named
        }),
    }
}
