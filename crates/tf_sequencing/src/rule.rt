//! Sequencing rules, and jobs sorted by them.
ghost use Rattle.std.specs.Prelude.{◌≡◌, ◌*◌};
ghost use Rattle.std.specs.List.Sorted.{IsPermutation};
ghost use Rattle.std.specs.Ordering.{is_lt};
ghost use Rattle.tf_sequencing.specs.Rules.{IsByRule, comes_before};
ghost use Rattle.tf_sequencing.specs.GoesBefore.{goes_before};

use crate::ruled_job::RuledJob;
use std::alloc::Allocator;
use std::cmp::Ordering;

/// A rule for the order of jobs. Each sorts them by their numbers where it makes no difference.
#[derive(Clone, Copy, Debug, PartialEq, Eq)]
pub enum Rule {
    /// The earliest due date first (EDD, Jackson 1955).
    Edd,
    /// The shortest processing time first (SPT).
    Spt,
    /// The longest processing time first (LPT, Graham 1969).
    Lpt,
    /// The largest ratio of weight to processing time first (WSPT, Smith 1956).
    Wspt,
    /// The earliest release date first (ERD).
    Erd,
}

/// Sorts jobs by a rule, and by number where the rule makes no difference.
pub fn sort_by_rule<A: Allocator>(rule: Rule, jobs: &mut Vec<RuledJob, A>)
    ensures moved { IsPermutation jobs.old.items jobs.new.items }
    ensures sorted { IsByRule rule jobs.new.items }
{
    match rule {
        Rule::Edd => jobs.sort_unstable_by(|one, other| compare(Rule::Edd, one, other)),
        Rule::Spt => jobs.sort_unstable_by(|one, other| compare(Rule::Spt, one, other)),
        Rule::Lpt => jobs.sort_unstable_by(|one, other| compare(Rule::Lpt, one, other)),
        Rule::Wspt => jobs.sort_unstable_by(|one, other| compare(Rule::Wspt, one, other)),
        Rule::Erd => jobs.sort_unstable_by(|one, other| compare(Rule::Erd, one, other)),
    }
}

fn compare(rule: Rule, first: &RuledJob, second: &RuledJob) -> Ordering
    ensures { is_lt result ≡ goes_before rule first.now second.now }
{
    if comes_before(rule, first, second) {
        return Ordering::Less;
    }
    if comes_before(rule, second, first) {
        return Ordering::Greater;
    }
    first.job.cmp(&second.job)
}

// Whether the rule has the one job before the other.
fn comes_before(rule: Rule, first: &RuledJob, second: &RuledJob) -> bool
    ensures { result ≡ comes_before rule first.now second.now }
{
    match rule {
        Rule::Edd => first.due < second.due,
        Rule::Spt => first.time < second.time,
        Rule::Lpt => second.time < first.time,
        Rule::Wspt => product(second.weight, first.time) < product(first.weight, second.time),
        Rule::Erd => first.release < second.release,
    }
}

fn product(weight: u64, time: u64) -> u128
    ensures { result ≡ weight * time }
{
    u128::from(weight) * u128::from(time)
}
