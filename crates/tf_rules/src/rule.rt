//! The rules, and the list of each.
use crate::dispatch::dispatched;
use crate::due_dates::few_late;
use crate::keys::keys_of;
use crate::listing::listed;
use crate::remaining::shortest_remaining;
use crate::urgency::urgent_first;
use std::alloc::Allocator;
use tf_decode::measure::Measure;
use tf_decode::table::{Decoder, TaskTable};
use tf_model::memory::OutOfMemory;

/// A rule for the order of jobs. Each keeps the arcs and looks at release dates.
#[derive(Clone, Copy)]
pub enum Rule {
    /// The longest chain of jobs first, less the due date at its end (the critical path).
    LongestTail,
    /// The earliest due date first, less the work that has to follow by it.
    EarliestDue,
    /// The smallest ratio of work to weight first (Smith 1956).
    SmallestRatio,
    /// The longest processing time first (Graham 1969).
    LongestWork,
    /// Johnson's order of the first and the last so many machines (Campbell, Dudek and Smith 1970).
    Johnson(usize),
    /// By due dates; where a job is late, the one goes last that takes most for its weight (Moore
    /// 1968, by Hodgson's algorithm).
    FewLate,
    /// The shortest remaining processing time first (Schrage 1968).
    ShortestRemaining,
    /// The greatest apparent tardiness cost first (Vepsalainen and Morton 1987): so many tenths of
    /// the mean work halve the urgency.
    Urgency(u64),
}

// The most jobs of which urgency is compared, which takes the square of their number.
const MOST_URGENT: usize = 2_000;

/// The rules that are worth a try. Those that take the square of the number of jobs are left out
/// where that is large.
pub fn rules_for<A: Allocator + Copy, B: Allocator>(
    alloc: A,
    table: &TaskTable<B>,
) -> Result<Vec<Rule, A>, OutOfMemory> {
    let is_dispatched = matches!(table.decoder, Decoder::JobOperations);
    let mut rules = Vec::new(alloc);
    rules.push(Rule::LongestTail)?;
    rules.push(Rule::EarliestDue)?;
    rules.push(Rule::SmallestRatio)?;
    rules.push(Rule::LongestWork)?;
    if matches!(table.decoder, Decoder::Flow | Decoder::FlowWithoutWait) {
        for count in 1..table.machines {
            rules.push(Rule::Johnson(count))?;
        }
    }
    let is_late_weight = matches!(table.measure, Measure::LateWeight);
    if is_late_weight && !table.has_arcs && !is_dispatched {
        rules.push(Rule::FewLate)?;
    }
    let is_preempted = matches!(table.decoder, Decoder::Priorities);
    if is_preempted && matches!(table.measure, Measure::TotalTardiness) && !table.has_arcs {
        rules.push(Rule::ShortestRemaining)?;
    }
    let is_sum = !matches!(table.measure, Measure::MaximumLateness);
    if is_sum && table.jobs.len() <= MOST_URGENT && !is_dispatched {
        for look in [5_u64, 12, 19, 26, 33, 40] {
            rules.push(Rule::Urgency(look))?;
        }
    }
    Ok(rules)
}

/// The list of a rule.
pub fn list_by<A: Allocator + Copy, B: Allocator>(
    alloc: A,
    table: &TaskTable<B>,
    rule: Rule,
) -> Result<Vec<u32, A>, OutOfMemory> {
    if matches!(table.decoder, Decoder::JobOperations) {
        return dispatched(alloc, table, rule);
    }
    let jobs = match rule {
        Rule::FewLate => few_late(alloc, table)?,
        Rule::ShortestRemaining => shortest_remaining(alloc, table)?,
        Rule::Urgency(look) => urgent_first(alloc, table, look)?,
        _ => listed(alloc, table, &keys_of(alloc, table, rule)?)?,
    };
    match table.decoder {
        Decoder::OpenOperations => operations_of(alloc, table, &jobs),
        _ => Ok(jobs),
    }
}

// The operations of jobs in turns: each job begins on the machine after that of the job before it.
fn operations_of<A: Allocator, B: Allocator>(
    alloc: A,
    table: &TaskTable<B>,
    jobs: &[u32],
) -> Result<Vec<u32, A>, OutOfMemory> {
    let machines = table.machines;
    let mut items = Vec::with_capacity(alloc, table.items())?;
    for turn in 0..machines {
        for (place, job) in jobs.iter().enumerate() {
            let machine = place.wrapping_add(turn).checked_rem(machines).unwrap_or(0);
            let item = (*job as usize).wrapping_mul(machines).wrapping_add(machine);
            items.push(u32::try_from(item).unwrap_or(u32::MAX))?;
        }
    }
    Ok(items)
}
