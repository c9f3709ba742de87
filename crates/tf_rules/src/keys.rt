//! Keys of jobs, of which the least goes first.
use crate::rule::Rule;
use std::alloc::Allocator;
use tf_decode::slots::item_at;
use tf_decode::table::TaskTable;
use tf_model::memory::OutOfMemory;

// More than any sum of times.
const FAR: i128 = 1 << 100;

// What ratios are written over.
const SCALE: i128 = 1_000_000;

/// The keys of all jobs by a rule that has keys.
pub(crate) fn keys_of<A: Allocator + Copy, B: Allocator>(
    alloc: A,
    table: &TaskTable<B>,
    rule: Rule,
) -> Result<Vec<i128, A>, OutOfMemory> {
    let tails = tails_of(alloc, table)?;
    let mut keys = Vec::with_capacity(alloc, table.jobs.len())?;
    for (job, numbers) in table.jobs.iter().enumerate() {
        let work = i128::from(numbers.work);
        let tail = tails.get(job).copied().unwrap_or(0);
        keys.push(match rule {
            Rule::LongestTail => 0_i128.wrapping_sub(tail),
            Rule::EarliestDue => work.wrapping_sub(tail),
            Rule::SmallestRatio => { work.wrapping_mul(SCALE) / i128::from(numbers.weight).max(1) }
            Rule::Johnson(count) => johnson_key(table.times_of(job), count),
            _ => 0_i128.wrapping_sub(work),
        })?;
    }
    Ok(keys)
}

// The longest chain of work from each job on, less the due date at its end.
fn tails_of<A: Allocator, B: Allocator>(
    alloc: A,
    table: &TaskTable<B>,
) -> Result<Vec<i128, A>, OutOfMemory> {
    let mut tails = vec![in alloc; 0_i128; table.jobs.len()]?;
    for place in 0..table.order.len() {
        let last = table.order.len() - 1 - place;
        let job = item_at(&table.order, last);
        let mut tail = 0_i128.wrapping_sub(i128::from(table.job(job).due));
        for other in table.after.of(job) {
            tail = tail.max(tails.get(*other as usize).copied().unwrap_or(0));
        }
        if let Some(entry) = tails.get_mut(job) {
            *entry = tail.wrapping_add(i128::from(table.job(job).work));
        }
    }
    Ok(tails)
}

// Johnson's rule for the first and the last so many machines as the two of a flow shop.
fn johnson_key(times: &[u64], count: usize) -> i128 {
    let first = sum_of(times.get(..count).unwrap_or(&[]));
    let last = sum_of(
        times
            .get(times.len().saturating_sub(count)..)
            .unwrap_or(&[]),
    );
    if first < last {
        first.wrapping_sub(FAR)
    } else {
        FAR.wrapping_sub(last)
    }
}

fn sum_of(times: &[u64]) -> i128 {
    let mut sum: i128 = 0;
    for time in times {
        sum = sum.wrapping_add(i128::from(*time));
    }
    sum
}
