//! What lists cost that are decoded from their first item on.
use crate::search::Search;
use crate::states::States;
use std::alloc::Allocator;
use tf_decode::measure::Measure;
use tf_decode::slots::{item_at, number_at, set_number};
use tf_decode::table::TaskTable;

impl<A: Allocator> Search<A> {
    /// What a list of operations of an open shop costs, if that is at most a limit.
    pub(crate) fn cost_of_operations<B: Allocator>(
        &mut self,
        table: &TaskTable<B>,
        limit: i128,
    ) -> Option<i128> {
        self.tried.free.fill(0);
        self.tried.ends.fill(0);
        let mut cost = table.measure.nothing();
        for place in 0..self.list.len() {
            self.steps = self.steps.wrapping_add(1);
            cost = self
                .tried
                .append_operation(table, item_at(&self.list, place), cost);
            if cost > limit {
                return None;
            }
        }
        Some(cost)
    }

    /// What a list of jobs costs that go into gaps, if that is at most a limit.
    pub(crate) fn cost_in_gaps<B: Allocator>(
        &mut self,
        table: &TaskTable<B>,
        limit: i128,
    ) -> Option<i128> {
        self.gaps.clear();
        let before = self.gaps.steps;
        let mut cost = table.measure.nothing();
        for place in 0..self.list.len() {
            let job = item_at(&self.list, place);
            let ready = table.ready(job, &self.tried.ends);
            let end = self.gaps.insert(table, job, ready);
            set_number(&mut self.tried.ends, job, end);
            let price = table.measure.price(table.job(job), end);
            cost = table.measure.joined(cost, price);
            if cost > limit {
                break;
            }
        }
        let looked = self.gaps.steps.wrapping_sub(before);
        self.steps = self.steps.wrapping_add(looked);
        if cost > limit { None } else { Some(cost) }
    }

    /// What a list of priorities costs, if that is at most a limit. Where memory runs out the cost
    /// is not known.
    pub(crate) fn cost_of_runs<B: Allocator>(
        &mut self,
        table: &TaskTable<B>,
        limit: i128,
    ) -> Option<i128> {
        let most = self.list.len().saturating_mul(2).saturating_add(1);
        self.steps = self.steps.wrapping_add(most as u64);
        self.preemption.restart(table);
        let mut cost = table.measure.nothing();
        for _ in 0..most {
            let Ok(next) = self.preemption.run(table, &self.list, &self.places) else {
                return None;
            };
            let Some(run) = next else {
                return Some(cost);
            };
            if run.is_last {
                cost = table
                    .measure
                    .joined(cost, table.measure.price(table.job(run.job), run.stop));
            }
            if cost > limit {
                return None;
            }
        }
        Some(cost)
    }
}

impl<A: Allocator> States<A> {
    // Appends an operation, and returns what all jobs cost then.
    #[inline(always)]
    fn append_operation<B: Allocator>(
        &mut self,
        table: &TaskTable<B>,
        item: usize,
        cost: i128,
    ) -> i128 {
        let time = number_at(&table.times, item);
        if time == 0 {
            return cost;
        }
        let place = table.job_of(item);
        let machine = item.wrapping_sub(place.wrapping_mul(table.machines));
        let job = table.job(place);
        let last = number_at(&self.ends, place);
        let ready = last.max(job.release);
        let end = number_at(&self.free, machine).max(ready).wrapping_add(time);
        set_number(&mut self.free, machine, end);
        set_number(&mut self.ends, place, end);
        let price = table.measure.price(job, end);
        match table.measure {
            Measure::MaximumLateness => cost.max(price),
            _ if last == 0 => cost.wrapping_add(price),
            _ => {
                let earlier = table.measure.price(job, last);
                cost.wrapping_add(price.wrapping_sub(earlier))
            }
        }
    }
}
