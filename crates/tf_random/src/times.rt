//! The processing times of a job.
ghost use Rattle.std.specs.Prelude.{◌≡◌, ◌++◌, ◌<◌, length, IfOk, OnOk};
ghost use Rattle.std.specs.List.{flat_map, range_with_len};
ghost use Rattle.tf_random.specs.Table.{before, one_step, one_time, pair, route, route_part};
ghost use Rattle.tf_random.specs.Table.{steps, times, two_times};

use crate::plan::{Plan, Times};
use crate::writing::push_part;
use std::alloc::Global;
use tf_model::memory::OutOfMemory;

/// Adds the processing times of job k, k from 1, in a table behind its number.
pub fn push_times(alloc: Global, text: &mut Vec<u8>, plan: &Plan, k: u32) -> Result<(), OutOfMemory>
    requires { 0 < k }
    ensures { OnOk result (text.new.items ≡ text.old.items ++ times plan.now k) }
{
    match plan.times {
        Times::One => push_one(text, plan, k),
        Times::Two => push_two(text, plan, k),
        Times::Route => push_route(alloc, text, plan, k),
        Times::Each => push_pairs(text, plan, k),
    }
}

fn push_one(text: &mut Vec<u8>, plan: &Plan, k: u32) -> Result<(), OutOfMemory>
    requires { 0 < k }
    ensures { OnOk result (text.new.items ≡ text.old.items ++ one_time plan.now k) }
{
    push_part(text, b"job ", u64::from(k))?;
    push_part(text, b" p=", plan.step_time(k, 1))
}

fn push_two(text: &mut Vec<u8>, plan: &Plan, k: u32) -> Result<(), OutOfMemory>
    requires { 0 < k }
    ensures { OnOk result (text.new.items ≡ text.old.items ++ two_times plan.now k) }
{
    push_one(text, plan, k)?;
    push_part(text, b",", plan.step_time(k, 2))
}

// A job's number and its route.
fn push_route(alloc: Global, text: &mut Vec<u8>, plan: &Plan, k: u32) -> Result<(), OutOfMemory>
    requires { 0 < k }
    ensures { OnOk result (text.new.items ≡ text.old.items ++ route_part plan.now k) }
{
    let machines = route(alloc, plan, k)?;
    push_part(text, b"job ", u64::from(k))?;
    push_steps(text, plan, k, &machines)
}

// The machines in the order in which job k visits them: all of them, in an order that is drawn.
fn route(alloc: Global, plan: &Plan, k: u32) -> Result<Vec<u32>, OutOfMemory>
    requires { 0 < k }
    ensures drawn { IfOk result (λ machines. machines.items ≡ route plan.now k) }
    ensures len { IfOk result (λ machines. length machines.items ≡ plan.now.machines) }
{
    let mut machines = machines_to(alloc, plan.machines)?;
    for place in 0..plan.machines {
        let ahead = plan.swapped(k, place + 1, plan.machines - place);
        machines.swap(place as usize, place as usize + ahead as usize);
    }
    Ok(machines)
}

// The machines from 1 to `last`.
#[tactic(auto, using(crate::proofs::Parts::range_more))]
fn machines_to(alloc: Global, last: u32) -> Result<Vec<u32>, OutOfMemory>
    ensures machines { IfOk result (λ machines. machines.items ≡ range_with_len 1 last) }
    ensures len { IfOk result (λ machines. length machines.items ≡ last) }
{
    let mut machines = Vec::new(alloc);
    for place in 0..last {
        machines.push(place + 1)?;
    }
    Ok(machines)
}

// The steps of a route, each its time and its machine.
fn push_steps(text: &mut Vec<u8>, plan: &Plan, k: u32, machines: &[u32]) -> Result<(), OutOfMemory>
    requires job { 0 < k }
    requires few { length machines.now ≡ plan.now.machines }
    ensures { OnOk result (text.new.items ≡ text.old.items ++ steps plan.now k 1 machines.now) }
{
    let mut rest = machines;
    let mut step: u32 = 0;
    while let Some((machine, more)) = rest.split_first() {
        step += 1;
        push_step(text, plan, k, step, *machine)?;
        rest = more;
    }
    Ok(())
}

fn push_step(
    text: &mut Vec<u8>,
    plan: &Plan,
    k: u32,
    step: u32,
    machine: u32,
) -> Result<(), OutOfMemory>
    requires { 0 < k }
    ensures { OnOk result (text.new.items
        ≡ text.old.items ++ one_step plan.now k step machine) }
{
    push_part(text, before(step), plan.step_time(k, step))?;
    push_part(text, b"@", u64::from(machine))
}

// What stands before a step.
fn before(step: u32) -> &'static [u8]
    ensures { result.now ≡ before step }
{
    if step == 1 { b" p=" } else { b"," }
}

// Each machine, counted from 0, and the time of job k on it.
#[tactic(auto, using(crate::proofs::Parts::each_more))]
fn push_pairs(text: &mut Vec<u8>, plan: &Plan, k: u32) -> Result<(), OutOfMemory>
    requires { 0 < k }
    ensures { OnOk result (text.new.items ≡ text.old.items
        ++ flat_map (pair plan.now k) (range_with_len 1 plan.now.machines)) }
{
    for place in 0..plan.machines {
        push_pair(text, plan, k, place + 1)?;
    }
    Ok(())
}

fn push_pair(text: &mut Vec<u8>, plan: &Plan, k: u32, machine: u32) -> Result<(), OutOfMemory>
    requires job { 0 < k }
    requires machine { 0 < machine }
    ensures { OnOk result (text.new.items ≡ text.old.items ++ pair plan.now k machine) }
{
    push_part(text, b" ", u64::from(machine - 1))?;
    push_part(text, b" ", plan.step_time(k, machine))
}
