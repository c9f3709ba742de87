//! The lines of jobs and arcs.
ghost use Rattle.std.specs.Prelude.{◌≡◌, ◌++◌, ◌<◌, ◌≤◌, OnOk};
ghost use Rattle.tf_random.specs.Table.{arc, arc_line, cost, cost_if, due, fields, job_line};
ghost use Rattle.tf_random.specs.Table.{release, rise};

use crate::plan::Plan;
use crate::times::push_times;
use crate::writing::{push_part, push_part_if};
use std::alloc::Global;
use tf_model::memory::OutOfMemory;

/// Adds the line of job k, k from 1.
#[tactic(auto, unfolding(crate::specs::Table::job_line))]
pub fn push_job(alloc: Global, text: &mut Vec<u8>, plan: &Plan, k: u32) -> Result<(), OutOfMemory>
    requires { 0 < k }
    ensures { OnOk result (text.new.items ≡ text.old.items ++ job_line plan.now k) }
{
    push_times(alloc, text, plan, k)?;
    push_fields(text, plan, k)?;
    push_cost_if(text, plan, k)?;
    text.extend_from_slice(b"\n")?;
    Ok(())
}

// The fields that are numbers.
fn push_fields(text: &mut Vec<u8>, plan: &Plan, k: u32) -> Result<(), OutOfMemory>
    requires { 0 < k }
    ensures { OnOk result (text.new.items ≡ text.old.items ++ fields plan.now k) }
{
    push_part_if(text, plan.weight, b" w=", plan.value(k, 3, 10) + 1)?;
    push_part_if(text, plan.due, b" d=", due(plan, k))?;
    push_part_if(text, plan.release, b" r=", release(plan, k))
}

// The due date of job k: from a fifth of the work to the whole.
fn due(plan: &Plan, k: u32) -> u64
    requires { 0 < k }
    ensures { result ≡ due plan.now k }
{
    let least = plan.work / 5;
    least + plan.value(k, 4, plan.work - least + 1)
}

// The release date of job k: from 0 to half of the work.
fn release(plan: &Plan, k: u32) -> u64
    requires { 0 < k }
    ensures { result ≡ release plan.now k }
{
    plan.value(k, 5, plan.work / 2 + 1)
}

// When the cost of job k rises: from 0 to half of the work.
fn rise(plan: &Plan, k: u32) -> u64
    requires { 0 < k }
    ensures { result ≡ rise plan.now k }
{
    plan.value(k, 7, plan.work / 2 + 1)
}

fn push_cost_if(text: &mut Vec<u8>, plan: &Plan, k: u32) -> Result<(), OutOfMemory>
    requires { 0 < k }
    ensures { OnOk result (text.new.items ≡ text.old.items ++ cost_if plan.now k) }
{
    if plan.cost {
        return push_cost(text, plan, k);
    }
    Ok(())
}

// A base below 10, and from a time up to the work on up to 100 more.
fn push_cost(text: &mut Vec<u8>, plan: &Plan, k: u32) -> Result<(), OutOfMemory>
    requires { 0 < k }
    ensures { OnOk result (text.new.items ≡ text.old.items ++ cost plan.now k) }
{
    let base = plan.value(k, 6, 10);
    push_part(text, b" h=", base)?;
    push_part(text, b",", rise(plan, k))?;
    push_part(text, b":", base + 1 + plan.value(k, 8, 100))
}

/// Adds the arc to job k from an earlier job, if there is one.
#[tactic(auto, unfolding(crate::specs::Table::arc_line))]
pub fn push_arc_if(text: &mut Vec<u8>, plan: &Plan, k: u32) -> Result<(), OutOfMemory>
    requires { 0 < k }
    ensures { OnOk result (text.new.items ≡ text.old.items ++ arc_line plan.now k) }
{
    if 2 <= k && plan.value(k, 9, 2) == 0 {
        return push_arc(text, plan, k);
    }
    Ok(())
}

fn push_arc(text: &mut Vec<u8>, plan: &Plan, k: u32) -> Result<(), OutOfMemory>
    requires { 2 ≤ k }
    ensures { OnOk result (text.new.items ≡ text.old.items ++ arc plan.now k) }
{
    push_part(text, b"prec ", plan.value(k, 10, u64::from(k - 1)) + 1)?;
    push_part(text, b" ", u64::from(k))?;
    text.extend_from_slice(b"\n")?;
    Ok(())
}
