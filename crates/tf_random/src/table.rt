//! A random job table, or flow shop file.
ghost use Rattle.std.specs.Prelude.{◌≡◌, ◌++◌, IfOk, OnOk};
ghost use Rattle.std.specs.List.{flat_map, range_with_len};
ghost use Rattle.tf_random.specs.Table.{arc_line, arc_lines, file_opening, heading, job_line};
ghost use Rattle.tf_random.specs.Table.{machines_line, opening, random_table, table_opening};

use crate::line::{push_arc_if, push_job};
use crate::plan::{Plan, Times};
use crate::writing::{push_part, push_part_if};
use std::alloc::Global;
use tf_model::memory::OutOfMemory;
use tf_model::problem::Problem;
use tf_notation::writing::notation_text;

/// The random table or flow shop file of a plan that was made for this problem. Its first line is a
/// comment that names the problem and the seed.
#[tactic(auto, unfolding(crate::specs::Table::random_table))]
pub fn random_table(alloc: Global, problem: &Problem, plan: &Plan) -> Result<Vec<u8>, OutOfMemory>
    ensures { IfOk result (λ text. text.items ≡ random_table problem.now plan.now) }
{
    let notation = notation_text(alloc, problem)?;
    let mut text = Vec::new(alloc);
    push_heading(&mut text, notation.as_bytes(), plan)?;
    push_jobs(alloc, &mut text, plan)?;
    push_arcs(&mut text, plan)?;
    Ok(text)
}

fn push_heading(text: &mut Vec<u8>, notation: &[u8], plan: &Plan) -> Result<(), OutOfMemory>
    ensures { OnOk result (text.new.items ≡ text.old.items ++ heading notation.now plan.now) }
{
    text.extend_from_slice(b"# ")?;
    text.extend_from_slice(notation)?;
    push_part(text, b", seed ", u64::from(plan.seed))?;
    push_part_if(
        text,
        plan.most != 100,
        b", times up to ",
        u64::from(plan.most),
    )?;
    push_opening(text, plan)
}

// The first lines behind the comment.
fn push_opening(text: &mut Vec<u8>, plan: &Plan) -> Result<(), OutOfMemory>
    ensures { OnOk result (text.new.items ≡ text.old.items ++ opening plan.now) }
{
    match plan.times {
        Times::One | Times::Two | Times::Route => push_table_opening(text, plan),
        Times::Each => push_file_opening(text, plan),
    }
}

fn push_table_opening(text: &mut Vec<u8>, plan: &Plan) -> Result<(), OutOfMemory>
    ensures { OnOk result (text.new.items ≡ text.old.items ++ table_opening plan.now) }
{
    text.extend_from_slice(b"\ntable 1\n")?;
    push_machines(text, plan.machines)
}

// The name of the instance, and its sizes.
fn push_file_opening(text: &mut Vec<u8>, plan: &Plan) -> Result<(), OutOfMemory>
    ensures { OnOk result (text.new.items ≡ text.old.items ++ file_opening plan.now) }
{
    push_part(text, b"\ninstance seed", u64::from(plan.seed))?;
    push_part(text, b"\n", u64::from(plan.jobs))?;
    push_part(text, b" ", u64::from(plan.machines))?;
    text.extend_from_slice(b"\n")?;
    Ok(())
}

fn push_machines(text: &mut Vec<u8>, machines: u32) -> Result<(), OutOfMemory>
    ensures { OnOk result (text.new.items ≡ text.old.items ++ machines_line machines) }
{
    if machines == 0 {
        return Ok(());
    }
    push_part(text, b"machines ", u64::from(machines))?;
    text.extend_from_slice(b"\n")?;
    Ok(())
}

#[tactic(auto, using(crate::proofs::Parts::each_more))]
fn push_jobs(alloc: Global, text: &mut Vec<u8>, plan: &Plan) -> Result<(), OutOfMemory>
    ensures { OnOk result (text.new.items ≡ text.old.items
        ++ flat_map (job_line plan.now) (range_with_len 1 plan.now.jobs)) }
{
    for place in 0..plan.jobs {
        push_job(alloc, text, plan, place + 1)?;
    }
    Ok(())
}

fn push_arcs(text: &mut Vec<u8>, plan: &Plan) -> Result<(), OutOfMemory>
    ensures { OnOk result (text.new.items ≡ text.old.items ++ arc_lines plan.now) }
{
    if plan.arcs {
        return push_each_arc(text, plan);
    }
    Ok(())
}

#[tactic(auto, using(crate::proofs::Parts::each_more))]
fn push_each_arc(text: &mut Vec<u8>, plan: &Plan) -> Result<(), OutOfMemory>
    ensures { OnOk result (text.new.items ≡ text.old.items
        ++ flat_map (arc_line plan.now) (range_with_len 1 plan.now.jobs)) }
{
    for place in 0..plan.jobs {
        push_arc_if(text, plan, place + 1)?;
    }
    Ok(())
}
