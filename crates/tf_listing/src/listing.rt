//! The lists of the problems that are solved or bounded.
ghost use Rattle.std.specs.Prelude.{◌≡◌, ◌++◌, IfOk, OnOk, string_bytes, map};
ghost use Rattle.std.specs.Option.{option_map};
ghost use Rattle.tf_model.specs.ClassTable.{notation_of};
ghost use Rattle.tf_listing.specs.Listing.{classes, column, line_if, lines_of, listing};
ghost use Rattle.tf_listing.specs.Listing.{meaning_line, problem_line, problems_of};
ghost use Rattle.tf_listing.specs.Unsolved.{unsolved_problems};

use crate::fields::is_listed;
use crate::unsolved::{UNSOLVED, unsolved};
use crate::words::{breaks_of, environment_of, machines_of, meaning_of, needs_of};
use std::alloc::{AllocError, Allocator};
use tf_model::class::Class;
use tf_model::instance::Instance;
use tf_model::problem::Problem;
use tf_notation::writing::notation_text;

/// Which problems are listed.
#[derive(Clone, Copy, Debug, PartialEq, Eq)]
pub enum Listed {
    /// Those that are solved.
    Solved,
    /// Those that have lower bounds and no solver, for each environment and each objective the one
    /// with the fewest conditions.
    Bounded,
}

/// All classes in the order of the list, those of one machine first.
pub const CLASSES: [Class; 19] = [
    Class::PlainSum,
    Class::PrmpPlainSum,
    Class::WeightedSum,
    Class::PrmpWeightedSum,
    Class::Lmax,
    Class::PrmpLmax,
    Class::PrecLmax,
    Class::PrmpPrecLmax,
    Class::ReleaseLmax,
    Class::Hmax,
    Class::PrmpHmax,
    Class::PrecHmax,
    Class::PrmpPrecHmax,
    Class::ParallelSum,
    Class::ParallelPrmp,
    Class::FlowTwo,
    Class::PrmpFlowTwo,
    Class::OpenTwo,
    Class::PrmpOpenTwo,
];

/// What the columns of a list are.
const HEADING: &str = "PROBLEM          NEEDS        OBJECTIVE, MACHINES\n";

/// A line for each problem that is listed: its notation, the fields that it needs, and what it
/// means. With an instance those alone that it has the fields for.
///
/// # Errors
///
/// There was no memory.
pub fn listing<A: Allocator + Copy, B: Allocator>(
    alloc: A,
    listed: Listed,
    instance: Option<&Instance<B>>,
) -> Result<String<A>, AllocError>
    ensures { IfOk result (λ text. string_bytes text
        ≡ listing listed (option_map (λ i. i.now) instance.entry)) }
{
    let mut text = String::from_str(alloc, HEADING)?;
    push_lines(alloc, &mut text, listed, instance)?;
    Ok(text)
}

// The lines behind the heading.
fn push_lines<A: Allocator + Copy, B: Allocator>(
    alloc: A,
    text: &mut String<A>,
    listed: Listed,
    instance: Option<&Instance<B>>,
) -> Result<(), AllocError>
    ensures { OnOk result (string_bytes text.new ≡ string_bytes text.old
        ++ lines_of listed (option_map (λ i. i.now) instance.entry) (problems_of listed)) }
{
    match listed {
        Listed::Solved => push_solved(alloc, text, instance),
        Listed::Bounded => push_bounded(alloc, text, instance),
    }
}

// A line for each problem that is solved.
fn push_solved<A: Allocator + Copy, B: Allocator>(
    alloc: A,
    text: &mut String<A>,
    instance: Option<&Instance<B>>,
) -> Result<(), AllocError>
    ensures { OnOk result (string_bytes text.new ≡ string_bytes text.old
        ++ lines_of Listed.Solved (option_map (λ i. i.now) instance.entry)
        (map notation_of classes)) }
{
    for class in CLASSES {
        let problem = class.notation();
        push_listed(alloc, text, Listed::Solved, &problem, instance)?;
    }
    Ok(())
}

// A line for each problem that has bounds and no solver.
fn push_bounded<A: Allocator + Copy, B: Allocator>(
    alloc: A,
    text: &mut String<A>,
    instance: Option<&Instance<B>>,
) -> Result<(), AllocError>
    ensures { OnOk result (string_bytes text.new ≡ string_bytes text.old
        ++ lines_of Listed.Bounded (option_map (λ i. i.now) instance.entry) unsolved_problems) }
{
    for pair in UNSOLVED {
        let problem = unsolved(pair.0, pair.1);
        push_listed(alloc, text, Listed::Bounded, &problem, instance)?;
    }
    Ok(())
}

// The line of a problem, where it is listed.
fn push_listed<A: Allocator + Copy, B: Allocator>(
    alloc: A,
    text: &mut String<A>,
    listed: Listed,
    problem: &Problem,
    instance: Option<&Instance<B>>,
) -> Result<(), AllocError>
    ensures { OnOk result (string_bytes text.new ≡ string_bytes text.old
        ++ line_if listed (option_map (λ i. i.now) instance.entry) problem.now) }
{
    if !is_listed(listed, problem, instance) {
        return Ok(());
    }
    push_problem(alloc, text, problem)
}

/// A line for one problem.
///
/// # Errors
///
/// There was no memory.
pub fn push_problem<A: Allocator + Copy>(
    alloc: A,
    text: &mut String<A>,
    problem: &Problem,
) -> Result<(), AllocError>
    ensures { OnOk result
        (string_bytes text.new ≡ string_bytes text.old ++ problem_line problem.now) }
{
    let Ok(notation) = notation_text(alloc, problem) else {
        return Err(AllocError);
    };
    let needs = needs_of(alloc, problem)?;
    push_column(text, notation.as_str(), 17)?;
    push_column(text, needs.as_str(), 13)?;
    push_meaning(text, problem)
}

// What the problem means: its objective, its machines, and whether jobs are preempted.
fn push_meaning<A: Allocator>(text: &mut String<A>, problem: &Problem) -> Result<(), AllocError>
    ensures { OnOk result
        (string_bytes text.new ≡ string_bytes text.old ++ meaning_line problem.now) }
{
    let meaning = meaning_of(problem.goal);
    let environment = environment_of(problem.env);
    let machines = machines_of(problem.count);
    let breaks = breaks_of(problem);
    writeln!(text, "{meaning}, {environment}{machines}{breaks}")
}

/// Adds a word and blanks up to the width of its column.
///
/// # Errors
///
/// There was no memory.
pub fn push_column<A: Allocator>(
    text: &mut String<A>,
    word: &str,
    width: usize,
) -> Result<(), AllocError>
    ensures { OnOk result
        (string_bytes text.new ≡ string_bytes text.old ++ column width word.now) }
{
    text.push_str(word)?;
    for _ in 0..width.saturating_sub(word.len()) {
        text.push(' ')?;
    }
    Ok(())
}
