//! The table of the border between polynomial and NP-hard problems.
use crate::border::{EASY, HARD};
use std::alloc::{AllocError, Global};
use tf_bound::task::is_taken;
use tf_listing::listing::{CLASSES, push_column};
use tf_model::class::Class;
use tf_model::problem::{Env, Problem};
use tf_notation::reading::read;
use tf_notation::writing::notation_text;

const HEADING: &str = "PROBLEM             COMPLEXITY  HERE   BY WHOM\n";

// What a line says of a problem: its complexity, the command that serves it, and who has shown it.
#[derive(Drop)]
struct Entry {
    complexity: &'static str,
    command: &'static str,
    known: &'static str,
}

// The environments of the rows.
static ENVIRONMENTS: [Env; 5] = [
    Env::Single,
    Env::Parallel,
    Env::Flow,
    Env::OpenShop,
    Env::JobShop,
];

/// A line for each problem whose complexity is listed: its notation, whether it is polynomial or
/// NP-hard, the command that serves it, and who has shown what is known of it.
///
/// # Errors
///
/// There was no memory.
pub fn border_list(alloc: Global) -> Result<String, AllocError> {
    let mut text = String::from_str(alloc, HEADING)?;
    for env in ENVIRONMENTS {
        push_solved(alloc, &mut text, env)?;
        for row in &EASY {
            push_known(alloc, &mut text, env, "polynomial", row)?;
        }
        for row in &HARD {
            push_known(alloc, &mut text, env, "NP-hard", row)?;
        }
    }
    Ok(text)
}

// The lines of the problems that are solved.
fn push_solved(alloc: Global, text: &mut String, env: Env) -> Result<(), AllocError> {
    for class in CLASSES {
        let problem = class.notation();
        if problem.env == env {
            let entry = Entry {
                complexity: "polynomial",
                command: "solve",
                known: method_of(class),
            };
            push_row(alloc, text, &problem, &entry)?;
        }
    }
    Ok(())
}

// The line of a problem, where it is one of these machines.
fn push_known(
    alloc: Global,
    text: &mut String,
    env: Env,
    complexity: &'static str,
    row: &(&'static str, &'static str),
) -> Result<(), AllocError> {
    match read(row.0.as_bytes()) {
        Ok(problem) if problem.env == env => {
            let entry = Entry {
                complexity,
                command: command_for(&problem),
                known: row.1,
            };
            push_row(alloc, text, &problem, &entry)
        }
        _ => Ok(()),
    }
}

fn push_row(
    alloc: Global,
    text: &mut String,
    problem: &Problem,
    entry: &Entry,
) -> Result<(), AllocError> {
    let Ok(notation) = notation_text(alloc, problem) else {
        return Err(AllocError);
    };
    push_column(text, notation.as_str(), 20)?;
    push_column(text, entry.complexity, 12)?;
    push_column(text, entry.command, 7)?;
    text.push_str(entry.known)?;
    text.push('\n')
}

// The command that has schedules for a problem without a solver.
fn command_for(problem: &Problem) -> &'static str {
    if is_taken(problem) { "plan" } else { "-" }
}

// The method of a class, and by whom it is.
fn method_of(class: Class) -> &'static str {
    match class {
        Class::PlainSum | Class::PrmpPlainSum => "shortest time first, Smith 1956",
        Class::WeightedSum | Class::PrmpWeightedSum => {
            "largest ratio of weight to time first, Smith 1956"
        }
        Class::Lmax | Class::PrmpLmax => "earliest due date first, Jackson 1955",
        Class::PrecLmax
        | Class::PrmpPrecLmax
        | Class::Hmax
        | Class::PrmpHmax
        | Class::PrecHmax
        | Class::PrmpPrecHmax => "the cheapest candidate last, Lawler 1973",
        Class::ReleaseLmax => "earliest due date first of the released jobs, Horn 1974",
        Class::ParallelSum => "shortest time first, Conway, Maxwell and Miller 1967",
        Class::ParallelPrmp => "wrap-around rule, McNaughton 1959",
        Class::FlowTwo => "Johnson 1954",
        Class::PrmpFlowTwo => "Gonzalez and Sahni 1978",
        Class::OpenTwo | Class::PrmpOpenTwo => "Gonzalez and Sahni 1976",
    }
}
