//! Options as rows of a table, for clap.
ghost use Rattle.std.specs.Prelude.{◌≡◌, IfOk};
ghost use Rattle.tf_grammar.specs.Commands.{name_of};

use clap::{Arg, ArgAction, Command};
use std::alloc::{AllocError, Global};

/// What stands behind an option.
#[derive(Clone, Copy)]
enum Takes {
    /// Nothing.
    Nothing,
    /// A value of this name.
    Text(&'static str),
    /// A value of this name, which may begin with a minus sign and a digit.
    Number(&'static str),
    /// A value of this name, which may begin with a minus sign.
    Hyphened(&'static str),
    /// Perhaps `=` and a value of the first name; where there is none, the second is its value.
    Perhaps(&'static str, &'static str),
    /// The value stands alone, by its place.
    Place,
}

/// An option, or an argument that is known by its place.
#[derive(Clone, Copy)]
pub(crate) struct Row {
    id: &'static str,
    short: Option<char>,
    takes: Takes,
    help: &'static str,
    default: Option<&'static str>,
    choices: Option<&'static [&'static str]>,
    needs: Option<&'static str>,
    rivals: &'static [&'static str],
    is_required: bool,
    substitutes: &'static [&'static str],
}

fn bare(id: &'static str, takes: Takes, help: &'static str) -> Row {
    Row {
        id,
        short: None,
        takes,
        help,
        default: None,
        choices: None,
        needs: None,
        rivals: &[],
        is_required: false,
        substitutes: &[],
    }
}

/// An option that is given or not.
pub(crate) fn flag(id: &'static str, help: &'static str) -> Row {
    bare(id, Takes::Nothing, help)
}

/// An option with a value.
pub(crate) fn text(id: &'static str, value: &'static str, help: &'static str) -> Row {
    bare(id, Takes::Text(value), help)
}

/// An option with a number, which may be negative.
pub(crate) fn number(id: &'static str, value: &'static str, help: &'static str) -> Row {
    bare(id, Takes::Number(value), help)
}

/// An option with numbers that commas part, which may be negative.
pub(crate) fn numbers(id: &'static str, value: &'static str, help: &'static str) -> Row {
    bare(id, Takes::Hyphened(value), help)
}

/// An option that may have `=` and a value, and has this one where it has none.
pub(crate) fn perhaps(
    id: &'static str,
    value: &'static str,
    missing: &'static str,
    help: &'static str,
) -> Row {
    bare(id, Takes::Perhaps(value, missing), help)
}

/// An argument that is known by its place.
pub(crate) fn place(id: &'static str, help: &'static str) -> Row {
    bare(id, Takes::Place, help)
}

impl Row {
    /// With a letter for it.
    pub(crate) fn short(self, letter: char) -> Row {
        Row {
            short: Some(letter),
            ..self
        }
    }

    /// With a value that it has where none is given.
    pub(crate) fn or(self, default: &'static str) -> Row {
        Row {
            default: Some(default),
            ..self
        }
    }

    /// With the only values that it may have, which the help names elsewhere.
    pub(crate) fn one_of(self, choices: &'static [&'static str]) -> Row {
        Row {
            choices: Some(choices),
            ..self
        }
    }

    /// Only beside another one.
    pub(crate) fn with(self, other: &'static str) -> Row {
        Row {
            needs: Some(other),
            ..self
        }
    }

    /// Never beside these.
    pub(crate) fn without(self, rivals: &'static [&'static str]) -> Row {
        Row { rivals, ..self }
    }

    /// Always given.
    pub(crate) fn required(self) -> Row {
        Row {
            is_required: true,
            ..self
        }
    }

    /// Given where none of these is.
    pub(crate) fn required_without(self, substitutes: &'static [&'static str]) -> Row {
        Row {
            substitutes,
            ..self
        }
    }
}

// The argument with what stands behind the option.
fn taking<'a>(arg: Arg<'a>, row: &Row) -> Arg<'a> {
    match row.takes {
        Takes::Place => arg,
        Takes::Nothing => arg.long(row.id).action(ArgAction::SetTrue),
        Takes::Text(name) => arg.long(row.id).value_name(name),
        Takes::Number(name) => arg
            .long(row.id)
            .value_name(name)
            .allow_negative_numbers(true),
        Takes::Hyphened(name) => arg.long(row.id).value_name(name).allow_hyphen_values(true),
        Takes::Perhaps(name, missing) => arg
            .long(row.id)
            .value_name(name)
            .num_args(0..=1)
            .require_equals(true)
            .default_missing_value(missing),
    }
}

// The argument with its letter and the values that it may have.
fn with_values<'a>(mut arg: Arg<'a>, row: &Row) -> Arg<'a> {
    if let Some(letter) = row.short {
        arg = arg.short(letter);
    }
    if let Some(choices) = row.choices {
        arg = arg.value_parser(choices).hide_possible_values(true);
    }
    if let Some(default) = row.default {
        arg = arg.default_value(default);
    }
    arg
}

// The argument that a row is.
fn arg_of<'a>(alloc: Global, row: &Row) -> Result<Arg<'a>, AllocError> {
    let arg = Arg::new(alloc, row.id)
        .help(row.help)
        .required(row.is_required);
    let mut arg = with_values(taking(arg, row), row);
    if let Some(other) = row.needs {
        arg = arg.requires_arg(other)?;
    }
    for rival in row.rivals {
        arg = arg.conflicts_with(*rival)?;
    }
    for other in row.substitutes {
        arg = arg.required_unless_present(*other)?;
    }
    Ok(arg)
}

/// The command with the arguments of some rows, in their order.
pub(crate) fn with_rows<'a>(
    alloc: Global,
    mut command: Command<'a>,
    rows: &[Row],
) -> Result<Command<'a>, AllocError>
    ensures { IfOk result (λ c. name_of c ≡ name_of command.entry) }
{
    for row in rows {
        command = command.arg(arg_of(alloc, row)?)?;
    }
    Ok(command)
}

/// The same of several groups of rows.
pub(crate) fn with_groups<'a>(
    alloc: Global,
    mut command: Command<'a>,
    groups: &[&[Row]],
) -> Result<Command<'a>, AllocError>
    ensures { IfOk result (λ c. name_of c ≡ name_of command.entry) }
{
    for rows in groups {
        command = with_rows(alloc, command, rows)?;
    }
    Ok(command)
}
