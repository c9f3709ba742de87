//! The commands and options that there are, for clap.
ghost use Rattle.std.specs.Prelude.{◌≡◌, codes, map, slice_index_or, IfOk};
ghost use Rattle.clap.specs.Facts.{subcommands_of};
ghost use Rattle.tf_grammar.specs.Commands.{name_of, command_names};

use crate::help;
use crate::page::Page;
use crate::row::{Row, flag, number, numbers, perhaps, place, text, with_groups, with_rows};
use clap::Command;
use std::alloc::{AllocError, Global};

const ABOUT_ALL: &str = "\
First steps: threefield solve -p \"1||Lmax\" TABLE, and with --explain where it
             is refused. Put quotes round the problem: | is a pipe otherwise.
             threefield problems lists what is solved.

Exit status: 0 done, 1 rejected, 2 refused, 3 want of memory,
             4 a file or a device failed, 5 the command line is wrong,
             6 a schedule that is not proved optimal.";

const ABOUT_SOLVE: &str = "\
Example: threefield solve -p \"P2|prmp|Cmax\" examples/table.txt

Exit status: 0 answered, 2 refused, 3 want of memory,
             4 a file or a device failed, 5 the command line is wrong.";

const ABOUT_PLAN: &str = "\
Example: threefield plan -p \"1|prec|sumwT\" examples/workshop.txt

Exit status: 0 optimal, 2 refused, 3 want of memory,
             4 a file or a device failed, 5 the command line is wrong,
             6 planned, and not proved optimal.";

const ABOUT_BOUND: &str = "\
Example: threefield bound -p \"P2||Cmax\" examples/table.txt

Exit status: 0 bounded, 2 refused, 3 want of memory,
             4 a file or a device failed, 5 the command line is wrong.";

const ABOUT_TRACE: &str = "\
Example: threefield trace -p \"F2||Cmax\" -f flow --name demo --pair 0,2 shop.txt

Exit status: 0 traced, 2 refused, 3 want of memory,
             4 a file or a device failed, 5 the command line is wrong.";

const ABOUT_CHECK: &str = "\
Example: threefield check -p \"P2|prmp|Cmax\" examples/table.txt answer.txt

Exit status: 0 accepted, 1 rejected, 2 refused, 3 want of memory,
             4 a file or a device failed, 5 the command line is wrong.";

const ABOUT_EVALUATE: &str = "\
Example: threefield evaluate -p \"P2|prmp|Cmax\" examples/table.txt answer.txt
         threefield evaluate -p \"1||sumC\" --certificate table.txt answer.txt
         threefield evaluate -p \"1||sumC\" --order \"2 1 3\" table.txt
         threefield evaluate -p \"1||sumU\" --rule EDD table.txt
         threefield evaluate -p \"P2||Cmax\" --bound b.txt table.txt answer.txt
         threefield evaluate -p \"1||sumwT\" --steps 1000 table.txt answer.txt

Exit status: 0 best, 1 does not fit, 2 refused, 3 want of memory,
             4 a file or a device failed, 5 the command line is wrong,
             6 fits, and is not proved optimal.";

const ABOUT_GANTT: &str = "\
Example: threefield solve -p \"1||sumC\" table.txt | threefield gantt -c 40
         threefield gantt --svg --fold 50 answer.txt > answer.svg
         threefield gantt --svg --input table.txt answer.txt > answer.svg

Exit status: 0 drawn, 2 refused, 3 want of memory,
             4 a file or a device failed, 5 the command line is wrong.";

const ABOUT_RANDOM: &str = "\
Example: threefield random -p \"1|rj,prmp|Lmax\" --jobs 20 --seed 7 > table.txt
         threefield random -p \"J||Cmax\" -m 5 --jobs 10 > routes.txt

Exit status: 0 written, 2 refused, 3 want of memory,
             4 a file or a device failed, 5 the command line is wrong.";

const ABOUT_PROBLEMS: &str = "\
Example: threefield problems examples/all_fields.txt
         threefield problems --bounds
         threefield problems --border

--bounds lists one problem for each machine environment and objective.
Conditions may be added: rj, prec, prmp, prmu and nwt.

Exit status: 0 listed, 2 the table is refused, 3 want of memory,
             4 a file or a device failed, 5 the command line is wrong.";

static FORMATS: [&str; 4] = ["table", "wt", "flow", "jobshop"];

static VERSIONS: [&str; 2] = ["1", "2"];

// When an explanation is given: where standard error is a terminal, always or never.
static EXPLAINED: [&str; 3] = ["auto", "always", "never"];

static SIZES: [&str; 3] = ["a4", "a3", "16:9"];

// What `evaluate` takes in place of an answer.
static SCHEDULES: [&str; 4] = ["order", "rule", "orders", "schedule"];

static RULES: [&str; 5] = ["EDD", "SPT", "LPT", "WSPT", "ERD"];

static AGAINST_BOUND: [&str; 1] = ["certificate"];

static AGAINST_ORDER: [&str; 3] = ["rule", "orders", "ANSWER"];

static AGAINST_RULE: [&str; 3] = ["orders", "schedule", "ANSWER"];

static AGAINST_ORDERS: [&str; 2] = ["certificate", "ANSWER"];

static AGAINST_GRADE: [&str; 4] = ["order", "rule", "schedule", "ANSWER"];

static AGAINST_SCHEDULE: [&str; 3] = ["order", "orders", "ANSWER"];

static AGAINST_SIZE: [&str; 2] = ["width", "height"];

static AGAINST_BORDER: [&str; 2] = ["bounds", "FILE"];

static AGAINST_SUMMARY: [&str; 5] = ["csv", "order", "rule", "schedule", "ANSWER"];

static VERSION: [&str; 1] = ["answer"];

static COLUMNS: [&str; 1] = ["columns"];

static OTHER_FORMAT: [&str; 1] = ["json"];

/// The program's commands.
pub fn command<'a>(alloc: Global) -> Result<Command<'a>, AllocError>
    ensures { IfOk result (λ c. map name_of (subcommands_of c) ≡ command_names) }
{
    let mut command = Command::new(alloc, "threefield")
        .bin_name("threefield")?
        .about("Exact machine scheduling with certificates")
        .version("0.1.0")
        .after_help(ABOUT_ALL)
        .after_long_help(help::OF_ALL)
        .subcommand_required(true)
        .arg_required_else_help(true);
    for place in 0..COMMANDS {
        command = command.subcommand(command_at(alloc, place)?)?;
    }
    Ok(command)
}

// How many commands there are.
const COMMANDS: u32 = 9;

// The command at a place in the help.
fn command_at<'a>(alloc: Global, place: u32) -> Result<Command<'a>, AllocError>
    ensures { IfOk result (λ c. name_of c
        ≡ slice_index_or command_names place (codes "problems")) }
{
    match place {
        0 => solve_command(alloc),
        1 => plan_command(alloc),
        2 => bound_command(alloc),
        3 => trace_command(alloc),
        4 => check_command(alloc),
        5 => evaluate_command(alloc),
        6 => gantt_command(alloc),
        7 => random_command(alloc),
        _ => problems_command(alloc),
    }
}

fn solve_command<'a>(alloc: Global) -> Result<Command<'a>, AllocError>
    ensures { IfOk result (λ c. name_of c ≡ codes "solve") }
{
    let page = Page {
        name: "solve",
        about: "Prints an optimal schedule, and a certificate that proves it",
        after: ABOUT_SOLVE,
        long: Some(help::OF_SOLVE),
    };
    let rows = [
        text(
            "answer",
            "VERSION",
            "The version of the answer text, 1 or 2",
        )
        .one_of(VERSIONS.as_slice())
        .or("2"),
        flag("values", "With --index A-B or all: the minimum costs alone"),
        json().without(VERSION.as_slice()),
        csv(),
    ];
    with_options(alloc, page, &rows)
}

fn plan_command<'a>(alloc: Global) -> Result<Command<'a>, AllocError>
    ensures { IfOk result (λ c. name_of c ≡ codes "plan") }
{
    let page = Page {
        name: "plan",
        about: "Prints a schedule for an NP-hard problem, and how good it is",
        after: ABOUT_PLAN,
        long: Some(help::OF_PLAN),
    };
    with_options(alloc, page, &[steps(), json(), csv()])
}

fn bound_command<'a>(alloc: Global) -> Result<Command<'a>, AllocError>
    ensures { IfOk result (λ c. name_of c ≡ codes "bound") }
{
    let page = Page {
        name: "bound",
        about: "Prints a lower bound of an NP-hard problem, and its certificate",
        after: ABOUT_BOUND,
        long: Some(help::OF_BOUND),
    };
    with_options(alloc, page, &[steps(), json()])
}

fn trace_command<'a>(alloc: Global) -> Result<Command<'a>, AllocError>
    ensures { IfOk result (λ c. name_of c ≡ codes "trace") }
{
    let page = Page {
        name: "trace",
        about: "Shows how an optimal schedule is found, step by step",
        after: ABOUT_TRACE,
        long: Some(help::OF_TRACE),
    };
    let latex = flag("tex", "Writes it for LaTeX, with a tabular for each table");
    with_options(alloc, page, &[latex])
}

fn check_command<'a>(alloc: Global) -> Result<Command<'a>, AllocError>
    ensures { IfOk result (λ c. name_of c ≡ codes "check") }
{
    let page = Page {
        name: "check",
        about: "Judges an answer: accepted, or rejected and why",
        after: ABOUT_CHECK,
        long: Some(help::OF_CHECK),
    };
    with_options(alloc, page, &[json(), answer().required()])
}

fn evaluate_command<'a>(alloc: Global) -> Result<Command<'a>, AllocError>
    ensures { IfOk result (λ c. name_of c ≡ codes "evaluate") }
{
    let page = Page {
        name: "evaluate",
        about: "Reports how far an answer is from the optimum, job by job",
        after: ABOUT_EVALUATE,
        long: Some(help::OF_EVALUATE),
    };
    with_rows(alloc, with_options(alloc, page, &reported())?, &schedules())
}

// What is reported of an answer, and in which format.
fn reported() -> [Row; 7] {
    [
        flag(
            "certificate",
            "Writes the certificate's arithmetic, step by step",
        ),
        text(
            "bound",
            "FILE",
            "Uses the lower bound of FILE where it is stronger",
        )
        .without(AGAINST_BOUND.as_slice()),
        steps(),
        json(),
        csv(),
        flag(
            "tex",
            "Writes for LaTeX what --explain tells of a critical path or a rule",
        ),
        flag("measures", "Writes the value of every objective too"),
    ]
}

// The schedules that are evaluated.
fn schedules() -> [Row; 7] {
    [
        text(
            "order",
            "JOBS",
            "Evaluates an order of the jobs: \"3 1 2\", or \"1 3 / 2\"",
        )
        .without(AGAINST_ORDER.as_slice()),
        text("rule", "RULE", "Evaluates the order that a rule gives")
            .one_of(RULES.as_slice())
            .without(AGAINST_RULE.as_slice()),
        text(
            "orders",
            "FILE",
            "Prints cost and gap of the order in each line of FILE",
        )
        .without(AGAINST_ORDERS.as_slice()),
        flag(
            "grade",
            "With orders: prints what is wrong with a line, and goes on",
        )
        .with("orders")
        .without(AGAINST_GRADE.as_slice()),
        flag(
            "summary",
            "With orders: counts the optimal and the wrong at the end",
        )
        .with("orders")
        .without(AGAINST_SUMMARY.as_slice()),
        text(
            "schedule",
            "FILE",
            "Evaluates the pieces of FILE, which claim no value",
        )
        .without(AGAINST_SCHEDULE.as_slice()),
        answer().required_without(SCHEDULES.as_slice()),
    ]
}

fn gantt_command<'a>(alloc: Global) -> Result<Command<'a>, AllocError>
    ensures { IfOk result (λ c. name_of c ≡ codes "gantt") }
{
    let page = Page {
        name: "gantt",
        about: "Draws the schedule of an answer, a line for each machine",
        after: ABOUT_GANTT,
        long: None,
    };
    let groups: [&[Row]; 5] = [
        &drawn(),
        &view_options(),
        &dated(),
        &form_options(),
        &[explain(), output(), answer().or("-")],
    ];
    with_groups(alloc, page.command(alloc), &groups)
}

// How a schedule is drawn.
fn drawn() -> [Row; 2] {
    [
        number("columns", "N", "The most columns of the chart, 1 to 1000")
            .short('c')
            .or("72"),
        flag("svg", "Draws a picture, as SVG, in place of the chart").without(COLUMNS.as_slice()),
    ]
}

// The instance whose dates a picture shows.
fn dated() -> [Row; 2] {
    [
        text(
            "input",
            "INPUT",
            "The instance, whose dates are marked, with --svg",
        )
        .with("svg"),
        format().with("input"),
    ]
}

// What a picture shows of a schedule, and how large it is.
fn view_options() -> [Row; 6] {
    [
        of_picture(
            "fold",
            "N",
            "Strips of N time steps, below each other, with --svg",
        ),
        of_picture("from", "T", "The first time shown, with --svg"),
        of_picture("to", "T", "The last time shown, with --svg"),
        of_picture("width", "PX", "The width in pixels, with --svg"),
        of_picture("height", "PX", "The height in pixels, with --svg"),
        of_picture(
            "size",
            "SIZE",
            "A page, a4 or a3, or a slide, 16:9, with --svg",
        )
        .one_of(SIZES.as_slice())
        .without(AGAINST_SIZE.as_slice()),
    ]
}

fn of_picture(id: &'static str, value: &'static str, help: &'static str) -> Row {
    number(id, value, help).with("svg")
}

fn random_command<'a>(alloc: Global) -> Result<Command<'a>, AllocError>
    ensures { IfOk result (λ c. name_of c ≡ codes "random") }
{
    let page = Page {
        name: "random",
        about: "Writes a random instance of a problem",
        after: ABOUT_RANDOM,
        long: None,
    };
    let rows = [
        problem(),
        number("jobs", "N", "The number of jobs, 1 to 100000").required(),
        machines(),
        number("seed", "S", "Which of 4294967296 tables, from 0").or("1"),
        number("max", "T", "The longest processing time, 1 to 1000000").or("100"),
        output(),
    ];
    with_rows(alloc, page.command(alloc), &rows)
}

fn problems_command<'a>(alloc: Global) -> Result<Command<'a>, AllocError>
    ensures { IfOk result (λ c. name_of c ≡ codes "problems") }
{
    let page = Page {
        name: "problems",
        about: "Lists the problems that are solved, and what each needs",
        after: ABOUT_PROBLEMS,
        long: None,
    };
    let rows = [
        flag(
            "bounds",
            "Lists problems that have lower bounds and no solver",
        ),
        flag(
            "border",
            "Lists which problems are polynomial, which NP-hard, by whom",
        )
        .without(AGAINST_BORDER.as_slice()),
        json(),
        output(),
        place("FILE", "A job table: lists what it has the fields for"),
    ];
    with_rows(alloc, page.command(alloc), &rows)
}

// The command of a page, with what names a problem and an instance, and the options of some rows.
fn with_options<'a>(alloc: Global, page: Page, rows: &[Row]) -> Result<Command<'a>, AllocError>
    ensures { IfOk result (λ c. name_of c ≡ page.name.now) }
{
    let input = place("INPUT", "The instance: a file, or - for standard input").required();
    let groups: [&[Row]; 4] = [
        &[problem(), format()],
        &form_options(),
        &[machines(), explain(), output(), input],
        rows,
    ];
    with_groups(alloc, page.command(alloc), &groups)
}

// The options of the forms.
fn form_options() -> [Row; 4] {
    [
        number(
            "jobs",
            "N",
            "With wt: the jobs of each instance, 1 to 100000",
        ),
        number("index", "K", "With wt: which instance, from 1").or("1"),
        text(
            "name",
            "NAME",
            "With flow or jobshop: the name of the instance",
        ),
        numbers("pair", "I,K", "With flow: the two machines to use, from 0"),
    ]
}

fn problem() -> Row {
    text(
        "problem",
        "TEXT",
        "The problem, in quotes: \"P2|prmp|Cmax\"",
    )
    .short('p')
    .required()
}

fn format() -> Row {
    text(
        "format",
        "FORM",
        "Format of INPUT: table, wt, flow or jobshop",
    )
    .short('f')
    .one_of(FORMATS.as_slice())
    .or("table")
}

fn machines() -> Row {
    number("machines", "M", "The number of machines, 1 to 1000").short('m')
}

fn explain() -> Row {
    perhaps(
        "explain",
        "WHEN",
        "always",
        "Explains faults: auto, always, never",
    )
    .one_of(EXPLAINED.as_slice())
    .or("auto")
}

fn output() -> Row {
    text(
        "output",
        "FILE",
        "Writes to FILE in place of standard output",
    )
    .short('o')
}

fn steps() -> Row {
    number("steps", "N", "The steps of the search, 1 to 1000000")
}

fn json() -> Row {
    flag("json", "Writes a JSON object in place of text")
}

fn csv() -> Row {
    flag("csv", "Writes a table for spreadsheets in place of text").without(OTHER_FORMAT.as_slice())
}

fn answer() -> Row {
    place("ANSWER", "The answer: a file, or - for standard input")
}
