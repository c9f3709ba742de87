//! What is wrong with a notation, and the problems nearest to one that is not solved.
use crate::border::{Hard, easy, hardness, is_planned};
use crate::page::Page;
use std::alloc::{AllocError, Global};
use strsim::osa_distance;
use tf_bound::task::is_taken;
use tf_listing::listing::{CLASSES, push_problem};
use tf_model::problem::{Env, Goal, Problem};
use tf_notation::reading::read;
use tf_notation::writing::notation_text;

/// What a field may say.
#[derive(Clone, Copy, PartialEq)]
enum Expected {
    Environment,
    Bar,
    CommaOrBar,
    Condition,
    Objective,
    End,
}

static CONDITIONS: [&str; 9] = [
    "rj", "r_j", "prec", "prmp", "pmtn", "prmu", "nwt", "block", "rcrc",
];

static OBJECTIVES: [&str; 9] = [
    "Cmax", "Lmax", "hmax", "sumC", "sumwC", "sumT", "sumwT", "sumU", "sumwU",
];

static ENVIRONMENTS: [&str; 7] = ["1", "P", "Q", "R", "F", "O", "J"];

static NOTHING: [&str; 0] = [];

const PREC: &str = "Chains and trees are precedence constraints: write \"prec\".";

const WEIGHTED: &str = "Write 1||hmax, and the weighted lateness of each job as its cost h=.";

const EQUAL_TIMES: &str = "Equal processing times are no condition: give each job the same p=.";

const DEADLINES: &str = "Due dates are no condition: give each job its d=.";

const PREEMPTION: &str = "Preemption is the condition prmp.";

const RELEASES: &str = "Release dates are the condition rj.";

const NO_WAIT: &str = "No wait between operations is the condition nwt.";

const ONE_WORD: &str = "The objective is one word, as in Cmax, sumC or sumwC.";

const SETUPS: &str = "Setup times are not read.";

const OPERATIONS: &str = "Numbers of operations are not read.";

const SETS_OF_MACHINES: &str = "Sets of machines for each job are not read.";

const UNIFORM: &str = "Uniform machines need a speed of each machine, which no instance has.";

const UNRELATED: &str =
    "Unrelated machines need a time of each job on each machine, which no instance has.";

/// Words of the literature that are not read, each with what to write for it.
static HINTS: [(&str, &str); 37] = [
    (
        "Tmax",
        "Tmax is 0 or Lmax, whichever is greater: a schedule with minimum Lmax minimizes it.",
    ),
    ("wLmax", WEIGHTED),
    ("wTmax", WEIGHTED),
    ("p_j", EQUAL_TIMES),
    ("pj", EQUAL_TIMES),
    ("d_j", DEADLINES),
    ("dj", DEADLINES),
    ("s_jk", SETUPS),
    ("sjk", SETUPS),
    ("s_ij", SETUPS),
    ("sij", SETUPS),
    ("tree", PREC),
    ("intree", PREC),
    ("outtree", PREC),
    ("chain", PREC),
    ("chains", PREC),
    ("nj", OPERATIONS),
    ("n_j", OPERATIONS),
    ("Mj", SETS_OF_MACHINES),
    ("M_j", SETS_OF_MACHINES),
    ("preemption", PREEMPTION),
    ("preemptive", PREEMPTION),
    ("release", RELEASES),
    ("releases", RELEASES),
    ("no", NO_WAIT),
    ("nowait", NO_WAIT),
    ("precedence", PREC),
    ("deadline", DEADLINES),
    ("deadlines", DEADLINES),
    ("due", DEADLINES),
    ("batch", "Batches are not read."),
    ("makespan", "The makespan is written Cmax."),
    (
        "Fmax",
        "Fmax is Lmax where each job is due at its release date.",
    ),
    (
        "sumF",
        "A schedule with minimum sumC minimizes the sum of flow times too.",
    ),
    ("sum", ONE_WORD),
    ("max", ONE_WORD),
    ("min", ONE_WORD),
];

/// The most edits by which a word is taken for another.
const MOST_EDITS: usize = 2;

impl Expected {
    // What may stand at a byte of the text, by the bars before it.
    fn at(text: &[u8], byte: usize) -> Expected {
        let front = text.get(..byte).unwrap_or(text);
        let bars = front.iter().filter(|byte| **byte == b'|').count();
        let is_behind = front
            .trim_ascii()
            .last()
            .is_some_and(|byte| *byte != b'|' && *byte != b',');
        match (bars, is_behind) {
            (0, false) => Expected::Environment,
            (0, true) => Expected::Bar,
            (1, false) => Expected::Condition,
            (1, true) => Expected::CommaOrBar,
            (2, false) => Expected::Objective,
            _ => Expected::End,
        }
    }

    fn allows(self) -> &'static str {
        match self {
            Expected::Environment => {
                "The environment is expected here: 1, P, Q, R, F, O or J, as in P or P2."
            }
            Expected::Bar =>
                "\"|\" is expected here: a notation is ENVIRONMENT|CONDITIONS|OBJECTIVE.",
            Expected::CommaOrBar => {
                "A comma or \"|\" is expected here: a notation is ENVIRONMENT|CONDITIONS|OBJECTIVE."
            }
            Expected::Condition => {
                "Conditions are expected here, such as rj,prec,prmp, separated by commas."
            }
            Expected::Objective => {
                "The objective is expected here, such as Cmax, Lmax, hmax, sumC or sumwC."
            }
            Expected::End => "Nothing may follow the objective.",
        }
    }

    fn words(self) -> &'static [&'static str] {
        match self {
            Expected::Environment => ENVIRONMENTS.as_slice(),
            Expected::Condition => CONDITIONS.as_slice(),
            Expected::Objective => OBJECTIVES.as_slice(),
            Expected::Bar | Expected::CommaOrBar | Expected::End => NOTHING.as_slice(),
        }
    }
}

/// What is wrong with the text at that byte.
pub fn explain_notation(
    alloc: Global,
    page: &mut Page,
    problem: &str,
    byte: usize,
) -> Result<(), AllocError> {
    let text = problem.as_bytes();
    let word = word_at(text, byte);
    page.say("The problem is not in three-field notation:")?;
    page.show(text)?;
    page.mark(text, byte, word.len())?;
    let expected = Expected::at(text, byte);
    page.say(expected.allows())?;
    match hint_for(text, byte, word) {
        Some(advice) => page.say(advice)?,
        None => say_meant(alloc, page, expected, word)?,
    }
    if text.contains(&b'/') && !text.contains(&b'|') {
        return page.say("Fields are divided by \"|\" and not by \"/\", as in \"1||Lmax\".");
    }
    if text.contains(&b'|') {
        return Ok(());
    }
    page.say("Put quotes round the notation: without them the shell takes \"|\" for a pipe.")
}

// What may be meant by a word that is not expected.
fn say_meant(
    alloc: Global,
    page: &mut Page,
    expected: Expected,
    word: &[u8],
) -> Result<(), AllocError> {
    if expected == Expected::Condition && is_objective(word) {
        return page.say("The objective comes after a second \"|\", as in \"1||Lmax\".");
    }
    if expected == Expected::Environment {
        return say_environment(alloc, page, word);
    }
    match std::str::from_utf8(word) {
        Ok(word) if !word.is_empty() => say_nearest(alloc, page, expected.words(), word),
        _ => Ok(()),
    }
}

// What may be meant by a word in the place of the environment, which is a letter and perhaps a
// number.
fn say_environment(alloc: Global, page: &mut Page, word: &[u8]) -> Result<(), AllocError> {
    let len = word
        .iter()
        .take_while(|byte| byte.is_ascii_alphabetic())
        .count();
    let letter = word.get(..len).unwrap_or(&[]);
    if letter.is_empty() && !word.is_empty() {
        return page.say("A number of machines stands behind a letter, as in P2 or F2.");
    }
    if ENVIRONMENTS.iter().any(|known| known.as_bytes() == letter) {
        return page.say("The number of machines is from 1 to 1000, as in P2 or F2.");
    }
    match std::str::from_utf8(letter) {
        Ok(letter) if letter.len() == 1 => {
            say_nearest(alloc, page, ENVIRONMENTS.as_slice(), letter)
        }
        _ => Ok(()),
    }
}

// What to write for a sign or a word that the literature uses and that is not read.
fn hint_for(text: &[u8], byte: usize, word: &[u8]) -> Option<&'static str> {
    let rest = text.get(byte..).unwrap_or(&[]);
    if rest.starts_with("Σ".as_bytes()) || rest.starts_with("∑".as_bytes()) {
        return Some("Write \"sum\" for the sign, as in sumC or sumwC.");
    }
    if matches!(rest.first(), Some(128..)) {
        return Some("Write ASCII characters only, with plain spaces and quotes.");
    }
    if matches!(rest.first(), Some(b'"' | b'\'')) {
        return Some("The quotes are part of the notation here: leave them out.");
    }
    if let Some(advice) = hint_behind(text, byte) {
        return Some(advice);
    }
    if text.contains(&b'\\') || text.contains(&b'{') {
        return Some("LaTeX is not read: write Cmax, Lmax, sumC or sumwC.");
    }
    for (known, advice) in &HINTS {
        if known.as_bytes() == word {
            return Some(*advice);
        }
    }
    None
}

// What to do about a sign behind the objective.
fn hint_behind(text: &[u8], byte: usize) -> Option<&'static str> {
    if Expected::at(text, byte) != Expected::End {
        return None;
    }
    match text.get(byte) {
        Some(b'|') => Some("Conditions stand before the objective, as in \"1|rj,prmp|Lmax\"."),
        Some(b',') => Some("One objective is minimized at a time."),
        _ => None,
    }
}

// Whether the word is an objective's.
fn is_objective(word: &[u8]) -> bool {
    OBJECTIVES.iter().any(|known| known.as_bytes() == word)
}

/// The word at which the text goes on from that byte, or the bytes there that are no ASCII.
fn word_at(text: &[u8], byte: usize) -> &[u8] {
    let rest = text.get(byte..).unwrap_or(&[]);
    let signs = rest.iter().take_while(|byte| **byte >= 128).count();
    if signs > 0 {
        return rest.get(..signs).unwrap_or(&[]);
    }
    rest.split(|byte| !byte.is_ascii_alphanumeric() && *byte != b'_')
        .next()
        .unwrap_or(&[])
}

// The spelling that differs least from a word, behind the number of edits.
fn nearest(
    alloc: Global,
    words: &[&'static str],
    word: &str,
) -> Result<Option<(usize, &'static str)>, AllocError> {
    let mut best: Option<(usize, &str)> = None;
    for known in words {
        let edits = edits_between(alloc, word, known)?;
        let least = match best {
            Some((least, _)) => least,
            None => MOST_EDITS + 1,
        };
        if edits < least {
            best = Some((edits, *known));
        }
    }
    Ok(best)
}

// By how many edits two words differ beside upper and lower case.
fn edits_between(alloc: Global, one: &str, other: &str) -> Result<usize, AllocError> {
    let one = one.to_ascii_lowercase(alloc)?;
    let other = other.to_ascii_lowercase(alloc)?;
    osa_distance(alloc, one.as_str(), other.as_str())
}

// The spelling that is read and differs least.
fn say_nearest(
    alloc: Global,
    page: &mut Page,
    words: &[&'static str],
    word: &str,
) -> Result<(), AllocError> {
    let Some((edits, known)) = nearest(alloc, words, word)? else {
        return Ok(());
    };
    if edits > known.len() / 2 {
        return Ok(());
    }
    let (front, behind) = if known == word {
        ("", " occurs here a second time.")
    } else if edits == 0 {
        ("It is written ", ": upper and lower case differ.")
    } else {
        ("Perhaps ", " is meant.")
    };
    writeln!(page.text, "{front}\"{known}\"{behind}")
}

/// The solved problems nearest to one that is not solved.
pub fn explain_unsolved(alloc: Global, page: &mut Page, problem: &str) -> Result<(), AllocError> {
    let Ok(asked) = read(problem.as_bytes()) else {
        return Ok(());
    };
    page.say("This problem is well formed, and no method of this program solves it:")?;
    page.show(problem.as_bytes())?;
    if let Some(reason) = reason_of(&asked) {
        page.say(reason)?;
    }
    say_identical(alloc, page, &asked)?;
    say_border(page, &asked)?;
    page.say("Nearest to it of those that are solved:")?;
    push_nearest(alloc, page, &asked)?;
    page.say("\"threefield problems\" lists them all.")
}

// What machines that are not identical would need, and the problem of identical ones.
fn say_identical(alloc: Global, page: &mut Page, asked: &Problem) -> Result<(), AllocError> {
    let needs = match asked.env {
        Env::Uniform => UNIFORM,
        Env::Unrelated => UNRELATED,
        _ => return Ok(()),
    };
    page.say(needs)?;
    let identical = Problem {
        env: Env::Parallel,
        ..*asked
    };
    if !is_taken(&identical) {
        return Ok(());
    }
    let Ok(notation) = notation_text(alloc, &identical) else {
        return Err(AllocError);
    };
    let notation = notation.as_str();
    writeln!(
        page.text,
        "For identical machines, as in {notation}, \"threefield plan\" prints a schedule."
    )
}

// Whether it is polynomial or NP-hard, where that is known here.
fn say_border(page: &mut Page, asked: &Problem) -> Result<(), AllocError> {
    if let Some((_, by)) = easy(asked) {
        let here = if is_planned(asked) {
            ": \"threefield plan\" gives an optimal schedule"
        } else {
            ", and not solved here"
        };
        return writeln!(page.text, "It is polynomial ({by}){here}.");
    }
    match hardness(asked) {
        Some(Hard::Itself((_, by))) => writeln!(page.text, "It is NP-hard ({by})."),
        Some(Hard::Since((problem, by))) => {
            writeln!(page.text, "It is NP-hard, since {problem} is ({by}).")
        }
        None => Ok(()),
    }
}

fn push_nearest(alloc: Global, page: &mut Page, asked: &Problem) -> Result<(), AllocError> {
    let least = least_distance(asked);
    for class in &CLASSES {
        if distance(asked, &class.notation()) == least {
            page.text.push_str("    ")?;
            push_problem(alloc, &mut page.text, &class.notation())?;
        }
    }
    Ok(())
}

// In how much a problem differs from the nearest one that is solved.
fn least_distance(asked: &Problem) -> usize {
    let mut least = usize::MAX;
    for class in &CLASSES {
        least = distance(asked, &class.notation()).min(least);
    }
    least
}

// Why such a problem is not solved, where it is one that is often asked for.
fn reason_of(asked: &Problem) -> Option<&'static str> {
    let is_job_shop = asked.env == Env::JobShop;
    if asked.env.is_shop() && !is_job_shop && asked.count.is_some_and(|m| m != 2) {
        return Some("Shops are solved on two machines.");
    }
    match asked.env {
        Env::JobShop => Some("Job shops are not solved."),
        Env::Uniform | Env::Unrelated => {
            Some("Parallel machines are solved only if they are identical.")
        }
        Env::Single if asked.goal == Goal::Cmax => Some(one_machine(asked)),
        Env::Flow if asked.goal == Goal::Cmax && asked.prmu && !has_more(asked) => {
            Some("On two machines F2||Cmax gives a permutation schedule, and none is shorter.")
        }
        Env::Parallel if asked.goal == Goal::Cmax && !asked.prmp => Some(
            "The value of P|prmp|Cmax is a lower bound on it.",
        ),
        Env::Single if asked.goal == Goal::Lmax && asked.release && !asked.prmp => {
            Some("With release dates it is solved if jobs may be preempted, as 1|rj,prmp|Lmax.")
        }
        _ => None,
    }
}

// Which orders have the least makespan on one machine.
fn one_machine(asked: &Problem) -> &'static str {
    match (asked.release, asked.prec) {
        (false, false) => {
            "On one machine every order without idle time is optimal, such as that of 1||sumC."
        }
        (false, true) => {
            "On one machine every order that keeps the arcs, without idle time, is optimal."
        }
        (true, false) => "On one machine the order by release dates is optimal.",
        (true, true) => "On one machine the order by release dates that keeps the arcs is optimal.",
    }
}

// Whether a problem has a condition beside the order that is the same on all machines.
fn has_more(problem: &Problem) -> bool {
    let Problem {
        release,
        prec,
        nwt,
        block,
        rcrc,
        ..
    } = *problem;
    release || prec || nwt || block || rcrc
}

// In how much other machines differ.
fn environment_distance(one: Env, other: Env) -> usize {
    if is_parallel(one) && is_parallel(other) {
        2
    } else {
        4
    }
}

fn is_parallel(env: Env) -> bool {
    matches!(env, Env::Parallel | Env::Uniform | Env::Unrelated)
}

/// In how much two problems differ.
fn distance(one: &Problem, other: &Problem) -> usize {
    let parts = [
        (
            one.env != other.env,
            environment_distance(one.env, other.env),
        ),
        (one.goal != other.goal, 3),
        (one.release != other.release, 2),
        (one.prec != other.prec, 2),
        (one.prmp != other.prmp, 1),
    ];
    let mut distance: usize = 0;
    for (differs, weight) in parts {
        if differs {
            distance = distance.saturating_add(weight);
        }
    }
    distance
}
