//! Which problems are polynomial and which are NP-hard, of those that are often asked for.
use tf_model::problem::{Env, Goal, Problem};
use tf_notation::reading::read;

/// A problem, and who has shown what is known of it.
pub(crate) type Known = (&'static str, &'static str);

/// How it is known that a problem is NP-hard.
#[derive(Clone, Copy)]
pub(crate) enum Hard {
    /// By itself.
    Itself(Known),
    /// A special case of it is.
    Since(Known),
}

/// Polynomial problems without a solver here.
pub(crate) static EASY: [Known; 18] = [
    (
        "1|rj,prec,prmp|Lmax",
        "by the dates that the arcs imply, Horn 1974",
    ),
    (
        "1|rj,prmp|hmax",
        "Baker, Lawler, Lenstra and Rinnooy Kan 1983",
    ),
    (
        "1|rj,prec,prmp|hmax",
        "Baker, Lawler, Lenstra and Rinnooy Kan 1983",
    ),
    (
        "1|rj,prmp|sumC",
        "shortest remaining time first, Schrage 1968",
    ),
    ("1||sumU", "Moore and Hodgson 1968"),
    ("1|prmp|sumU", "Moore and Hodgson 1968"),
    ("1|rj,prmp|sumU", "Lawler 1990"),
    ("P|prmp|sumC", "shortest time first, McNaughton 1959"),
    ("P|prmp|Lmax", "Horn 1974"),
    ("P|rj,prmp|Cmax", "Horn 1974"),
    ("P|rj,prmp|Lmax", "Horn 1974"),
    ("F2|nwt|Cmax", "Gilmore and Gomory 1964"),
    ("O|prmp|Cmax", "Gonzalez and Sahni 1976"),
    ("O|prmp|Lmax", "Cho and Sahni 1981"),
    ("O|rj,prmp|Cmax", "Cho and Sahni 1981"),
    ("O|rj,prmp|Lmax", "Cho and Sahni 1981"),
    ("P2|prec,prmp|Cmax", "Muntz and Coffman 1969"),
    ("J2||Cmax", "Jackson 1956"),
];

/// Of these the ones whose plans are optimal, and proved to be.
static PLANNED: [&str; 4] = ["1|rj,prmp|sumC", "1||sumU", "1|prmp|sumU", "P|prmp|sumC"];

/// NP-hard problems with as few conditions as possible.
pub(crate) static HARD: [Known; 44] = [
    ("1|rj|Lmax", "Lenstra, Rinnooy Kan and Brucker 1977"),
    ("1|rj|sumC", "Lenstra, Rinnooy Kan and Brucker 1977"),
    (
        "1|rj,prmp|sumwC",
        "Labetoulle, Lawler, Lenstra and Rinnooy Kan 1984",
    ),
    ("1|prec|sumC", "Lawler 1978"),
    ("1|prec,prmp|sumC", "Lawler 1978"),
    ("1|prec|sumU", "Lenstra and Rinnooy Kan 1980"),
    ("1|prec,prmp|sumU", "Lenstra and Rinnooy Kan 1980"),
    ("1||sumT", "Du and Leung 1990"),
    ("1|prmp|sumT", "Du and Leung 1990"),
    ("1||sumwT", "Lawler 1977"),
    ("1|prmp|sumwT", "Lawler 1977"),
    ("1||sumwU", "Karp 1972"),
    ("1|prmp|sumwU", "Karp 1972"),
    ("P||Cmax", "Garey and Johnson 1978"),
    ("P2||Cmax", "Lenstra, Rinnooy Kan and Brucker 1977"),
    ("P2||sumwC", "Bruno, Coffman and Sethi 1974"),
    ("P2|prmp|sumwC", "Bruno, Coffman and Sethi 1974"),
    ("P2|rj,prmp|sumC", "Du, Leung and Young 1990"),
    ("P|prec|Cmax", "Ullman 1975"),
    ("P2|prec|Cmax", "Du, Leung and Young 1991"),
    ("P|prec,prmp|Cmax", "Ullman 1976"),
    ("P|prmp|sumU", "Lawler 1983"),
    ("F3||Cmax", "Garey, Johnson and Sethi 1976"),
    ("F3|prmu|Cmax", "Garey, Johnson and Sethi 1976"),
    ("F2||sumC", "Garey, Johnson and Sethi 1976"),
    ("F3|prmp|Cmax", "Gonzalez and Sahni 1978"),
    ("F2|rj|Cmax", "Lenstra, Rinnooy Kan and Brucker 1977"),
    ("F2||Lmax", "Lenstra, Rinnooy Kan and Brucker 1977"),
    ("F2|prec|Cmax", "Lenstra, Rinnooy Kan and Brucker 1977"),
    ("F3|nwt|Cmax", "Roeck 1984"),
    ("F2|nwt|Lmax", "Roeck 1984"),
    ("F2|nwt|sumC", "Roeck 1984"),
    ("O3||Cmax", "Gonzalez and Sahni 1976"),
    ("O2|rj|Cmax", "Lawler, Lenstra and Rinnooy Kan 1981"),
    ("O2||Lmax", "Lawler, Lenstra and Rinnooy Kan 1981"),
    ("O2||sumC", "Achugbue and Chin 1982"),
    ("O2|prmp|sumC", "Du and Leung 1993"),
    ("O2|nwt|Cmax", "Sahni and Cho 1979"),
    ("J3||Cmax", "Garey, Johnson and Sethi 1976"),
    ("J2|rcrc|Cmax", "Garey, Johnson and Sethi 1976"),
    ("J2||sumC", "Garey, Johnson and Sethi 1976"),
    ("J3|prmp|Cmax", "Gonzalez and Sahni 1978"),
    ("J2|rj|Cmax", "Lenstra, Rinnooy Kan and Brucker 1977"),
    ("J2||Lmax", "Lenstra, Rinnooy Kan and Brucker 1977"),
];

/// The row that says that a problem is polynomial, if there is one.
pub(crate) fn easy(asked: &Problem) -> Option<Known> {
    for row in &EASY {
        if let Ok(known) = read(row.0.as_bytes())
            && is_same(asked, &known)
        {
            return Some(*row);
        }
    }
    None
}

/// Whether `threefield plan` gives an optimal schedule and proves that it is, by a rule and a bound
/// that are both exact.
pub(crate) fn is_planned(asked: &Problem) -> bool {
    for row in &PLANNED {
        if let Ok(known) = read(row.as_bytes())
            && is_same(asked, &known)
        {
            return true;
        }
    }
    false
}

/// Why a problem is NP-hard, if that is known.
pub(crate) fn hardness(asked: &Problem) -> Option<Hard> {
    let mut found = None;
    for row in &HARD {
        let Ok(known) = read(row.0.as_bytes()) else {
            continue;
        };
        if asked.count == known.count && is_same(asked, &known) {
            return Some(Hard::Itself(*row));
        }
        if found.is_none() && contains(asked, &known) {
            found = Some(Hard::Since(*row));
        }
    }
    found
}

// Whether they are the same problem, on as many machines where the known one names a number.
fn is_same(asked: &Problem, known: &Problem) -> bool {
    asked.env == known.env
        && (known.count.is_none() || asked.count == known.count)
        && asked.goal == known.goal
        && asked.release == known.release
        && asked.prec == known.prec
        && are_alike(asked, known)
}

// Whether the known problem is a special case of the one that is asked for.
fn contains(asked: &Problem, known: &Problem) -> bool {
    has_machines_of(asked.env, known.env)
        && has_as_many(asked, known)
        && leads_to(known.goal, asked.goal)
        && (asked.release || !known.release)
        && (asked.prec || !known.prec)
        && are_alike(asked, known)
}

// Whether the machines are of the same kind, or a flow shop and a job shop, of which it is a
// special case.
fn has_machines_of(asked: Env, known: Env) -> bool {
    asked == known || (asked == Env::JobShop && known == Env::Flow)
}

// Whether the conditions are the same that make no problem a special case of another.
fn are_alike(asked: &Problem, known: &Problem) -> bool {
    asked.prmp == known.prmp
        && asked.prmu == known.prmu
        && asked.nwt == known.nwt
        && asked.block == known.block
        && asked.rcrc == known.rcrc
}

// Whether there may be at least as many machines. Further ones are kept busy by a job, or have only
// times 0 in a shop. With release dates and preemption a job would not stay on its machine.
fn has_as_many(asked: &Problem, known: &Problem) -> bool {
    if known.env == Env::Single {
        return true;
    }
    match (asked.count, known.count) {
        (None, _) => true,
        (Some(_), None) => false,
        (Some(asked), Some(count)) if known.release && known.prmp => asked == count,
        (Some(asked), Some(count)) => asked >= count,
    }
}

// Whether one objective is a special case of the other, by equal weights or by due dates.
fn leads_to(known: Goal, asked: Goal) -> bool {
    known == asked
        || match known {
            Goal::Cmax => matches!(asked, Goal::Lmax) || leads_from_lateness(asked),
            Goal::Lmax => leads_from_lateness(asked),
            Goal::SumC => matches!(asked, Goal::SumWC | Goal::SumT | Goal::SumWT),
            Goal::SumWC | Goal::SumT => matches!(asked, Goal::SumWT),
            Goal::SumU => matches!(asked, Goal::SumWU),
            _ => false,
        }
}

fn leads_from_lateness(asked: Goal) -> bool {
    matches!(
        asked,
        Goal::Hmax | Goal::SumT | Goal::SumWT | Goal::SumU | Goal::SumWU
    )
}
