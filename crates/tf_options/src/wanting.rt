//! What a random table is to be like.
ghost use Rattle.std.specs.Prelude.{IfErr, IfOk, codes};
ghost use Rattle.tf_options.specs.Matched.{IsToldInstead, given_of, lacks};
ghost use Rattle.tf_options.specs.Understood.{IsWantedBy, wanted_fault};

use crate::options::{machines_in, number_within};
use crate::wrong::Wrong;
use clap::ArgMatches;
use tf_model::limit::MOST_JOBS;
use tf_random::run_random::Wanted;

/// The most that the longest processing time of a random table may be.
const MOST_TIME: u32 = 1_000_000;

/// The random table that the options ask for.
pub(crate) fn wanted_in<'a>(given: &ArgMatches<'a>) -> Result<Wanted<'a>, Wrong>
    ensures given { IfOk result (IsWantedBy (given_of given.now)) }
    ensures fault { IfErr result
        (IsToldInstead (lacks (given_of given.now) (codes "problem"))
        (wanted_fault (given_of given.now))) }
{
    let Some(problem) = given.get_str("problem") else {
        return Err(Wrong::Missing);
    };
    let machines = machines_in(given)?;
    let jobs = given
        .get_str("jobs")
        .and_then(|word| number_within(word, 1, MOST_JOBS as u32));
    let seed = given
        .get_str("seed")
        .and_then(|word| number_within(word, 0, u32::MAX));
    let most = given
        .get_str("max")
        .and_then(|word| number_within(word, 1, MOST_TIME));
    match (jobs, seed, most) {
        (None, _, _) => Err(Wrong::Unfit("--jobs takes a number from 1 to 100000")),
        (_, None, _) => Err(Wrong::Unfit("--seed takes a number from 0 to 4294967295")),
        (_, _, None) => Err(Wrong::Unfit("--max takes a number from 1 to 1000000")),
        (Some(jobs), Some(seed), Some(most)) => Ok(Wanted {
            problem,
            jobs,
            machines,
            most,
            seed,
        }),
    }
}
