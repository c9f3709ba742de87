//! Answers of others: which reader is called first, and answers whose bytes are replaced.
mod damaged;

use std::alloc::Global;
use std::test::Fail;
use test_runs::devices::{Failure, Source, Way};
use test_runs::examples::parallel::FOURS;
use test_runs::runs::{Ending, check_into, ending_of, request_table};
use tf_engine::request::Request;
use tf_engine::run_check::{Checked, run_check};
use tf_read::fault::ReadFault;
use tf_text::counted::Counted;

/// What a check answers.
fn check_texts(
    alloc: Global,
    request: &Request,
    table: &[u8],
    answer: &[u8],
    out: &mut Vec<u8>,
) -> Result<Checked, Ending> {
    match check_into(alloc, request, table, answer, out) {
        Ok(checked) => Ok(checked),
        Err(fault) => Err(ending_of(&fault)),
    }
}

/// The instance `table 2` is at fault, the reader of the answer did not fail, as it does at its
/// first call, and nothing is written.
fn is_refused_at_once(alloc: Global, request: &Request) -> bool {
    let at_once = Failure {
        call: 1,
        way: Way::Error,
        heals: false,
    };
    let mut out = Vec::new(alloc);
    let mut answer = Counted::new(Source::new(FOURS.instance).failing(at_once));
    checks(alloc, request, &mut answer, &mut out) == Err(Ending::Text(ReadFault::BadLine(1)))
        && !answer.failed()
        && out.is_empty()
}

fn checks(
    alloc: Global,
    request: &Request,
    answer: &mut Counted<Source<'_>>,
    out: &mut Vec<u8>,
) -> Result<Checked, Ending> {
    let bad: &[u8] = b"table 2\n";
    let mut instance = Counted::new(bad);
    let mut writer = Counted::new(out);
    match run_check(alloc, request, &mut instance, answer, &mut writer) {
        Ok(checked) => Ok(checked),
        Err(fault) => Err(ending_of(&fault)),
    }
}

#[test]
fn a_fault_of_the_instance_comes_before_the_second_reader(rt: HostRuntime) -> Result<(), Fail> {
    let request = request_table(&rt, FOURS.problem)?;
    assert!(rt; is_refused_at_once(rt.alloc(), &request));
    Ok(())
}
