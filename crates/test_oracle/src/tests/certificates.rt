//! All certificates over the jobs of a small task.
use std::alloc::{AllocError, Global};
use tf_check::certificate::Certificate;
use tf_check::last_of::LastOf;
use tf_check::load::Load;
use tf_check::machine_load::MachineLoad;
use tf_check::one_job::OneJob;
use tf_check::pairs::Pairs;
use tf_check::ranks::Ranks;
use tf_check::split::Split;
use tf_check::window::Window;
use tf_model::ids::{JobId, MachineId};
use tf_model::job_list::JobList;

/// The deltas of splits: below 0, each time that an operation of the small tasks takes, and more.
const DELTAS: [i64; 6] = [-1, 0, 1, 2, 3, 4];

/// The jobs whose numbers are the last three digits of a code. The digit 0 is none.
fn list_of_code(alloc: Global, code: u32, digits: u32) -> Result<Vec<JobId>, AllocError> {
    let mut list = Vec::new(alloc);
    let mut rest = code;
    for _ in 0..3 {
        if let Some(job) = JobId::new(rest % digits.max(1)) {
            list.push(job)?;
        }
        rest /= digits.max(1);
    }
    Ok(list)
}

/// All lists of at most three of the jobs from 1 to this number and one more, which is not there.
fn lists(alloc: Global, jobs: u32) -> Result<Vec<Vec<JobId>>, AllocError> {
    let digits = jobs.saturating_add(2);
    let mut lists = Vec::new(alloc);
    for code in 0..digits.saturating_pow(3) {
        lists.push(list_of_code(alloc, code, digits)?)?;
    }
    Ok(lists)
}

/// The certificates over a list.
fn push_for_list(
    alloc: Global,
    certificates: &mut Vec<Certificate>,
    list: &[JobId],
) -> Result<(), AllocError> {
    let jobs = list_of(alloc, list)?;
    certificates.push(Certificate::LastOf(LastOf { jobs }))?;
    let jobs = list_of(alloc, list)?;
    certificates.push(Certificate::Window(Window { jobs }))?;
    let jobs = list_of(alloc, list)?;
    certificates.push(Certificate::Ranks(Ranks { jobs }))?;
    for delta in &DELTAS {
        push_splits(alloc, certificates, list, *delta)?;
    }
    Ok(())
}

fn push_splits(
    alloc: Global,
    certificates: &mut Vec<Certificate>,
    list: &[JobId],
    delta: i64,
) -> Result<(), AllocError> {
    for first in &[false, true] {
        let (side, first) = (list_of(alloc, list)?, *first);
        certificates.push(Certificate::Split(Split { side, delta, first }))?;
    }
    Ok(())
}

fn list_of(alloc: Global, list: &[JobId]) -> Result<JobList, AllocError> {
    Ok(JobList::new(Vec::from_slice(alloc, list)?))
}

/// All certificates whose lists are of at most three jobs.
pub fn certificates(alloc: Global, jobs: u32) -> Result<Vec<Certificate>, AllocError> {
    let mut certificates = Vec::new(alloc);
    push_without_lists(&mut certificates, jobs)?;
    for list in lists(alloc, jobs)?.iter() {
        push_for_list(alloc, &mut certificates, list)?;
    }
    Ok(certificates)
}

/// The certificates without a list: of machines 1 to 3, of each job, and of all of them.
fn push_without_lists(certificates: &mut Vec<Certificate>, jobs: u32) -> Result<(), AllocError> {
    certificates.push(Certificate::Pairs(Pairs))?;
    certificates.push(Certificate::Load(Load))?;
    for place in 0..3 {
        let machine = MachineId::at(place);
        certificates.push(Certificate::Machine(MachineLoad { machine }))?;
    }
    for number in 1..=jobs.saturating_add(1) {
        if let Some(job) = JobId::new(number) {
            certificates.push(Certificate::OneJob(OneJob { job }))?;
        }
    }
    Ok(())
}
