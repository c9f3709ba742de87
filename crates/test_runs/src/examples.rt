//! Worked examples, each by hand: what is asked, the instance text, the answer that is printed and
//! its chart.
pub mod files;
pub mod latest;
pub mod parallel;
pub mod shops;
pub mod sums;

use std::alloc::AllocError;
use tf_text::answer::layout::Layout;

/// In which form the instance text of an example is.
#[derive(Clone, Copy)]
pub enum Given {
    /// A job table.
    Table,
    /// A weighted tardiness file, and which of its instances, from 1.
    Tardiness {
        jobs: u32,
        index: u32,
    },
    /// A flow shop file, the name of the instance, and two of its machines, from 0.
    FlowShop {
        name: &'static str,
        pair: Option<(u32, u32)>,
    },
}

/// A problem, an instance text, and what the runs print.
#[derive(Clone, Copy)]
pub struct Example {
    pub name: &'static str,
    pub problem: &'static str,
    pub given: Given,
    pub instance: &'static [u8],
    /// The text of its answer in version 1.
    pub answer: &'static [u8],
    /// The line of its certificate in version 2, where that has ranges.
    pub ranges: Option<&'static str>,
    /// The chart of the answer in 72 columns.
    pub chart: &'static [u8],
}

/// A text with one line, counted from 1, in place of its own.
pub fn with_line(
    rt: &HostRuntime,
    text: &[u8],
    place: usize,
    line: &str,
) -> Result<Vec<u8>, AllocError> {
    let mut changed = Vec::new(rt.alloc());
    for (k, own) in text.split_inclusive(|byte| *byte == b'\n').enumerate() {
        if k + 1 == place {
            changed.extend_from_slice(line.as_bytes())?;
            changed.push(b'\n')?;
        } else {
            changed.extend_from_slice(own)?;
        }
    }
    Ok(changed)
}

/// A text of version 1 with the heading of this version.
pub fn headed(rt: &HostRuntime, text: &[u8], layout: Layout) -> Result<Vec<u8>, AllocError> {
    match layout {
        Layout::One => Vec::from_slice(rt.alloc(), text),
        Layout::Two => with_line(rt, text, 1, "answer 2"),
    }
}

/// The text of an example's answer in this version.
pub fn answer_in(
    rt: &HostRuntime,
    example: &Example,
    layout: Layout,
) -> Result<Vec<u8>, AllocError> {
    let text = headed(rt, example.answer, layout)?;
    match (layout, example.ranges) {
        (Layout::Two, Some(line)) => {
            let lines = text.split_inclusive(|byte| *byte == b'\n').count();
            with_line(rt, &text, lines.saturating_sub(1), line)
        }
        _ => Ok(text),
    }
}

/// All worked examples. A function that names the table itself takes the prover half a minute.
pub fn worked() -> &'static [Example] {
    &WORKED
}

static WORKED: [Example; 35] = [
    parallel::FOURS,
    parallel::ONES,
    parallel::ONE_LONG,
    parallel::DEALT,
    parallel::MACHINE_EACH,
    sums::RATIOS,
    sums::RATIOS_PRMP,
    sums::GREATEST_TOTAL,
    sums::GREATER_RATIO,
    sums::NO_WEIGHT,
    sums::SHORTEST,
    latest::COSTS,
    latest::EQUAL_DUE,
    latest::DUE_ARC,
    latest::PREEMPTED,
    latest::ALIKE,
    latest::FAR_DUE,
    latest::GREATEST_LATENESS,
    latest::WHOLE_WINDOW,
    latest::LATEST_RELEASE,
    latest::ARCS_IGNORED,
    latest::ARCS_IGNORED_PRMP,
    shops::FLOW,
    shops::FLOW_ZEROS,
    shops::FLOW_IDLE,
    shops::FLOW_TURNED,
    shops::FLOW_ONE,
    shops::OPEN,
    shops::FLOW_PRMP,
    shops::OPEN_IDLE,
    shops::OPEN_ONE_LONG,
    shops::OPEN_FROM_TWO,
    files::SECOND_OF_TWO,
    files::FIRST_OF_TWO,
    files::TWO_OF_THREE,
];
