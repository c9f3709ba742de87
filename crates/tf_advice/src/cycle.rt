//! The arcs of a cycle, with their lines.
use crate::page::Page;
use crate::source::{Front, Source, SourceLine};
use std::alloc::{AllocError, Global};
use tf_model::ids::JobId;
use tf_words::number::{Number, number_of};
use tf_words::word::is;

/// The most arcs of a cycle that are shown.
const MOST_ARCS: usize = 20;

/// An arc, and the first line that has it.
#[derive(Clone, Copy)]
struct ArcLine<'a> {
    before: Number,
    after: Number,
    line: Option<SourceLine<'a>>,
}

impl<'a> ArcLine<'a> {
    // Takes the line of an arc, if it is the first one of this arc.
    fn offer(&mut self, before: Number, after: Number, line: SourceLine<'a>) {
        if self.line.is_none() && self.before == before && self.after == after {
            self.line = Some(line);
        }
    }
}

/// Each arc of the cycle that these jobs make.
pub fn explain_cycle(
    page: &mut Page,
    source: &Source<'_>,
    jobs: &[JobId],
) -> Result<(), AllocError> {
    let is_one = jobs.len() == 1;
    page.say(if is_one {
        "This precedence constraint makes a job wait for itself, so it can never start:"
    } else {
        "These precedence constraints form a cycle, so none of their jobs can start:"
    })?;
    quote_arcs(page, source, jobs)?;
    page.say(if is_one {
        "Delete it."
    } else {
        "Delete one of them."
    })
}

// The lines of the first arcs of the cycle.
fn quote_arcs(page: &mut Page, source: &Source<'_>, jobs: &[JobId]) -> Result<(), AllocError> {
    let mut arcs = first_arcs(page.alloc, jobs)?;
    find_lines(source, &mut arcs);
    for arc in &arcs {
        if let Some(line) = &arc.line {
            page.quote(source, line, None)?;
        }
    }
    Ok(())
}

fn first_arcs<'a>(alloc: Global, jobs: &[JobId]) -> Result<Vec<ArcLine<'a>>, AllocError> {
    let mut arcs = Vec::new(alloc);
    for place in 0..jobs.len().min(MOST_ARCS) {
        if let Some(arc) = arc_at(jobs, place) {
            arcs.push(arc)?;
        }
    }
    Ok(arcs)
}

// The arc from the job at this place to the next one, or from the last one to the first.
fn arc_at<'a>(jobs: &[JobId], place: usize) -> Option<ArcLine<'a>> {
    let before = jobs.get(place)?;
    let after = jobs.get(place.saturating_add(1)).or(jobs.first())?;
    Some(ArcLine {
        before: Number::Value(i64::from(before.get())),
        after: Number::Value(i64::from(after.get())),
        line: None,
    })
}

// Finds the first line of each arc, in one walk over the text.
fn find_lines<'a>(source: &Source<'a>, arcs: &mut Vec<ArcLine<'a>>) {
    for line in source.lines() {
        if let Some((before, after)) = arc_in(line.bytes) {
            for arc in arcs.iter_mut() {
                arc.offer(before, after, line);
            }
        }
    }
}

// The two numbers of an arc's line.
fn arc_in(line: &[u8]) -> Option<(Number, Number)> {
    if !line.trim_ascii_start().starts_with(b"prec") {
        return None;
    }
    let front = Front::new(line);
    let (key, before, after) = (front.word(0)?, front.word(1)?, front.word(2)?);
    if front.len() == 3 && is(key.bytes, b"prec") {
        Some((number_of(before.bytes), number_of(after.bytes)))
    } else {
        None
    }
}
