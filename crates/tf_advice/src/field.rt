//! What is wrong with the fields of a job line.
ghost use Rattle.std.specs.Prelude.{◌<◌, IfSome};

use crate::advice::Cause;
use crate::number::{fault_of_number, fault_of_size};
use tf_words::digits::is_numeral;
use tf_words::number::{Number, number_of};
use tf_words::part::divided;

/// The fields that a line has named so far.
#[derive(Clone, Copy)]
pub(crate) struct Named {
    letters: [bool; 5],
}

// The most machines of a route.
const MOST_ON_ROUTE: usize = 1_000;

/// The letters of the fields.
const LETTERS: [u8; 5] = [b'p', b'w', b'd', b'r', b'h'];

impl Named {
    pub(crate) fn none() -> Named {
        Named {
            letters: [false; 5],
        }
    }

    /// Whether the processing time is among them.
    pub(crate) fn has_time(&self) -> bool {
        self.letters[0]
    }

    /// With a word that should be a field: what is wrong with it, if something is.
    pub(crate) fn add(&mut self, word: &[u8]) -> Option<Cause> {
        let Some((key, value)) = divided(word, b'=') else {
            return Some(cause_of_no_field(word));
        };
        let Some(place) = letter_place(key) else {
            return Some(cause_of_other_key(key));
        };
        if self.letters[place] {
            return Some(Cause::FieldTwice);
        }
        self.letters[place] = true;
        if value.is_empty() {
            return Some(Cause::BlankInField);
        }
        match LETTERS[place] {
            b'p' => fault_of_times(value),
            b'd' => fault_of_number(value),
            b'h' => fault_of_cost(value),
            _ => fault_of_size(value),
        }
    }
}

fn letter_place(key: &[u8]) -> Option<usize>
    ensures { IfSome result (λ k. k < 5) }
{
    match key {
        b"p" => Some(0),
        b"w" => Some(1),
        b"d" => Some(2),
        b"r" => Some(3),
        b"h" => Some(4),
        _ => None,
    }
}

// A word without "=".
fn cause_of_no_field(word: &[u8]) -> Cause {
    if letter_place(word).is_some() {
        Cause::BlankInField
    } else if word.starts_with(b"#") || word.starts_with(b"//") {
        Cause::Remark
    } else if word.starts_with(b",") || word.ends_with(b",") {
        Cause::BlankInField
    } else {
        Cause::NoEquals
    }
}

// What stands before "=" and is no field's letter.
fn cause_of_other_key(key: &[u8]) -> Cause {
    if key.is_empty() {
        Cause::BlankInField
    } else if is_numbered_time(key) {
        Cause::ManyTimes
    } else if key.len() > 1 || key.iter().all(|byte| byte.is_ascii_uppercase()) {
        Cause::LongName
    } else {
        Cause::UnknownField
    }
}

// Whether a key is that of the time on a machine of some number.
fn is_numbered_time(key: &[u8]) -> bool {
    key.len() > 1 && key.starts_with(b"p") && key.iter().skip(1).all(|byte| byte.is_ascii_digit())
}

// The value of `p=`: one number, or two with a comma between them, or a route.
fn fault_of_times(value: &[u8]) -> Option<Cause> {
    if value.contains(&b'@') {
        return fault_of_route(value);
    }
    if has_colon_steps(value) {
        return Some(Cause::RouteColon);
    }
    let commas = value.iter().filter(|byte| **byte == b',').count();
    if commas > 1 {
        return Some(Cause::ManyTimes);
    }
    value
        .split(|byte| *byte == b',')
        .find_map(|part| fault_of_size(part))
}

// Whether a value is pairs of numbers with colons, and no one or two times of day.
fn has_colon_steps(value: &[u8]) -> bool {
    let mut pairs: usize = 0;
    let mut is_other = false;
    for part in value.split(|byte| *byte == b',') {
        match divided(part, b':') {
            Some((front, behind)) if is_numeral(front) && is_numeral(behind) => {
                pairs = pairs.saturating_add(1);
                is_other = is_other || behind.len() != 2;
            }
            _ => return false,
        }
    }
    is_other || pairs > 2
}

// A route: operations TIME@MACHINE, each on another machine.
fn fault_of_route(value: &[u8]) -> Option<Cause> {
    let mut marks = [false; MOST_ON_ROUTE];
    for part in value.split(|byte| *byte == b',') {
        let Some((time, machine)) = divided(part, b'@') else {
            return Some(Cause::RouteForm);
        };
        let fault = fault_of_size(time);
        if fault.is_some() {
            return fault;
        }
        let Some(mark) = marks.get_mut(place_of_machine(machine)) else {
            return Some(Cause::RouteForm);
        };
        if *mark {
            return Some(Cause::RouteForm);
        }
        *mark = true;
    }
    None
}

// The place of a machine that is counted from 1; beyond all places where it is none.
fn place_of_machine(word: &[u8]) -> usize {
    match number_of(word) {
        Number::Value(machine) => usize::try_from(machine.saturating_sub(1)).unwrap_or(usize::MAX),
        _ => usize::MAX,
    }
}

// The value of `h=`: a base, and steps with rising times and values that do not fall.
fn fault_of_cost(value: &[u8]) -> Option<Cause> {
    let mut last: Option<Level> = None;
    for part in value.split(|byte| *byte == b',') {
        let level = match last {
            None => base_in(part),
            Some(last) => last.step_in(part),
        };
        match level {
            Ok(level) => last = Some(level),
            Err(fault) => return fault,
        }
    }
    None
}

/// A value of a cost, and a time below all from which on the next one may hold.
#[derive(Clone, Copy)]
struct Level {
    after: i64,
    value: i64,
}

impl Level {
    // The level of a step behind this one, or what is wrong with it.
    fn step_in(self, part: &[u8]) -> Result<Level, Option<Cause>> {
        let Some((when, cost)) = divided(part, b':') else {
            return Err(Some(Cause::StepForm));
        };
        match (number_of(when), number_of(cost)) {
            (Number::Value(after), Number::Value(value)) if after >= 0 => {
                if after <= self.after {
                    Err(Some(Cause::TimesNotRising))
                } else if value < self.value {
                    Err(Some(Cause::CostFalls))
                } else {
                    Ok(Level { after, value })
                }
            }
            _ => Err(fault_of_step(when, cost)),
        }
    }
}

fn base_in(part: &[u8]) -> Result<Level, Option<Cause>> {
    match number_of(part) {
        Number::Value(value) => Ok(Level { after: -1, value }),
        _ => Err(fault_of_base(part)),
    }
}

fn fault_of_base(base: &[u8]) -> Option<Cause> {
    if base.contains(&b':') {
        return Some(Cause::StepForm);
    }
    match fault_of_number(base) {
        Some(Cause::NotANumber) => Some(Cause::Formula),
        other => other,
    }
}

fn fault_of_step(time: &[u8], cost: &[u8]) -> Option<Cause> {
    if cost.contains(&b':') {
        Some(Cause::StepForm)
    } else {
        fault_of_size(time).or(fault_of_number(cost))
    }
}
