//! Words, problems and headings for LaTeX.
use std::alloc::AllocError;

/// Adds a word of a sentence or of a cell: a problem is a formula, and minus signs are long.
pub(crate) fn push_word(text: &mut String, word: &str) -> Result<(), AllocError> {
    if word.contains('|') {
        return push_problem(text, word);
    }
    let mut before = ' ';
    for letter in word.chars() {
        if letter == '-' && (before == ' ' || before == '(') {
            text.push_str("$-$")?;
        } else {
            text.push(letter)?;
        }
        before = letter;
    }
    Ok(())
}

/// Adds the heading of a column: a formula where it is made of the letters of one.
pub(crate) fn push_heading(text: &mut String, heading: &str) -> Result<(), AllocError> {
    if heading.is_empty() || !heading.chars().all(|letter| "abCdprtw/- ".contains(letter)) {
        return text.push_str(heading);
    }
    text.push('$')?;
    text.push_str(heading)?;
    text.push('$')
}

// Adds a problem in three fields, and the comma behind it.
fn push_problem(text: &mut String, word: &str) -> Result<(), AllocError> {
    let (problem, end) = match word.strip_suffix(',') {
        Some(problem) => (problem, ","),
        None => (word, ""),
    };
    text.push('$')?;
    for (place, field) in problem.split('|').enumerate() {
        text.push_str(if place == 0 { "" } else { " \\mid" })?;
        text.push_str(if place == 0 || field.is_empty() {
            ""
        } else {
            " "
        })?;
        push_field(text, field)?;
    }
    text.push('$')?;
    text.push_str(end)
}

fn push_field(text: &mut String, field: &str) -> Result<(), AllocError> {
    for (place, name) in field.split(',').enumerate() {
        text.push_str(if place == 0 { "" } else { ", " })?;
        text.push_str(symbol_of(name))?;
    }
    Ok(())
}

// A condition or an objective as a formula.
fn symbol_of(name: &str) -> &str {
    match name {
        "rj" => "r_j",
        "prmp" => "\\mathit{prmp}",
        "prec" => "\\mathit{prec}",
        "Cmax" => "C_{\\max}",
        "Lmax" => "L_{\\max}",
        "hmax" => "h_{\\max}",
        "sumC" => "\\sum C_j",
        "sumwC" => "\\sum w_j C_j",
        _ => name,
    }
}
