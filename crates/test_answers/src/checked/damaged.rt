//! An answer text with each of its bytes replaced.
use super::check_texts;
use std::alloc::{AllocError, Global};
use std::test::Fail;
use test_runs::examples::headed;
use test_runs::examples::parallel::FOURS;
use test_runs::runs::{LAYOUTS, ensure, request_table};
use tf_check::answer::Answer;
use tf_check::certificate::Certificate;
use tf_engine::request::Request;
use tf_engine::run_check::Checked;
use tf_text::answer::layout::Layout;
use tf_text::answer::reading::read_answer;

/// The answer says the pieces, the value and the certificate for three jobs of 4.
fn says_the_same(said: &Answer, own: &Answer) -> bool {
    said.pieces.as_slice() == own.pieces.as_slice()
        && said.value == own.value
        && matches!(&said.certificate, Certificate::Load(_))
}

/// The text is judged or refused, and accepted only where it says what it said before.
fn is_judged(alloc: Global, request: &Request, own: &Answer, text: &[u8]) -> bool {
    let mut out = Vec::new(alloc);
    match check_texts(alloc, request, FOURS.instance, text, &mut out) {
        Ok(Checked::Accepted) => {
            out.as_slice() == b"accepted\n".as_slice()
                && read_answer(alloc, text).is_ok_and(|sheet| says_the_same(&sheet.answer, own))
        }
        Ok(_) => !out.is_empty(),
        Err(_) => out.is_empty(),
    }
}

/// The text is judged with each of its bytes replaced.
fn is_judged_damaged(
    alloc: Global,
    request: &Request,
    own: &Answer,
    text: &[u8],
) -> Result<bool, AllocError> {
    for place in 0..text.len() {
        for byte in b"09-x \xff" {
            let mut damaged = Vec::from_slice(alloc, text)?;
            damaged[place] = *byte;
            if !is_judged(alloc, request, own, &damaged) {
                return Ok(false);
            }
        }
    }
    Ok(true)
}

fn are_judged(rt: &HostRuntime, layout: Layout) -> Result<bool, Fail> {
    let own = read_answer(rt.alloc(), FOURS.answer)?.answer;
    let request = request_table(rt, FOURS.problem)?;
    let text = headed(rt, FOURS.answer, layout)?;
    Ok(is_judged_damaged(rt.alloc(), &request, &own, &text)?)
}

#[test]
fn a_replaced_byte_is_accepted_only_where_it_says_the_same(rt: HostRuntime) -> Result<(), Fail> {
    for layout in LAYOUTS {
        ensure(are_judged(&rt, layout)?, "another outcome")?;
    }
    Ok(())
}
