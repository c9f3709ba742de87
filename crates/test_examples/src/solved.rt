//! Instance texts that are solved or refused, each by hand.
mod cut;
mod forms;

use std::alloc::AllocError;
use std::test::Fail;
use test_runs::examples::Given;
use test_runs::runs::{ensure, request, solve_into};
use tf_engine::request::Request;
use tf_text::answer::layout::Layout;

/// A request for an answer in version 1.
fn asked(rt: &HostRuntime, problem: &str, given: Given) -> Result<Request, AllocError> {
    request(rt, problem, given, Layout::One)
}

/// The run of this request writes exactly this.
fn answers(rt: &HostRuntime, request: &Request, text: &[u8], wanted: &[u8]) -> Result<(), Fail> {
    let mut out = Vec::new(rt.alloc());
    let result = solve_into(rt.alloc(), request, text, &mut out);
    ensure(result == Ok(()), "refused")?;
    ensure(out.as_slice() == wanted, "another answer")
}
