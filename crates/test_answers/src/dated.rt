//! Pictures of answers with the dates of an instance.
use crate::pictured::has;
use refusing::Refusing;
use std::alloc::{Allocator, Global};
use std::test::Fail;
use test_runs::growths::{Ended, refuse_each_growth};
use test_runs::runs::{Ending, ending_of, ensure};
use tf_dated::run_dated::{DatedRequest, Pictured, run_dated};
use tf_engine::request::Form;
use tf_picture::view::View;
use tf_text::counted::Counted;

const JOBS: &[u8] = b"table 1\njob 1 p=2 d=1 r=0\n";

const ANSWER: &[u8] = b"answer 1
problem 1|rj|Lmax
jobs 1
machines 1
value 1
piece 1 1 0 2
cert load
end
";

fn dated_into(heap: &Refusing<Global>, out: &mut Vec<u8>) -> Ending {
    let form: Form = Form::Table;
    let mut instance = Counted::new(JOBS);
    let mut answer = Counted::new(ANSWER);
    let mut writer = Counted::new(out);
    let view = View::whole();
    let asked = DatedRequest {
        view: &view,
        form: &form,
    };
    match run_dated(heap, asked, &mut instance, &mut answer, &mut writer) {
        Ok(Pictured::Drawn) => Ending::Answered,
        Ok(_) => Ending::Other,
        Err(fault) => ending_of(&fault),
    }
}

fn dated_on(rt: &HostRuntime, heap: &Refusing<Global>) -> Result<Ended, Fail> {
    let mut out = Vec::with_capacity(rt.alloc(), 5_000)?;
    match dated_into(heap, &mut out) {
        Ending::Answered if has(&out, b"<title>job 1, late by 1</title>") => Ok(Ended::Answered),
        Ending::OutOfMemory if out.is_empty() => Ok(Ended::OutOfMemory),
        _ => Err(Fail::new("another outcome")),
    }
}

#[test]
fn dates_are_pictured_whatever_growth_is_refused(rt: HostRuntime) -> Result<(), Fail> {
    let call = |heap: &Refusing<Global>| dated_on(&rt, heap);
    ensure(refuse_each_growth(&rt, call)? > 4, "too few growths")
}
