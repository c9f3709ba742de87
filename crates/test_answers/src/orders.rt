//! Orders and pieces that are rated, where memory is refused or a device fails.
use refusing::Refusing;
use std::alloc::{AllocError, Global};
use std::test::Fail;
use test_runs::devices::{Failure, Sink, Source};
use test_runs::examples::Given;
use test_runs::growths::{Ended, ample, refuse_each_growth};
use test_runs::runs::{Ending, ending_of, ensure, request};
use tf_assess::measures::{PosedInstance, posed_in};
use tf_assess::offered::Aids;
use tf_engine::request::Request;
use tf_evaluate::evaluation::Detail;
use tf_model::memory::OutOfMemory;
use tf_orders::run_orders::{Measuring, OrderForm, OrdersRequest, run_orders};
use tf_search::effort::{Effort, Nobody};
use tf_text::answer::layout::Layout;
use tf_text::counted::Counted;

/// Jobs of 3, 1 and 2.
const INSTANCE: &[u8] = b"table 1\njob 1 p=3\njob 2 p=1\njob 3 p=2\n";

/// A problem, a text of orders or pieces, and what is written of it.
#[derive(Clone, Copy)]
struct Case {
    problem: &'static str,
    form: OrderForm,
    text: &'static [u8],
    /// Whether the values by the other objectives are written too.
    is_measured: bool,
    written: &'static [u8],
}

/// In the order 2 1 3 the jobs complete at 4, 1 and 6.
const ONE_ORDER: Case = Case {
    problem: "1||sumC",
    form: OrderForm::Single(Detail::Summary),
    text: b"2 1 3",
    is_measured: false,
    written: b"evaluation 1\nproblem 1||sumC\njobs 3\nmachines 1\nfits\nvalue 11\nbest 10\n\
        gap 1\njob 1 1 4 4\njob 2 0 1 1\njob 3 4 6 6\nend\n",
};

/// The same schedule by its pieces, with the arithmetic of the optimum's certificate: in the order
/// 2 3 1 the jobs wait 0, 1 and 3 time steps.
const PIECES: Case = Case {
    problem: "1||sumC",
    form: OrderForm::Pieces(Detail::WithArithmetic),
    text: b"piece 2 1 0 1\npiece 1 1 1 4\npiece 3 1 4 6\n",
    is_measured: false,
    written: b"evaluation 1\nproblem 1||sumC\njobs 3\nmachines 1\nfits\nvalue 11\nbest 10\n\
        gap 1\nstep total weighted processing time 6 + total weighted waiting time in Smith's \
        order 4 = 10\njob 1 1 4 4\njob 2 0 1 1\njob 3 4 6 6\nend\n",
};

/// The second order is optimal.
const TWO_ORDERS: Case = Case {
    problem: "1||sumC",
    form: OrderForm::Lines { goes_on: false },
    text: b"2 1 3\n2 3 1\n",
    is_measured: false,
    written: b"11 1\n10 0\n",
};

/// Machine 2 waits from 1 to 2. No schedule is shorter than job 1.
const WAITING: Case = Case {
    problem: "P2||Cmax",
    form: OrderForm::Pieces(Detail::Summary),
    text: b"piece 1 1 0 3\npiece 2 2 0 1\npiece 3 2 2 4\n",
    is_measured: false,
    written: b"evaluation 1\nproblem P2||Cmax\njobs 3\nmachines 2\nfits\nvalue 4\ngap 1\n\
        bound 3\njob 1\njob 1 0 3 3\njob 2 0 1 1\njob 3 2 4 4\nend\n",
};

/// A word that is no number, a job twice, a job that is missing, and a list too many.
const SLIPS: Case = Case {
    problem: "1||sumC",
    form: OrderForm::Lines { goes_on: true },
    text: b"2 J1 3\n2 3 1\n2 2 1\n3 1\n2 3 / 1\n",
    is_measured: false,
    written: b"wrong word 2\n10 0\nwrong twice 2\nwrong missing 2\nwrong lists\n",
};

/// The first order with its makespan and its sum of completion times, and no other value, since the
/// jobs have neither weights nor due dates.
const MEASURED_ORDER: Case = Case {
    problem: "1||sumC",
    form: OrderForm::Single(Detail::Summary),
    text: b"2 1 3",
    is_measured: true,
    written: b"evaluation 1\nproblem 1||sumC\njobs 3\nmachines 1\nfits\nvalue 11\nbest 10\n\
        gap 1\njob 1 1 4 4\njob 2 0 1 1\njob 3 4 6 6\nmeasure Cmax 6\nmeasure sumC 11\nend\n",
};

/// The same of each line, and of one that is wrong.
const MEASURED_ORDERS: Case = Case {
    problem: "1||sumC",
    form: OrderForm::Lines { goes_on: true },
    text: b"2 1 3\n2 2 1\n2 3 1\n",
    is_measured: true,
    written: b"11 1 6 - - 11 - - - - -\nwrong twice 2\n10 0 6 - - 10 - - - - -\n",
};

const CASES: [Case; 7] = [
    ONE_ORDER,
    PIECES,
    TWO_ORDERS,
    WAITING,
    SLIPS,
    MEASURED_ORDER,
    MEASURED_ORDERS,
];

fn request_of(rt: &HostRuntime, case: &Case) -> Result<Request, AllocError> {
    request(rt, case.problem, Given::Table, Layout::Two)
}

/// The instance that gives the other objectives, where they are asked for.
fn others_of<'a>(
    heap: &'a Refusing<Global>,
    request: &Request,
    case: &Case,
) -> Result<Option<PosedInstance<&'a Refusing<Global>>>, OutOfMemory> {
    if case.is_measured {
        posed_in(heap, request, INSTANCE)
    } else {
        Ok(None)
    }
}

/// How rating the text of a case ends, over an instance that never fails.
fn rate(
    heap: &Refusing<Global>,
    request: &Request,
    case: &Case,
    orders: &mut Source<'_>,
    sink: &mut Sink,
) -> Ending {
    let Ok(others) = others_of(heap, request, case) else {
        return Ending::OutOfMemory;
    };
    let mut reader = Counted::new(INSTANCE);
    let mut other = Counted::new(orders);
    let mut writer = Counted::new(sink);
    let asked = OrdersRequest {
        request,
        form: case.form,
    };
    let effort: Effort<Nobody> = Effort::untold(None);
    let aids = Aids {
        effort,
        offered: None,
    };
    let measuring = Measuring { aids, others };
    match run_orders(heap, asked, measuring, &mut reader, &mut other, &mut writer) {
        Ok(_) => Ending::Answered,
        Err(fault) => ending_of(&fault),
    }
}

/// All of it is written, or nothing is.
fn rated_on(
    heap: &Refusing<Global>,
    alloc: Global,
    request: &Request,
    case: &Case,
) -> Result<Ended, Fail> {
    let mut orders = Source::new(case.text);
    let mut sink = Sink::new(alloc);
    match rate(heap, request, case, &mut orders, &mut sink) {
        Ending::Answered if sink.taken() == case.written => Ok(Ended::Answered),
        Ending::OutOfMemory if sink.calls() == 0 => Ok(Ended::OutOfMemory),
        _ => Err(Fail::new("another outcome")),
    }
}

fn is_rated(rt: &HostRuntime, case: &Case) -> Result<bool, Fail> {
    let alloc = rt.alloc();
    let request = request_of(rt, case)?;
    let growths = refuse_each_growth(rt, |heap| rated_on(heap, alloc, &request, case))?;
    Ok(growths > 0)
}

#[test]
fn orders_are_rated_or_memory_was_refused(rt: HostRuntime) -> Result<(), Fail> {
    for case in CASES.iter() {
        ensure(is_rated(&rt, case)?, "no growth")?;
    }
    Ok(())
}

/// The reader of the orders fails at this call.
fn are_cut_off_at(alloc: Global, request: &Request, case: &Case, call: u64) -> bool {
    let mut orders = Source::new(case.text).by(5).failing(Failure::once(call));
    let mut sink = Sink::new(alloc);
    rate(&ample(alloc), request, case, &mut orders, &mut sink) == Ending::Device
        && orders.calls() == call
        && sink.calls() == 0
}

/// Each call of the reader of the orders fails in turn.
fn are_cut_off(rt: &HostRuntime, case: &Case) -> Result<bool, AllocError> {
    let request = request_of(rt, case)?;
    let calls = (case.text.len() as u64).div_ceil(5) + 1;
    for call in 1..calls.saturating_add(1) {
        if !are_cut_off_at(rt.alloc(), &request, case, call) {
            return Ok(false);
        }
    }
    Ok(true)
}

#[test]
fn nothing_is_written_where_orders_cannot_be_read(rt: HostRuntime) -> Result<(), Fail> {
    for case in CASES.iter() {
        ensure(are_cut_off(&rt, case)?, "another outcome or call")?;
    }
    Ok(())
}
