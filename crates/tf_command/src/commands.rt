//! The commands, over whatever gives and takes bytes.
ghost use Rattle.std.specs.declared.alloc.Global.{Global};
ghost use Rattle.tf_asked.specs.Asking.{requested};
ghost use Rattle.tf_asked.specs.Columns.{HasWidth, IsSized};
ghost use Rattle.tf_command.specs.Ending.{EndsSolving, EndsBounding, EndsTracing, EndsChecking};
ghost use Rattle.tf_command.specs.Ending.{EndsEvaluating, EndsDrawing, SaysLine, drawn_as};
ghost use Rattle.tf_command.specs.Assessing.{EndsAssessed, EndsAssessing};
ghost use Rattle.tf_command.specs.Planning.{EndsPlanning};
ghost use Rattle.tf_engine.specs.Drawing.{drawing_run};
ghost use Rattle.tf_engine.specs.Runs.{IsOutcome};
ghost use Rattle.std.specs.Prelude.{◌≡◌, ◌⊎◌, None, Some, IfSome, IfOk, IfErr, false, codes};
ghost use Rattle.tf_command.specs.Performing.{EndsOver, EndsRandom, EndsWriting, Performs};
ghost use Rattle.tf_command.specs.Recorded.{bytes_left};
ghost use Rattle.tf_text.specs.Counted.{inner_of, use_of};

use crate::bounding::{assess_over, bound_over, plan_over, rate_over};
use crate::console::Console;
use crate::ending::end_run;
use crate::explained::{Ended, tell_drawn};
use crate::picturing::picture_named;
use crate::problems::{list_border, list_problems};
use crate::rating::rate_orders;
use crate::reading::say_unopened;
use crate::recorded::{MOST_BESIDE, MOST_KEPT, Recorded, room};
use crate::report::{report_bound, say_device, say_memory, say_no_table};
use crate::source::Sources;
use std::alloc::{Allocator, Global};
use std::io::{Read, Write};
use tf_asked::options::{Assessing, Drawing, Evaluating, Options, Work};
use tf_assess::bound_read::bound_read;
use tf_assess::offered::Aids;
use tf_assess::run_assess::AssessmentRequest;
use tf_bound_text::sheet::BoundSheet;
use tf_engine::fault::RunFault;
use tf_engine::run_check::run_check;
use tf_engine::run_gantt::run_gantt;
use tf_engine::run_solve::run_solve;
use tf_picture::run_picture::run_picture;
use tf_random::run_random::{Wanted, run_random};
use tf_search::effort::{Effort, Nobody};
use tf_text::answer::layout::Layout;
use tf_text::counted::Counted;
use tf_trace::board::Style;
use tf_trace::run_trace::run_trace;

/// A text that was opened.
pub(crate) type Opened<'a, S> = Counted<Recorded<'a, <S as Sources>::Source>>;

/// Does what is asked for, once all files that it names are open, and gives the exit status.
pub fn perform<S: Sources, W: Write, E: Write>(
    console: &mut Console<W, E>,
    sources: &S,
    work: &Work<'_>,
) -> u8
    requires { IsSized work.now }
    ensures { Performs (S.text_of sources.now) work.now
        (use_of W.contents console.old.writer console.new.writer)
        (λ explain. SaysLine E.contents explain console.old.errors console.new.errors) result }
{
    match work {
        Work::Solve(options, layout) => solve_named(console, sources, options, *layout),
        Work::Bound(options, steps) => bound_named(console, sources, options, *steps),
        Work::Plan(options, layout, steps) => {
            plan_named(console, sources, options, *layout, *steps)
        }
        Work::Trace(options, style) => trace_named(console, sources, options, *style),
        Work::Check(options, answer) => check_named(console, sources, options, answer),
        Work::Evaluate(evaluating) => evaluate_named(console, sources, evaluating),
        Work::Assess(assessing) => assess_named(console, sources, assessing),
        Work::Rate(options, source, aids) => {
            rate_orders(console, sources, options, *source, *aids)
        }
        Work::Gantt {
            answer,
            drawing,
            explain,
        } => draw_named(console, sources, answer, *drawing, *explain),
        Work::Picture(picturing) => picture_named(console, sources, picturing),
        Work::Random(wanted) => random(console, wanted),
        Work::Problems(listed, name) => list_problems(console, sources, *listed, *name),
        Work::Border => list_border(console),
    }
}

/// Solves the instance of that name, as [`perform`] does.
pub fn solve_named<S: Sources, W: Write, E: Write>(
    console: &mut Console<W, E>,
    sources: &S,
    options: &Options<'_>,
    layout: Layout,
) -> u8
    ensures { Performs (S.text_of sources.now) (Work.Solve options.now layout)
        (use_of W.contents console.old.writer console.new.writer)
        (λ explain. SaysLine E.contents explain console.old.errors console.new.errors) result }
{
    let explain = options.telling.explain;
    match open(console, sources, options.input, MOST_KEPT, explain) {
        Ok(mut instance) => solve(console, options, layout, &mut instance),
        Err(status) => status,
    }
}

/// Bounds the instance of that name, as [`perform`] does.
pub fn bound_named<S: Sources, W: Write, E: Write>(
    console: &mut Console<W, E>,
    sources: &S,
    options: &Options<'_>,
    steps: Option<u32>,
) -> u8
    ensures { Performs (S.text_of sources.now) (Work.Bound options.now steps)
        (use_of W.contents console.old.writer console.new.writer)
        (λ explain. SaysLine E.contents explain console.old.errors console.new.errors) result }
{
    let explain = options.telling.explain;
    match open(console, sources, options.input, MOST_KEPT, explain) {
        Ok(mut instance) => bound(console, options, steps, &mut instance),
        Err(status) => status,
    }
}

/// Plans the instance of that name.
fn plan_named<S: Sources, W: Write, E: Write>(
    console: &mut Console<W, E>,
    sources: &S,
    options: &Options<'_>,
    layout: Layout,
    steps: Option<u32>,
) -> u8
    ensures { Performs (S.text_of sources.now) (Work.Plan options.now layout steps)
        (use_of W.contents console.old.writer console.new.writer)
        (λ explain. SaysLine E.contents explain console.old.errors console.new.errors) result }
{
    let explain = options.telling.explain;
    match open(console, sources, options.input, MOST_KEPT, explain) {
        Ok(mut instance) => plan(console, options, layout, steps, &mut instance),
        Err(status) => status,
    }
}

/// Traces the solving of the instance of that name.
fn trace_named<S: Sources, W: Write, E: Write>(
    console: &mut Console<W, E>,
    sources: &S,
    options: &Options<'_>,
    style: Style,
) -> u8
    ensures { Performs (S.text_of sources.now) (Work.Trace options.now style)
        (use_of W.contents console.old.writer console.new.writer)
        (λ explain. SaysLine E.contents explain console.old.errors console.new.errors) result }
{
    let explain = options.telling.explain;
    match open(console, sources, options.input, MOST_KEPT, explain) {
        Ok(mut instance) => trace(console, options, style, &mut instance),
        Err(status) => status,
    }
}

/// Judges the answer of that name.
fn check_named<S: Sources, W: Write, E: Write>(
    console: &mut Console<W, E>,
    sources: &S,
    options: &Options<'_>,
    answer: &str,
) -> u8
    ensures { Performs (S.text_of sources.now) (Work.Check options.now answer.entry)
        (use_of W.contents console.old.writer console.new.writer)
        (λ explain. SaysLine E.contents explain console.old.errors console.new.errors) result }
{
    match open_both(console, sources, options, answer) {
        Ok((mut instance, mut answer)) => check(console, options, &mut instance, &mut answer),
        Err(status) => status,
    }
}

/// Evaluates the answer of that name, as [`perform`] does.
pub fn evaluate_named<S: Sources, W: Write, E: Write>(
    console: &mut Console<W, E>,
    sources: &S,
    evaluating: &Evaluating<'_>,
) -> u8
    ensures { Performs (S.text_of sources.now) (Work.Evaluate evaluating.now)
        (use_of W.contents console.old.writer console.new.writer)
        (λ explain. SaysLine E.contents explain console.old.errors console.new.errors) result }
{
    match open_both(console, sources, &evaluating.options, evaluating.answer) {
        Ok((mut instance, mut answer)) => {
            evaluate(console, evaluating, &mut instance, &mut answer)
        }
        Err(status) => status,
    }
}

/// Assesses the answer of that name, beside the bound of that name.
fn assess_named<S: Sources, W: Write, E: Write>(
    console: &mut Console<W, E>,
    sources: &S,
    assessing: &Assessing<'_>,
) -> u8
    ensures { Performs (S.text_of sources.now) (Work.Assess assessing.now)
        (use_of W.contents console.old.writer console.new.writer)
        (λ explain. SaysLine E.contents explain console.old.errors console.new.errors) result }
{
    match open_both(console, sources, &assessing.options, assessing.answer) {
        Ok((mut instance, mut answer)) => {
            assess_beside(console, sources, assessing, &mut instance, &mut answer)
        }
        Err(status) => status,
    }
}

/// Assesses an answer beside the bound of that name.
fn assess_beside<S: Sources, R: Read, T: Read, W: Write, E: Write>(
    console: &mut Console<W, E>,
    sources: &S,
    assessing: &Assessing<'_>,
    instance: &mut Counted<Recorded<'_, R>>,
    answer: &mut Counted<Recorded<'_, T>>,
) -> u8
    ensures { EndsOver (S.text_of sources.now) assessing.now.bound.now
        (use_of W.contents console.old.writer console.new.writer)
        (SaysLine E.contents assessing.now.options.telling.explain console.old.errors
        console.new.errors) result
        (λ bound. EndsAssessing Global (requested assessing.now.options Layout.Two)
        (use_of (bytes_left R.remaining) instance.old instance.new)
        (use_of (bytes_left T.remaining) answer.old answer.new) bound
        (use_of W.contents console.old.writer console.new.writer)
        (SaysLine E.contents assessing.now.options.telling.explain console.old.errors
        console.new.errors) result) }
{
    let explain = assessing.options.telling.explain;
    match open(console, sources, assessing.bound, MOST_BESIDE, explain) {
        Ok(mut bound) => assess(console, assessing, instance, answer, &mut bound),
        Err(status) => status,
    }
}

/// Draws the answer of that name.
fn draw_named<S: Sources, W: Write, E: Write>(
    console: &mut Console<W, E>,
    sources: &S,
    answer: &str,
    drawing: Drawing,
    explain: bool,
) -> u8
    requires { HasWidth drawing }
    ensures { EndsOver (S.text_of sources.now) answer.now
        (use_of W.contents console.old.writer console.new.writer)
        (SaysLine E.contents explain console.old.errors console.new.errors) result
        (λ reader. EndsDrawing Global drawing reader
        (use_of W.contents console.old.writer console.new.writer)
        (SaysLine E.contents explain console.old.errors console.new.errors) result) }
{
    match open(console, sources, answer, MOST_KEPT, explain) {
        Ok(mut answer) => gantt(console, drawing, explain, &mut answer),
        Err(status) => status,
    }
}

/// Opens an instance and an answer, the instance first.
pub(crate) fn open_both<'a, S: Sources, W: Write, E: Write>(
    console: &mut Console<W, E>,
    sources: &S,
    options: &Options<'a>,
    answer: &'a str,
) -> Result<(Opened<'a, S>, Opened<'a, S>), u8>
    ensures opened { IfOk result (λ r. (IfSome (S.text_of sources.now options.now.input.now)
        (λ text. bytes_left S.Source.remaining (inner_of r.0) ≡ Some text))
        × (IfSome (S.text_of sources.now answer.now)
        (λ text. bytes_left S.Source.remaining (inner_of r.1) ≡ Some text))) }
    ensures unopened { IfErr result (λ status. (status ≡ 4)
        × ((S.text_of sources.now options.now.input.now ≡ None)
        ⊎ (S.text_of sources.now answer.now ≡ None))) }
    ensures unwritten { console.new.writer ≡ console.old.writer }
    ensures unsaid { IfOk result (λ _. console.new.errors ≡ console.old.errors) }
    ensures said { IfErr result (λ _. SaysLine E.contents options.now.telling.explain
        console.old.errors console.new.errors (codes "threefield: device fault\n")) }
{
    let explain = options.telling.explain;
    open_pair(console, sources, options.input, answer, explain)
}

/// Opens the instance and the answer of these names, the instance first.
pub(crate) fn open_pair<'a, S: Sources, W: Write, E: Write>(
    console: &mut Console<W, E>,
    sources: &S,
    instance: &'a str,
    answer: &'a str,
    explain: bool,
) -> Result<(Opened<'a, S>, Opened<'a, S>), u8>
    ensures opened { IfOk result (λ r. (IfSome (S.text_of sources.now instance.now)
        (λ text. bytes_left S.Source.remaining (inner_of r.0) ≡ Some text))
        × (IfSome (S.text_of sources.now answer.now)
        (λ text. bytes_left S.Source.remaining (inner_of r.1) ≡ Some text))) }
    ensures unopened { IfErr result (λ status. (status ≡ 4)
        × ((S.text_of sources.now instance.now ≡ None)
        ⊎ (S.text_of sources.now answer.now ≡ None))) }
    ensures unwritten { console.new.writer ≡ console.old.writer }
    ensures unsaid { IfOk result (λ _. console.new.errors ≡ console.old.errors) }
    ensures said { IfErr result (λ _. SaysLine E.contents explain console.old.errors
        console.new.errors (codes "threefield: device fault\n")) }
{
    let instance = open(console, sources, instance, MOST_KEPT, explain)?;
    let answer = open(console, sources, answer, MOST_BESIDE, explain)?;
    Ok((instance, answer))
}

/// Opens the text of that name, which is kept up to so many bytes where it is to be explained.
/// Where it cannot be opened, says so, and gives the status.
pub(crate) fn open<'a, S: Sources, W: Write, E: Write>(
    console: &mut Console<W, E>,
    sources: &S,
    name: &'a str,
    most: usize,
    explain: bool,
) -> Result<Opened<'a, S>, u8>
    ensures opened { IfOk result (λ source. IfSome (S.text_of sources.now name.now)
        (λ text. bytes_left S.Source.remaining (inner_of source) ≡ Some text)) }
    ensures unopened { IfErr result (λ status. (status ≡ 4)
        × (S.text_of sources.now name.now ≡ None)) }
    ensures unwritten { console.new.writer ≡ console.old.writer }
    ensures unsaid { IfOk result (λ _. console.new.errors ≡ console.old.errors) }
    ensures said { IfErr result (λ _. SaysLine E.contents explain console.old.errors
        console.new.errors (codes "threefield: device fault\n")) }
{
    match sources.open(name) {
        Ok(source) => {
            let kept = if explain {
                room(console.alloc, sources.size(name), most)
            } else {
                None
            };
            Ok(Counted::new(Recorded::new(name, source, most, kept)))
        }
        Err(error) => {
            let alloc = console.alloc;
            Err(say_unopened(alloc, &mut console.errors, name, &error, explain))
        }
    }
}

/// Solves, and tells the exit status.
fn solve<R: Read, W: Write, E: Write>(
    console: &mut Console<W, E>,
    options: &Options<'_>,
    layout: Layout,
    instance: &mut Counted<Recorded<'_, R>>,
) -> u8
    ensures { EndsSolving Global (requested options.now layout)
        (use_of (bytes_left R.remaining) instance.old instance.new)
        (use_of W.contents console.old.writer console.new.writer)
        (SaysLine E.contents options.now.telling.explain console.old.errors console.new.errors)
        result }
{
    let alloc = console.alloc;
    let Ok(request) = options.request(alloc, layout) else {
        return say_memory(&mut console.errors);
    };
    let run = run_solve(alloc, &request, instance, &mut console.writer);
    let status = end_run(&run, &mut console.errors);
    let ended = Ended {
        alloc,
        telling: options.telling,
        request: &request,
    };
    ended.tell_solved(&run, instance.inner(), &mut console.errors);
    ended.tell_bound(&run, &mut console.errors);
    status
}

/// Prints a lower bound, and gives the exit status.
fn bound<R: Read, W: Write, E: Write>(
    console: &mut Console<W, E>,
    options: &Options<'_>,
    steps: Option<u32>,
    instance: &mut Counted<Recorded<'_, R>>,
) -> u8
    ensures { EndsBounding Global (requested options.now Layout.Two)
        (use_of (bytes_left R.remaining) instance.old instance.new)
        (use_of W.contents console.old.writer console.new.writer)
        (SaysLine E.contents options.now.telling.explain console.old.errors console.new.errors)
        result }
{
    let alloc = console.alloc;
    let Ok(request) = options.request(alloc, Layout::Two) else {
        return say_memory(&mut console.errors);
    };
    let run = bound_over(console, &request, steps, options.telling.explain, instance);
    let status = end_run(&run, &mut console.errors);
    let ended = Ended {
        alloc,
        telling: options.telling,
        request: &request,
    };
    ended.tell_solved(&run, instance.inner(), &mut console.errors);
    status
}

/// Prints a schedule and how good it is, and gives the exit status.
fn plan<R: Read, W: Write, E: Write>(
    console: &mut Console<W, E>,
    options: &Options<'_>,
    layout: Layout,
    steps: Option<u32>,
    instance: &mut Counted<Recorded<'_, R>>,
) -> u8
    ensures { EndsPlanning Global (requested options.now layout)
        (use_of (bytes_left R.remaining) instance.old instance.new)
        (use_of W.contents console.old.writer console.new.writer)
        (SaysLine E.contents options.now.telling.explain console.old.errors console.new.errors)
        result }
{
    let alloc = console.alloc;
    let Ok(request) = options.request(alloc, layout) else {
        return say_memory(&mut console.errors);
    };
    let run = plan_over(console, &request, steps, options.telling.explain, instance);
    let status = end_run(&run, &mut console.errors);
    let ended = Ended {
        alloc,
        telling: options.telling,
        request: &request,
    };
    ended.tell_planned(&run, instance.inner(), &mut console.errors);
    status
}

/// Prints how an optimal schedule is found, and gives the exit status.
fn trace<R: Read, W: Write, E: Write>(
    console: &mut Console<W, E>,
    options: &Options<'_>,
    style: Style,
    instance: &mut Counted<Recorded<'_, R>>,
) -> u8
    ensures { EndsTracing Global (requested options.now Layout.Two)
        (use_of (bytes_left R.remaining) instance.old instance.new)
        (use_of W.contents console.old.writer console.new.writer)
        (SaysLine E.contents options.now.telling.explain console.old.errors console.new.errors)
        result }
{
    let alloc = console.alloc;
    let Ok(request) = options.request(alloc, Layout::Two) else {
        return say_memory(&mut console.errors);
    };
    let run = run_trace(alloc, &request, style, instance, &mut console.writer);
    let status = end_run(&run, &mut console.errors);
    let ended = Ended {
        alloc,
        telling: options.telling,
        request: &request,
    };
    ended.tell_solved(&run, instance.inner(), &mut console.errors);
    ended.tell_bound(&run, &mut console.errors);
    status
}

/// Judges an answer, and tells the exit status.
fn check<R: Read, S: Read, W: Write, E: Write>(
    console: &mut Console<W, E>,
    options: &Options<'_>,
    instance: &mut Counted<Recorded<'_, R>>,
    answer: &mut Counted<Recorded<'_, S>>,
) -> u8
    ensures { EndsChecking Global (requested options.now Layout.Two)
        (use_of (bytes_left R.remaining) instance.old instance.new)
        (use_of (bytes_left S.remaining) answer.old answer.new)
        (use_of W.contents console.old.writer console.new.writer)
        (SaysLine E.contents options.now.telling.explain console.old.errors console.new.errors)
        result }
{
    let alloc = console.alloc;
    let Ok(request) = options.request(alloc, Layout::Two) else {
        return say_memory(&mut console.errors);
    };
    let run = run_check(alloc, &request, instance, answer, &mut console.writer);
    let status = end_run(&run, &mut console.errors);
    let ended = Ended {
        alloc,
        telling: options.telling,
        request: &request,
    };
    ended.tell_checked(&run, instance.inner(), answer.inner(), &mut console.errors);
    ended.tell_bound(&run, &mut console.errors);
    status
}

/// Tells how good an answer is, and the exit status.
fn evaluate<R: Read, S: Read, W: Write, E: Write>(
    console: &mut Console<W, E>,
    evaluating: &Evaluating<'_>,
    instance: &mut Counted<Recorded<'_, R>>,
    answer: &mut Counted<Recorded<'_, S>>,
) -> u8
    ensures { EndsEvaluating Global evaluating.now.detail
        (requested evaluating.now.options Layout.Two)
        (use_of (bytes_left R.remaining) instance.old instance.new)
        (use_of (bytes_left S.remaining) answer.old answer.new)
        (use_of W.contents console.old.writer console.new.writer)
        (SaysLine E.contents evaluating.now.options.telling.explain console.old.errors
        console.new.errors) result }
{
    let alloc = console.alloc;
    let Ok(request) = evaluating.options.request(alloc, Layout::Two) else {
        return say_memory(&mut console.errors);
    };
    let run = rate_over(console, evaluating, &request, instance, answer);
    let status = end_run(&run, &mut console.errors);
    let ended = Ended {
        alloc,
        telling: evaluating.options.telling,
        request: &request,
    };
    ended.tell_evaluated(&run, instance.inner(), answer.inner(), &mut console.errors);
    status
}

/// Tells how good an answer is by lower bounds, of which a text offers one, and the exit status.
/// The text of the bound is read first.
fn assess<R: Read, S: Read, T: Read, W: Write, E: Write>(
    console: &mut Console<W, E>,
    assessing: &Assessing<'_>,
    instance: &mut Counted<Recorded<'_, R>>,
    answer: &mut Counted<Recorded<'_, S>>,
    bound: &mut Counted<Recorded<'_, T>>,
) -> u8
    ensures { EndsAssessing Global (requested assessing.now.options Layout.Two)
        (use_of (bytes_left R.remaining) instance.old instance.new)
        (use_of (bytes_left S.remaining) answer.old answer.new)
        (use_of (bytes_left T.remaining) bound.old bound.new)
        (use_of W.contents console.old.writer console.new.writer)
        (SaysLine E.contents assessing.now.options.telling.explain console.old.errors
        console.new.errors) result }
{
    match bound_read(console.alloc, bound) {
        Ok(sheet) => assess_offered(console, assessing, instance, answer, sheet),
        Err(fault) => report_bound(&fault, &mut console.errors),
    }
}

/// The same beside the bound that a text says.
fn assess_offered<R: Read, S: Read, W: Write, E: Write>(
    console: &mut Console<W, E>,
    assessing: &Assessing<'_>,
    instance: &mut Counted<Recorded<'_, R>>,
    answer: &mut Counted<Recorded<'_, S>>,
    sheet: BoundSheet<Global>,
) -> u8
    ensures { EndsAssessed Global (Some sheet) (requested assessing.now.options Layout.Two)
        (use_of (bytes_left R.remaining) instance.old instance.new)
        (use_of (bytes_left S.remaining) answer.old answer.new)
        (use_of W.contents console.old.writer console.new.writer)
        (SaysLine E.contents assessing.now.options.telling.explain console.old.errors
        console.new.errors) result }
{
    let alloc = console.alloc;
    let options = &assessing.options;
    let Ok(request) = options.request(alloc, Layout::Two) else {
        return say_memory(&mut console.errors);
    };
    let effort: Effort<Nobody> = Effort::untold(assessing.steps);
    let aids = Aids {
        effort,
        offered: Some(sheet),
    };
    let asked = AssessmentRequest {
        request: &request,
        aids,
    };
    let explain = options.telling.explain;
    let run = assess_over(console, explain, asked, instance, answer);
    let status = end_run(&run, &mut console.errors);
    let ended = Ended {
        alloc,
        telling: options.telling,
        request: &request,
    };
    ended.tell_evaluated(&run, instance.inner(), answer.inner(), &mut console.errors);
    status
}

/// Draws an answer, and tells the exit status.
fn gantt<R: Read, W: Write, E: Write>(
    console: &mut Console<W, E>,
    drawing: Drawing,
    explain: bool,
    answer: &mut Counted<Recorded<'_, R>>,
) -> u8
    requires { HasWidth drawing }
    ensures { EndsDrawing Global drawing
        (use_of (bytes_left R.remaining) answer.old answer.new)
        (use_of W.contents console.old.writer console.new.writer)
        (SaysLine E.contents explain console.old.errors console.new.errors) result }
{
    let run = draw(console.alloc, drawing, answer, &mut console.writer);
    let status = end_run(&run, &mut console.errors);
    let errors = &mut console.errors;
    tell_drawn(
        explain,
        drawing,
        &run,
        answer.inner(),
        errors,
        console.alloc,
    );
    status
}

/// Draws an answer.
pub fn draw<A: Allocator + Copy, R: Read, W: Write>(
    alloc: A,
    drawing: Drawing,
    answer: &mut Counted<R>,
    writer: &mut Counted<W>,
) -> Result<(), RunFault<A>>
    requires { HasWidth drawing }
    ensures { IsOutcome (drawing_run (drawn_as drawing)
        (use_of R.remaining answer.old answer.new))
        (use_of W.contents writer.old writer.new) result }
{
    match drawing {
        Drawing::Chart { columns } => run_gantt(alloc, answer, writer, columns),
        Drawing::Picture(view) => run_picture(alloc, &view, answer, writer),
    }
}

/// Writes a random job table, and gives the exit status.
fn random<W: Write, E: Write>(console: &mut Console<W, E>, wanted: &Wanted<'_>) -> u8
    ensures { EndsRandom wanted.now (use_of W.contents console.old.writer console.new.writer)
        (SaysLine E.contents false console.old.errors console.new.errors) result }
{
    match run_random(console.alloc, wanted) {
        Ok(text) => write_out(console, text.as_slice()),
        Err(fault) => say_no_table(&fault, &mut console.errors),
    }
}

/// Writes a text, and gives the exit status.
pub fn write_out<W: Write, E: Write>(console: &mut Console<W, E>, text: &[u8]) -> u8
    ensures { EndsWriting text.now (use_of W.contents console.old.writer console.new.writer)
        (SaysLine E.contents false console.old.errors console.new.errors) result }
{
    match console.writer.push_all(text) {
        Ok(()) => 0,
        Err(_) => say_device(&mut console.errors),
    }
}
