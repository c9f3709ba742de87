//! Evaluating the schedules of orders and of pieces, over whatever gives and takes bytes.
ghost use Rattle.std.specs.Prelude.{◌≡◌, false, Some, IfOk, IfErr};
ghost use Rattle.std.specs.declared.alloc.Global.{Global};
ghost use Rattle.tf_asked.specs.Asking.{requested};
ghost use Rattle.tf_asked.specs.declared.options.Work.TheVariants.{Rate as RatesBy};
ghost use Rattle.tf_command.specs.Ending.{EndsRating, SaysLine};
ghost use Rattle.tf_command.specs.Performing.{IsSourceText, Performs, RatesMeasured, RatesNamed};
ghost use Rattle.tf_command.specs.Performing.{AreOthers, RatesAided, RatesBeside, RatesOrders};
ghost use Rattle.tf_command.specs.Performing.{lines_form, source_form};
ghost use Rattle.tf_command.specs.Recorded.{bytes_left};
ghost use Rattle.tf_command.specs.Unread.{IsUnread};
ghost use Rattle.tf_text.specs.Counted.{use_of};

use crate::bounding::orders_over;
use crate::commands::{open, open_both};
use crate::console::Console;
use crate::ending::end_run;
use crate::explained::{Ended, Rated};
use crate::reading::text_named;
use crate::recorded::{MOST_BESIDE, MOST_KEPT, Recorded, room};
use crate::report::{report_bound, say_memory};
use crate::source::Sources;
use std::alloc::Global;
use std::io::{Read, Write};
use tf_asked::aids;
use tf_asked::options::{Options, OrderSource};
use tf_assess::bound_read::bound_read;
use tf_assess::measures::{PosedInstance, posed_in};
use tf_assess::offered::Aids;
use tf_evaluate::evaluation::Detail;
use tf_model::memory::OutOfMemory;
use tf_orders::run_orders::{Measuring, OrderForm, OrdersRequest};
use tf_search::effort::{Effort, Nobody};
use tf_sequencing::rule::Rule;
use tf_text::answer::layout::Layout;
use tf_text::counted::Counted;

/// What orders or pieces are, and what they are rated by.
#[derive(Drop)]
struct Rates {
    form: OrderForm,
    aids: Aids<Nobody>,
    others: Option<PosedInstance>,
}

/// Evaluates the schedules of orders or pieces, with their values by the other objectives where
/// those are asked for. The text of a bound is read first.
pub(crate) fn rate_orders<S: Sources, W: Write, E: Write>(
    console: &mut Console<W, E>,
    sources: &S,
    options: &Options<'_>,
    source: OrderSource<'_>,
    aids: aids::Aids<'_>,
) -> u8
    ensures { Performs (S.text_of sources.now) (RatesBy options.now source.entry aids.entry)
        (use_of W.contents console.old.writer console.new.writer)
        (λ explain. SaysLine E.contents explain console.old.errors console.new.errors) result }
{
    let effort: Effort<Nobody> = Effort::untold(aids.steps);
    match aids.bound {
        Some(name) => rate_beside(console, sources, options, source, effort, name),
        None => {
            let aids = Aids {
                effort,
                offered: None,
            };
            rate_by(console, sources, options, source, aids)
        }
    }
}

// Evaluates them beside the bound of the text of that name.
fn rate_beside<S: Sources, W: Write, E: Write>(
    console: &mut Console<W, E>,
    sources: &S,
    options: &Options<'_>,
    source: OrderSource<'_>,
    effort: Effort<Nobody>,
    name: &str,
) -> u8
    ensures { RatesAided (Some name.entry) (S.text_of sources.now) options.now source.entry
        (use_of W.contents console.old.writer console.new.writer)
        (λ explain. SaysLine E.contents explain console.old.errors console.new.errors) result }
{
    let explain = options.telling.explain;
    match open(console, sources, name, MOST_BESIDE, explain) {
        Ok(mut bound) => rate_offered(console, sources, options, source, effort, &mut bound),
        Err(status) => status,
    }
}

// Evaluates them beside the bound of a text that was opened.
fn rate_offered<S: Sources, R: Read, W: Write, E: Write>(
    console: &mut Console<W, E>,
    sources: &S,
    options: &Options<'_>,
    source: OrderSource<'_>,
    effort: Effort<Nobody>,
    bound: &mut Counted<Recorded<'_, R>>,
) -> u8
    ensures { RatesBeside (S.text_of sources.now) options.now source.entry
        (use_of (bytes_left R.remaining) bound.old bound.new)
        (use_of W.contents console.old.writer console.new.writer)
        (λ explain. SaysLine E.contents explain console.old.errors console.new.errors) result }
{
    match bound_read(console.alloc, bound) {
        Ok(sheet) => {
            let aids = Aids {
                effort,
                offered: Some(sheet),
            };
            rate_by(console, sources, options, source, aids)
        }
        Err(fault) => report_bound(&fault, &mut console.errors),
    }
}

// Evaluates them beside the bound that is offered, if any is.
fn rate_by<S: Sources, W: Write, E: Write>(
    console: &mut Console<W, E>,
    sources: &S,
    options: &Options<'_>,
    source: OrderSource<'_>,
    aids: Aids<Nobody>,
) -> u8
    ensures { RatesOrders options.now.telling.measures (S.text_of sources.now) options.now
        source.entry aids.offered (use_of W.contents console.old.writer console.new.writer)
        (λ explain. SaysLine E.contents explain console.old.errors console.new.errors) result }
{
    if options.telling.measures {
        return rate_measured(console, sources, options, source, aids);
    }
    rate_plainly(console, sources, options, source, aids)
}

// Evaluates them by the objective of the problem alone.
fn rate_plainly<S: Sources, W: Write, E: Write>(
    console: &mut Console<W, E>,
    sources: &S,
    options: &Options<'_>,
    source: OrderSource<'_>,
    aids: Aids<Nobody>,
) -> u8
    ensures { RatesOrders false (S.text_of sources.now) options.now source.entry aids.offered
        (use_of W.contents console.old.writer console.new.writer)
        (λ explain. SaysLine E.contents explain console.old.errors console.new.errors) result }
{
    match source {
        OrderSource::Given(order, detail) => {
            rate_given(console, sources, options, order, detail, aids)
        }
        OrderSource::Ruled(rule, detail) => {
            rate_ruled(console, sources, options, rule, detail, aids)
        }
        OrderSource::Named {
            name,
            goes_on,
            is_numbered,
        } => {
            let form = lines_form(goes_on, is_numbered);
            rate_named(console, sources, options, name, form, aids)
        }
        OrderSource::Drawn(name, detail) => {
            rate_named(
                console,
                sources,
                options,
                name,
                OrderForm::Pieces(detail),
                aids,
            )
        }
    }
}

// How the orders of a text are told.
fn lines_form(goes_on: bool, is_numbered: bool) -> OrderForm
    ensures { result ≡ lines_form goes_on is_numbered }
{
    if is_numbered {
        OrderForm::Numbered { goes_on }
    } else {
        OrderForm::Lines { goes_on }
    }
}

// Evaluates the schedule of an order that the command line gives.
fn rate_given<S: Sources, W: Write, E: Write>(
    console: &mut Console<W, E>,
    sources: &S,
    options: &Options<'_>,
    order: &str,
    detail: Detail,
    aids: Aids<Nobody>,
) -> u8
    ensures { RatesOrders false (S.text_of sources.now) options.now
        (OrderSource.Given order.entry detail) aids.offered
        (use_of W.contents console.old.writer console.new.writer)
        (λ explain. SaysLine E.contents explain console.old.errors console.new.errors) result }
{
    let explain = options.telling.explain;
    match open(console, sources, options.input, MOST_KEPT, explain) {
        Ok(mut instance) => {
            let most = order.len();
            let kept = kept_if(console.alloc, explain, most);
            let order = Recorded::new("--order", order.as_bytes(), most, kept);
            let mut order = Counted::new(order);
            let rates = Rates {
                form: OrderForm::Single(detail),
                aids,
                others: None,
            };
            rate(console, options, rates, &mut instance, &mut order)
        }
        Err(status) => status,
    }
}

// Room for what is kept of a text of so many bytes, where it is to be explained.
fn kept_if(alloc: Global, explain: bool, most: usize) -> Option<Vec<u8>> {
    if explain {
        room(alloc, Some(most), most)
    } else {
        None
    }
}

// Evaluates the schedule of the order that a rule gives.
fn rate_ruled<S: Sources, W: Write, E: Write>(
    console: &mut Console<W, E>,
    sources: &S,
    options: &Options<'_>,
    rule: Rule,
    detail: Detail,
    aids: Aids<Nobody>,
) -> u8
    ensures { RatesOrders false (S.text_of sources.now) options.now (OrderSource.Ruled rule detail)
        aids.offered (use_of W.contents console.old.writer console.new.writer)
        (λ explain. SaysLine E.contents explain console.old.errors console.new.errors) result }
{
    let explain = options.telling.explain;
    match open(console, sources, options.input, MOST_KEPT, explain) {
        Ok(mut instance) => {
            let kept = kept_if(console.alloc, explain, 0);
            let mut order = Counted::new(Recorded::new("--rule", b"".as_slice(), 0, kept));
            let rates = Rates {
                form: OrderForm::Ruled(rule, detail),
                aids,
                others: None,
            };
            rate(console, options, rates, &mut instance, &mut order)
        }
        Err(status) => status,
    }
}

// Rates the orders or the pieces of the text of that name.
fn rate_named<S: Sources, W: Write, E: Write>(
    console: &mut Console<W, E>,
    sources: &S,
    options: &Options<'_>,
    name: &str,
    form: OrderForm,
    aids: Aids<Nobody>,
) -> u8
    ensures { RatesNamed (S.text_of sources.now) options.now name.now form aids.offered
        (use_of W.contents console.old.writer console.new.writer)
        (λ explain. SaysLine E.contents explain console.old.errors console.new.errors) result }
{
    match open_both(console, sources, options, name) {
        Ok((mut instance, mut orders)) => {
            let rates = Rates {
                form,
                aids,
                others: None,
            };
            rate(console, options, rates, &mut instance, &mut orders)
        }
        Err(status) => status,
    }
}

// The same with their values by the other objectives, over texts that are read first.
fn rate_measured<S: Sources, W: Write, E: Write>(
    console: &mut Console<W, E>,
    sources: &S,
    options: &Options<'_>,
    source: OrderSource<'_>,
    aids: Aids<Nobody>,
) -> u8
    ensures { RatesMeasured (S.text_of sources.now) options.now source.entry aids.offered
        (use_of W.contents console.old.writer console.new.writer)
        (SaysLine E.contents options.now.telling.explain console.old.errors console.new.errors)
        result }
{
    let explain = options.telling.explain;
    let instance = match text_named(console, sources, options.input, explain) {
        Ok(text) => text,
        Err(status) => return status,
    };
    let orders = match source_text(console, sources, source, explain) {
        Ok(text) => text,
        Err(status) => return status,
    };
    let alloc = console.alloc;
    let Ok(others) = others_in(alloc, options, &instance) else {
        return say_memory(&mut console.errors);
    };
    let kept = kept_if(alloc, explain, instance.len());
    let instance = Recorded::new(options.input, instance.as_slice(), MOST_KEPT, kept);
    let mut instance = Counted::new(instance);
    let kept = kept_if(alloc, explain, orders.len());
    let orders = Recorded::new(source_name(&source), orders.as_slice(), MOST_KEPT, kept);
    let mut orders = Counted::new(orders);
    let rates = Rates {
        form: source_form(&source),
        aids,
        others,
    };
    rate(console, options, rates, &mut instance, &mut orders)
}

// The text of orders or pieces: that of the command line, nothing for a rule, or that of a name.
// Where it cannot be read, says so, and gives the status.
fn source_text<S: Sources, W: Write, E: Write>(
    console: &mut Console<W, E>,
    sources: &S,
    source: OrderSource<'_>,
    explain: bool,
) -> Result<Vec<u8>, u8>
    ensures text { IfOk result
        (λ text. IsSourceText (S.text_of sources.now) source.entry text.items) }
    ensures kept { IfOk result (λ _. console.new ≡ console.old) }
    ensures unread { IfErr result (IsUnread (S.text_of sources.now)
        (use_of W.contents console.old.writer console.new.writer)
        (SaysLine E.contents explain console.old.errors console.new.errors)) }
{
    match source {
        OrderSource::Given(order, _) => match Vec::from_slice(console.alloc, order.as_bytes()) {
            Ok(text) => Ok(text),
            Err(_) => Err(say_memory(&mut console.errors)),
        },
        OrderSource::Ruled(_, _) => Ok(Vec::new(console.alloc)),
        OrderSource::Named { name, .. } => text_named(console, sources, name, explain),
        OrderSource::Drawn(name, _) => text_named(console, sources, name, explain),
    }
}

// What the orders or pieces are called where they are explained.
fn source_name<'a>(source: &OrderSource<'a>) -> &'a str {
    match source {
        OrderSource::Given(_, _) => "--order",
        OrderSource::Ruled(_, _) => "--rule",
        OrderSource::Named { name, .. } => name,
        OrderSource::Drawn(name, _) => name,
    }
}

// What they are.
fn source_form(source: &OrderSource<'_>) -> OrderForm
    ensures { result ≡ source_form source.now }
{
    match source {
        OrderSource::Given(_, detail) => OrderForm::Single(*detail),
        OrderSource::Ruled(rule, detail) => OrderForm::Ruled(*rule, *detail),
        OrderSource::Named {
            goes_on,
            is_numbered,
            ..
        } => lines_form(*goes_on, *is_numbered),
        OrderSource::Drawn(_, detail) => OrderForm::Pieces(*detail),
    }
}

// The instance that gives the other objectives, where the options and its text are well formed.
fn others_in(
    alloc: Global,
    options: &Options<'_>,
    text: &[u8],
) -> Result<Option<PosedInstance>, OutOfMemory>
    ensures { IfOk result
        (λ others. AreOthers (requested options.now Layout.Two) text.now others) }
{
    let request = options.request(alloc, Layout::Two)?;
    posed_in(alloc, &request, text)
}

// Tells how good the schedules of orders are, and the exit status.
fn rate<R: Read, S: Read, W: Write, E: Write>(
    console: &mut Console<W, E>,
    options: &Options<'_>,
    rates: Rates,
    instance: &mut Counted<Recorded<'_, R>>,
    orders: &mut Counted<Recorded<'_, S>>,
) -> u8
    ensures { EndsRating Global rates.form rates.aids.offered (requested options.now Layout.Two)
        rates.others
        (use_of (bytes_left R.remaining) instance.old instance.new)
        (use_of (bytes_left S.remaining) orders.old orders.new)
        (use_of W.contents console.old.writer console.new.writer)
        (SaysLine E.contents options.now.telling.explain console.old.errors console.new.errors)
        result }
{
    let alloc = console.alloc;
    let Ok(request) = options.request(alloc, Layout::Two) else {
        return say_memory(&mut console.errors);
    };
    let Rates { form, aids, others } = rates;
    let is_bounded = aids.offered.is_some();
    let asked = OrdersRequest {
        request: &request,
        form,
    };
    let explain = options.telling.explain;
    let measuring = Measuring { aids, others };
    let run = orders_over(console, explain, asked, measuring, instance, orders);
    let status = end_run(&run, &mut console.errors);
    let ended = Ended {
        alloc,
        telling: options.telling,
        request: &request,
    };
    let rated = Rated {
        form,
        is_bounded,
        run: &run,
    };
    ended.tell_rated(rated, instance.inner(), orders.inner(), &mut console.errors);
    status
}
