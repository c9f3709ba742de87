//! From a reader of an instance to the times of its jobs, in a shop on all machines of its file, in
//! a job shop along their routes.
ghost use Rattle.std.specs.Prelude.{◌≡◌, ◌≤◌, length, Ok, Err, IfOk, MatchResult};
ghost use Rattle.tf_model.specs.Limit.{most_bytes, most_machines};
ghost use Rattle.tf_posed.specs.ProblemData.{is_job_shop};
ghost use Rattle.tf_routes.specs.RoutedData.{HasRoutes};
ghost use Rattle.tf_engine.specs.Faults.{stop_of};
ghost use Rattle.tf_engine.specs.FormData.{form_of};
ghost use Rattle.tf_engine.specs.Parts.{ReadsTo, StopsBy, instance_said};
ghost use Rattle.tf_bounding.specs.ShopTimes.{machines_of, is_too_much, shop_said};
ghost use Rattle.tf_bounding.specs.ShopTimes.{job_shop_said, self_timed_said};
ghost use Rattle.tf_bounding.specs.ShopTimes.{table_said, timed_said, with_routes_said};

use crate::instance_read::instance_read;
use crate::shop_words::times_by_machine;
use std::alloc::Allocator;
use std::io::Read;
use tf_engine::fault::RunFault;
use tf_engine::request::Form;
use tf_model::instance::Instance;
use tf_model::prepare::Refusal;
use tf_model::problem::Env;
use tf_prepare::routed::MOST_TIMES;
use tf_prepare::timed::TimedInstance;
use tf_read::flow_shop::read_flowshop;
use tf_routes::job_shop::read_job_shop;
use tf_routes::routed::RoutedInstance;
use tf_routes::routed_table::read_routed_table;
use tf_text::counted::Counted;
use tf_text::input::read_all;

/// The instance that the reader's text of this form holds, with the times of its jobs. Where it is
/// for a shop, and a flow shop file is read of which no pair of machines is named, the times are
/// those on all machines of the file. For a job shop a job table has routes, and in place of a flow
/// shop file a job shop file is read.
pub fn timed_read<A: Allocator + Copy, B: Allocator, R: Read>(
    alloc: A,
    form: &Form<B>,
    env: Env,
    reader: &mut Counted<R>,
) -> Result<TimedInstance<A>, RunFault<A>>
    ensures { ReadsTo (timed_said (form_of form.now) env) R.remaining reader.old reader.new result }
{
    match form {
        Form::Table => {
            if is_job_shop(env) {
                table_timed(alloc, reader)
            } else {
                self_timed_read(alloc, form, reader)
            }
        }
        Form::Wt { .. } => self_timed_read(alloc, form, reader),
        Form::Flow { name, pair } => match pair {
            Some(_) => self_timed_read(alloc, form, reader),
            None => {
                let name = name.as_str().as_bytes();
                if is_job_shop(env) {
                    job_shop_timed(alloc, name, reader)
                } else if env.is_shop() {
                    shop_read(alloc, name, reader)
                } else {
                    self_timed_read(alloc, form, reader)
                }
            }
        },
    }
}

fn is_job_shop(env: Env) -> bool
    ensures { result ≡ is_job_shop env }
{
    matches!(env, Env::JobShop)
}

// A job table with the routes of its jobs, as times.
fn table_timed<A: Allocator + Copy, R: Read>(
    alloc: A,
    reader: &mut Counted<R>,
) -> Result<TimedInstance<A>, RunFault<A>>
    ensures { ReadsTo (λ text. with_routes_said (table_said text)) R.remaining reader.old
        reader.new result }
{
    let routed = routed_table_read(alloc, reader)?;
    Ok(TimedInstance::routed(routed))
}

// The instance of this name of a job shop file, as times.
fn job_shop_timed<A: Allocator + Copy, R: Read>(
    alloc: A,
    name: &[u8],
    reader: &mut Counted<R>,
) -> Result<TimedInstance<A>, RunFault<A>>
    ensures { ReadsTo (λ text. with_routes_said (job_shop_said name.now text)) R.remaining
        reader.old reader.new result }
{
    let routed = job_shop_read(alloc, name, reader)?;
    Ok(TimedInstance::routed(routed))
}

/// A job table with the routes of its jobs.
pub fn routed_table_read<A: Allocator + Copy, R: Read>(
    alloc: A,
    reader: &mut Counted<R>,
) -> Result<RoutedInstance<A>, RunFault<A>>
    ensures said { ReadsTo table_said R.remaining reader.old reader.new result }
    ensures routed { IfOk result (λ r. HasRoutes most_machines r) }
{
    let text = read_all(alloc, reader)?;
    Ok(read_routed_table(alloc, text.as_slice())?)
}

/// The instance of this name of a job shop file, with the routes of its jobs.
pub fn job_shop_read<A: Allocator + Copy, R: Read>(
    alloc: A,
    name: &[u8],
    reader: &mut Counted<R>,
) -> Result<RoutedInstance<A>, RunFault<A>>
    ensures said { ReadsTo (job_shop_said name.now) R.remaining reader.old reader.new result }
    ensures routed { IfOk result (λ r. HasRoutes most_machines r) }
{
    let text = read_all(alloc, reader)?;
    let routed = read_job_shop(alloc, text.as_slice(), name)?;
    let _machines = machines_of(&routed.instance);
    Ok(routed)
}

// With the times that the jobs have themselves.
fn self_timed_read<A: Allocator + Copy, B: Allocator, R: Read>(
    alloc: A,
    form: &Form<B>,
    reader: &mut Counted<R>,
) -> Result<TimedInstance<A>, RunFault<A>>
    ensures { ReadsTo (self_timed_said (form_of form.now)) R.remaining reader.old reader.new
        result }
{
    let instance = instance_read(alloc, form, reader)?;
    Ok(TimedInstance::self_timed(instance))
}

// The instance of this name of a flow shop file, with the times on all machines.
fn shop_read<A: Allocator + Copy, R: Read>(
    alloc: A,
    name: &[u8],
    reader: &mut Counted<R>,
) -> Result<TimedInstance<A>, RunFault<A>>
    ensures { ReadsTo (shop_said name.now) R.remaining reader.old reader.new result }
{
    let text = read_all(alloc, reader)?;
    shop_in(alloc, name, text.as_slice())
}

fn shop_in<A: Allocator + Copy>(
    alloc: A,
    name: &[u8],
    text: &[u8],
) -> Result<TimedInstance<A>, RunFault<A>>
    requires { length text.now ≤ most_bytes }
    ensures { MatchResult result (λ timed. shop_said name.now text.now ≡ Ok timed)
        (λ e. StopsBy (λ refused. shop_said name.now text.now ≡ Err refused) (stop_of e)) }
{
    let instance = read_flowshop(alloc, text, name, None)?;
    if is_too_much(&instance) {
        return Err(RunFault::Task(Refusal::TotalTooLarge));
    }
    let sizes = (instance.len(), machines_of(&instance) as usize);
    let times = times_by_machine(alloc, name, sizes, text)?;
    Ok(TimedInstance::by_machine(instance, times))
}

// The number of machines of an instance of a flow shop file, which gives it.
fn machines_of<A: Allocator>(instance: &Instance<A>) -> u32
    ensures value { result ≡ machines_of instance.now }
    ensures few { result ≤ most_machines }
{
    instance.machines().unwrap_or(0)
}

// Whether the processing times on all machines are too many.
fn is_too_much<A: Allocator>(instance: &Instance<A>) -> bool
    ensures { result ≡ is_too_much instance.now }
{
    instance.len() as u64 * u64::from(machines_of(instance)) > MOST_TIMES
}
