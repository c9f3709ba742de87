//! From a reader of an instance to the instance whose dates are marked.
ghost use Rattle.tf_bounding.specs.ShopTimes.{job_shop_said, table_said};
ghost use Rattle.tf_dated.specs.DatedInstance.{dated_said, without_routes};
ghost use Rattle.tf_engine.specs.FormData.{form_of};
ghost use Rattle.tf_engine.specs.Parts.{ReadsTo};

use std::alloc::Allocator;
use std::io::Read;
use tf_bounding::instance_read::instance_read;
use tf_bounding::timed_read::{job_shop_read, routed_table_read};
use tf_engine::fault::RunFault;
use tf_engine::request::Form;
use tf_model::instance::Instance;
use tf_text::counted::Counted;

/// The instance that the reader's text of this form holds. A job table may have routes, and where
/// no pair of machines is named a file is one of job shops: a flow shop file is one too.
pub(crate) fn dated_read<A: Allocator + Copy, B: Allocator, R: Read>(
    alloc: A,
    form: &Form<B>,
    reader: &mut Counted<R>,
) -> Result<Instance<A>, RunFault<A>>
    ensures { ReadsTo (dated_said (form_of form.now)) R.remaining reader.old reader.new result }
{
    match form {
        Form::Table => table_read(alloc, reader),
        Form::Wt { .. } => instance_read(alloc, form, reader),
        Form::Flow { name, pair } => match pair {
            Some(_) => instance_read(alloc, form, reader),
            None => shop_read(alloc, name.as_str().as_bytes(), reader),
        },
    }
}

// A job table, with routes or without them.
fn table_read<A: Allocator + Copy, R: Read>(
    alloc: A,
    reader: &mut Counted<R>,
) -> Result<Instance<A>, RunFault<A>>
    ensures { ReadsTo (λ text. without_routes (table_said text)) R.remaining reader.old
        reader.new result }
{
    let routed = routed_table_read(alloc, reader)?;
    Ok(routed.instance)
}

// The instance of this name of a file of shops.
fn shop_read<A: Allocator + Copy, R: Read>(
    alloc: A,
    name: &[u8],
    reader: &mut Counted<R>,
) -> Result<Instance<A>, RunFault<A>>
    ensures { ReadsTo (λ text. without_routes (job_shop_said name.now text)) R.remaining
        reader.old reader.new result }
{
    let routed = job_shop_read(alloc, name, reader)?;
    Ok(routed.instance)
}
