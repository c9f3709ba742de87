//! The instance that a run read, read again.
use std::alloc::Global;
use tf_advice::source::Source;
use tf_engine::request::Form;
use tf_model::instance::Instance;
use tf_read::flow_shop::read_flowshop;
use tf_read::job_table::read_table;
use tf_read::weighted_tardiness::read_wt;

/// The instance that the source's text holds, where it holds one and there is memory for it.
pub(crate) fn instance_in(alloc: Global, form: &Form, source: &Source<'_>) -> Option<Instance> {
    let read = match form {
        Form::Table => read_table(alloc, source.text),
        Form::Wt { jobs, index } => read_wt(alloc, source.text, *jobs, *index),
        Form::Flow { name, pair } => {
            read_flowshop(alloc, source.text, name.as_str().as_bytes(), *pair)
        }
    };
    read.ok()
}
