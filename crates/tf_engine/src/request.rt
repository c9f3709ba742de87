//! What a run is asked for.
use crate::text::Text;
use std::alloc::{Allocator, Global};
use std::marker::Model;
use tf_text::answer::layout::Layout;

/// The form of an instance text.
#[derive(Drop)]
pub enum Form<A: Allocator = Global> {
    /// A job table.
    Table,
    /// A weighted tardiness file in OR-Library's layout.
    Wt {
        /// The number of jobs of each instance.
        jobs: u32,
        /// Which instance, from 1.
        index: u32,
    },
    /// A flow shop file in OR-Library's layout.
    Flow {
        /// The name of the instance.
        name: Text<A>,
        /// The two machines whose times count, from 0; all of them where there is none.
        pair: Option<(u32, u32)>,
    },
}

/// A problem, the form of the instance text, the number of machines where the caller gives one, and
/// the version of the answer text.
#[derive(Drop)]
pub struct Request<A: Allocator = Global> {
    /// The problem in three-field notation.
    pub problem: Text<A>,
    pub form: Form<A>,
    pub machines: Option<u32>,
    /// The version in which an answer is written. A text of either is read.
    pub layout: Layout,
}

impl<A: Allocator> Model for Request<A> {
    ghost use Rattle.tf_engine.specs.RequestData.{RequestData};
    ghost use Rattle.tf_engine.specs.FormData.{form_of};

    ghost Value = { RequestData };

    ghost view = { λ r. record {
      problem = r.problem;
      form = form_of r.form;
      machines = r.machines;
      layout = r.layout;
    } };
}
