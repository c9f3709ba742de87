//! What the text of a bound says.
ghost use Rattle.std.specs.Prelude.{◌≡◌};

use std::alloc::{Allocator, Global};
use std::marker::Model;
use tf_bound::certificate::BoundCertificate;
use tf_model::problem::Problem;

/// A certificate with the problem, the sizes and the value that are stated beside it.
#[derive(Drop)]
pub struct BoundSheet<A: Allocator = Global> {
    pub problem: Problem,
    /// The number of jobs.
    pub jobs: u32,
    /// The number of machines.
    pub machines: u32,
    /// The value that is stated, which need not be the certificate's.
    pub value: i64,
    pub certificate: BoundCertificate<A>,
}

impl<A: Allocator> Model for BoundSheet<A> {
    ghost use Rattle.tf_bound_text.specs.BoundSheetData.{BoundSheetData, basis_of};

    ghost Value = { BoundSheetData };

    ghost view = { λ s. record {
      problem = s.problem;
      jobs = s.jobs;
      machines = s.machines;
      value = s.value;
      basis = basis_of s.certificate;
    } };
}
