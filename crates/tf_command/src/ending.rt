//! How a command ends after a run.
ghost use Rattle.std.specs.Prelude.{◌≡◌};
ghost use Rattle.tf_command.specs.Ending.{line_of, status_after};
ghost use Rattle.tf_command.specs.Wrote.{Wrote};

use crate::report::report;
use std::alloc::Allocator;
use std::io::Write;
use tf_engine::fault::RunFault;
use tf_engine::run_check::Checked;
use tf_evaluate::evaluation::Standing;
use tf_orders::run_orders::OrdersRated;
use tf_planning::writing::Planned;
use tf_text::counted::Counted;

/// What a run gives that nothing stopped.
pub trait ExitStatus {
    ghost use Rattle.std.specs.Prelude.{◌≡◌, ℕ};

    /// The exit status after it.
    ghost status: { Self → ℕ };

    /// The exit status after it.
    fn exit_status(&self) -> u8
        ensures { result ≡ status self.now };
}

impl ExitStatus for () {
    ghost use Rattle.tf_command.specs.Statuses.{status_of_text};

    ghost status = { status_of_text };

    /// 0: an answer, a bound, a trace or a drawing was written.
    fn exit_status(&self) -> u8 {
        0
    }
}

impl ExitStatus for Checked {
    ghost use Rattle.tf_command.specs.Statuses.{status_of_check};

    ghost status = { status_of_check };

    /// 0 where the answer was accepted, and 1 where it was rejected.
    fn exit_status(&self) -> u8 {
        match self {
            Checked::Accepted => 0,
            Checked::OtherTask | Checked::Rejected(_) => 1,
        }
    }
}

impl ExitStatus for Standing {
    ghost use Rattle.tf_command.specs.Statuses.{status_of_standing};

    ghost status = { status_of_standing };

    /// 0 where the schedule is best, 1 where it does not fit, and 6 where it may be beaten.
    fn exit_status(&self) -> u8 {
        match self {
            Standing::Best => 0,
            Standing::Unfit(_) => 1,
            Standing::Beaten | Standing::Unproved => 6,
        }
    }
}

impl ExitStatus for OrdersRated {
    ghost use Rattle.tf_command.specs.Statuses.{status_of_rated};

    ghost status = { status_of_rated };

    /// That of the schedule of a single order, and 0 where a line was written of each.
    fn exit_status(&self) -> u8 {
        match self {
            OrdersRated::Single(standing) => standing.exit_status(),
            OrdersRated::Lines => 0,
        }
    }
}

impl ExitStatus for Planned {
    ghost use Rattle.tf_command.specs.Statuses.{status_of_planned};

    ghost status = { status_of_planned };

    /// 0 where the plan is proved to be optimal, and 6 where it may be beaten.
    fn exit_status(&self) -> u8 {
        match self {
            Planned::Optimal => 0,
            Planned::Open => 6,
        }
    }
}

/// Ends a run: says why it gave nothing, if something stopped it, and gives the exit status.
pub fn end_run<T: ExitStatus, A: Allocator, W: Write>(
    run: &Result<T, RunFault<A>>,
    writer: &mut Counted<W>,
) -> u8
    ensures status { result ≡ status_after T.status run.now }
    ensures line { Wrote W.contents writer.old writer.new (line_of run.now) }
{
    match run {
        Ok(given) => given.exit_status(),
        Err(fault) => report(fault, writer),
    }
}
