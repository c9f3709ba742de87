//! Problems without a solver, and the runs over them.
use refusing::Refusing;
use std::alloc::{AllocError, Global};
use test_runs::devices::{Sink, Source};
use test_runs::examples::Given;
use test_runs::runs::{Ending, ending_of, request};
use tf_assess::offered::Aids;
use tf_assess::run_assess::{AssessmentRequest, run_assess};
use tf_bounding::run_bound::run_bound;
use tf_engine::request::Request;
use tf_evaluate::evaluation::{Standing, WhyUnfit};
use tf_planning::run_plan::run_plan;
use tf_planning::writing::Planned;
use tf_schedule::schedule::PieceFault;
use tf_search::effort::{Effort, Nobody};
use tf_text::answer::layout::Layout;
use tf_text::counted::Counted;

/// How many steps a search for prices takes.
const STEPS: Option<u32> = Some(2);

/// A problem, an instance text, its bound as it is printed, the cost of its plan as the plan's text
/// says it, and an answer that is assessed.
#[derive(Clone, Copy)]
pub struct Case {
    pub problem: &'static str,
    pub given: Given,
    pub instance: &'static [u8],
    pub bound: &'static [u8],
    pub planned: &'static [u8],
    pub answer: &'static [u8],
    pub assessed: Standing,
}

/// Three jobs of 4 on two machines: one machine has to take two of them.
const TWO_MACHINES: Case = Case {
    problem: "P2||Cmax",
    given: Given::Table,
    instance: b"table 1\njob 1 p=4\njob 2 p=4\njob 3 p=4\n",
    bound: b"bound 1\nproblem P2||Cmax\njobs 3\nmachines 2\nvalue 8\ncrowd 1 1 2 3\nend\n",
    planned: b"answer 2\nproblem P2||Cmax\njobs 3\nmachines 2\nvalue 8\n",
    answer: b"answer 1\nproblem P2||Cmax\njobs 3\nmachines 2\nvalue 8\npiece 1 1 0 4\n\
        piece 3 1 4 8\npiece 2 2 0 4\ncert load\nend\n",
    assessed: Standing::Best,
};

/// On machine 3 no job comes before 3, and its times are 8. Job 2 waits a step there.
const THREE_MACHINES: Case = Case {
    problem: "F3|prmu|Cmax",
    given: Given::FlowShop {
        name: "tiny",
        pair: None,
    },
    instance: b"instance tiny\n3 3\n0 2 1 3 2 1\n0 4 1 1 2 2\n0 1 1 2 2 5\n",
    bound: b"bound 1\nproblem F3|prmu|Cmax\njobs 3\nmachines 3\nvalue 11\nmachine 3 1 2 3\nend\n",
    planned: b"answer 2\nproblem F3|prmu|Cmax\njobs 3\nmachines 3\nvalue 11\n",
    answer: b"answer 1\nproblem F3|prmu|Cmax\njobs 3\nmachines 3\nvalue 12\npiece 3 1 0 1\n\
        piece 1 1 1 3\npiece 2 1 3 7\npiece 3 2 1 3\npiece 1 2 3 6\npiece 2 2 7 8\n\
        piece 3 3 3 8\npiece 1 3 8 9\npiece 2 3 10 12\ncert load\nend\n",
    assessed: Standing::Unproved,
};

/// Multipliers 1, 1/2 and 3/2 bound the weighted tardiness by 5/2, rounded up.
const TARDINESS: Case = Case {
    problem: "1||sumwT",
    given: Given::Table,
    instance: b"table 1\njob 1 p=2 w=1 d=3\njob 2 p=1 w=2 d=5\njob 3 p=3 w=2 d=3\n",
    bound: b"bound 1\nproblem 1||sumwT\njobs 3\nmachines 1\nvalue 3\n\
        multipliers 1 1000000 1000000 500000 1500000\nend\n",
    planned: b"answer 2\nproblem 1||sumwT\njobs 3\nmachines 1\nvalue 3\n",
    answer: b"answer 1\nproblem 1||sumwT\njobs 3\nmachines 1\nvalue 0\npiece 1 1 0 2\n\
        piece 2 1 2 2\ncert load\nend\n",
    assessed: Standing::Unfit(WhyUnfit::NoSchedule(PieceFault::EmptyPiece(2))),
};

/// A chain of 3, 2 and 4 steps.
const CHAIN: Case = Case {
    problem: "P2|prec|Cmax",
    given: Given::Table,
    instance: b"table 1\njob 1 p=3\njob 2 p=2\njob 3 p=4\nprec 1 2\nprec 2 3\n",
    bound: b"bound 1\nproblem P2|prec|Cmax\njobs 3\nmachines 2\nvalue 9\njob 1\nend\n",
    planned: b"answer 2\nproblem P2|prec|Cmax\njobs 3\nmachines 2\nvalue 9\n",
    answer: b"answer 1\nproblem P2|prec|Cmax\njobs 3\nmachines 2\nvalue 9\npiece 1 1 0 3\n\
        piece 3 1 5 9\npiece 2 2 3 5\ncert load\nend\n",
    assessed: Standing::Best,
};

/// By due date the times come to 2, and then to 5, which is more than 4.
const LATE_JOBS: Case = Case {
    problem: "1||sumU",
    given: Given::Table,
    instance: b"table 1\njob 1 p=2 d=2\njob 2 p=3 d=4\n",
    bound: b"bound 1\nproblem 1||sumU\njobs 2\nmachines 1\nvalue 1\nkept 1 2\nend\n",
    planned: b"answer 2\nproblem 1||sumU\njobs 2\nmachines 1\nvalue 1\n",
    answer: b"answer 1\nproblem 1||sumU\njobs 2\nmachines 1\nvalue 1\npiece 1 1 0 2\n\
        piece 2 1 2 5\ncert load\nend\n",
    assessed: Standing::Best,
};

pub const CASES: [Case; 5] = [TWO_MACHINES, THREE_MACHINES, TARDINESS, CHAIN, LATE_JOBS];

/// What is asked for.
pub fn request_of(rt: &HostRuntime, case: &Case) -> Result<Request, AllocError> {
    request(rt, case.problem, case.given, Layout::One)
}

/// A case that is run on a heap.
#[derive(Clone, Copy)]
pub struct Run<'a> {
    pub heap: &'a Refusing<Global>,
    pub request: &'a Request,
    pub case: &'a Case,
}

impl Run<'_> {
    /// How printing the bound ends.
    pub fn bound(&self, instance: &mut Source<'_>, sink: &mut Sink) -> Ending {
        let mut reader = Counted::new(instance);
        let mut writer = Counted::new(sink);
        let effort: Effort<Nobody> = Effort::untold(STEPS);
        match run_bound(self.heap, self.request, effort, &mut reader, &mut writer) {
            Ok(()) => Ending::Answered,
            Err(fault) => ending_of(&fault),
        }
    }

    /// How well the instance is planned, or how else planning it ends.
    pub fn plan(&self, instance: &mut Source<'_>, sink: &mut Sink) -> Result<Planned, Ending> {
        let mut reader = Counted::new(instance);
        let mut writer = Counted::new(sink);
        let effort: Effort<Nobody> = Effort::untold(STEPS);
        match run_plan(self.heap, self.request, effort, &mut reader, &mut writer) {
            Ok(planned) => Ok(planned),
            Err(fault) => Err(ending_of(&fault)),
        }
    }

    /// What the answer is assessed as, or how else assessing it ends.
    pub fn assess(
        &self,
        instance: &mut Source<'_>,
        answer: &mut Source<'_>,
        sink: &mut Sink,
    ) -> Result<Standing, Ending> {
        let mut reader = Counted::new(instance);
        let mut other = Counted::new(answer);
        let mut writer = Counted::new(sink);
        let effort: Effort<Nobody> = Effort::untold(STEPS);
        let asked = AssessmentRequest {
            request: self.request,
            aids: Aids {
                effort,
                offered: None,
            },
        };
        match run_assess(self.heap, asked, &mut reader, &mut other, &mut writer) {
            Ok(assessed) => Ok(assessed),
            Err(fault) => Err(ending_of(&fault)),
        }
    }
}
