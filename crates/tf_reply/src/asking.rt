//! What a caller asks for, in numbers and bytes.
ghost use Rattle.std.specs.Prelude.{◌≡◌, ◌+◌, ◌<◌, ◌≤◌, length, IfOk, IfSome, IfNone, OkIff, OnErr};
ghost use Rattle.std.specs.Prelude.{OnOk, OnSome};
ghost use Rattle.tf_asked.specs.Asking.{form_asked, requested};
ghost use Rattle.tf_engine.specs.FormData.{InWt, InFlow};
ghost use Rattle.tf_model.specs.Limit.{most_machines};
ghost use Rattle.tf_reply.specs.Asked.{IsAsked, flagged, pair_said, form_said, request_said};
ghost use Rattle.tf_reply.specs.Asked.{problem_part, name_part, instance_part, answer_part};
ghost use Rattle.tf_reply.specs.Asked.{layout_said, detail_said};
ghost use Rattle.tf_reply.specs.WellFormed.{HasAllowedColumns, HasAllowedSteps, IsAllowed};
ghost use Rattle.tf_reply.specs.WellFormed.{IsAllowedForm, IsWellFormed, IsWithin};

use tf_asked::options::{FormOption, MOST_STEPS, Options, Telling};
use tf_evaluate::evaluation::Detail;
use tf_model::limit::{MOST_JOBS, MOST_MACHINES};
use tf_text::answer::layout::Layout;
use tf_text::chart::MOST_COLUMNS;

/// The numbers of a request. A number that may be absent has a flag before it, which is 0 where it
/// is absent. What a command does not use is not looked at.
#[repr(C)]
#[derive(Clone, Copy)]
pub struct Asking {
    /// How many bytes of the texts are the problem line. They come first.
    pub problem: usize,
    /// How many bytes behind it are the name of an instance.
    pub name: usize,
    /// How many bytes behind that are the instance. The rest is the answer.
    pub instance: usize,
    pub has_machines: u32,
    /// The number of machines.
    pub machines: u32,
    /// The form of the instance: 0 is a job table, 1 `wt`, and any other number `flow`.
    pub form: u32,
    /// With `wt`: the number of jobs of each instance.
    pub jobs: u32,
    /// With `wt`: which instance, from 1.
    pub index: u32,
    /// With `flow`: whether two machines are named.
    pub has_pair: u32,
    /// The first of the two machines, from 0.
    pub first: u32,
    /// The second one.
    pub second: u32,
    /// The version of the answer text that is written: 1, and 2 for any other number.
    pub version: u32,
    /// Whether the certificate's arithmetic is written too.
    pub certificate: u32,
    /// The most columns of a chart.
    pub columns: u32,
    pub has_steps: u32,
    /// The steps of the search for prices.
    pub steps: u32,
}

// The texts of a request.
#[derive(Clone, Copy)]
struct Texts<'a> {
    problem: &'a [u8],
    name: &'a [u8],
    instance: &'a [u8],
    answer: &'a [u8],
}

/// What is asked for, and over which texts.
#[derive(Drop)]
pub struct Asked<'a> {
    pub options: Options<'a>,
    pub instance: &'a [u8],
    pub answer: &'a [u8],
}

// A number that may be absent.
fn given(flag: u32, number: u32) -> Option<u32>
    ensures { result ≡ flagged flag number }
{
    match flag {
        0 => None,
        _ => Some(number),
    }
}

impl Asking {
    // The texts, out of bytes in which they stand one behind the other. None where there are fewer
    // bytes than these numbers say.
    fn texts<'a>(&self, bytes: &'a [u8]) -> Option<Texts<'a>>
        ensures problem { IfSome result (λ t. t.problem.now ≡ problem_part self.now bytes.now) }
        ensures name { IfSome result (λ t. t.name.now ≡ name_part self.now bytes.now) }
        ensures instance { IfSome result (λ t. t.instance.now ≡ instance_part self.now bytes.now) }
        ensures answer { IfSome result (λ t. t.answer.now ≡ answer_part self.now bytes.now) }
        ensures whole { OnSome result
            (self.now.problem + self.now.name + self.now.instance ≤ length bytes.now) }
        ensures short { IfNone result
            (length bytes.now < self.now.problem + self.now.name + self.now.instance) }
    {
        let (problem, bytes) = bytes.split_at_checked(self.problem)?;
        let (name, bytes) = bytes.split_at_checked(self.name)?;
        let (instance, answer) = bytes.split_at_checked(self.instance)?;
        Some(Texts {
            problem,
            name,
            instance,
            answer,
        })
    }

    /// What is asked for with these bytes, in which the texts stand one behind the other; or what
    /// is wrong with the request, in the words of the program.
    pub fn read<'a>(&self, bytes: &'a [u8]) -> Result<Asked<'a>, &'static str>
        ensures asked { IfOk result (IsAsked self.now bytes.now) }
        ensures formed { OnOk result (IsWellFormed self.now bytes.now) }
        ensures malformed { OnErr result (¬ (IsWellFormed self.now bytes.now)) }
    {
        let Some(texts) = self.texts(bytes) else {
            return Err("the texts end early");
        };
        Ok(Asked {
            options: self.options(texts.problem, texts.name)?,
            instance: texts.instance,
            answer: texts.answer,
        })
    }

    // The options that these numbers and texts mean.
    fn options<'a>(&self, problem: &'a [u8], name: &'a [u8]) -> Result<Options<'a>, &'static str>
        ensures request { IfOk result (λ options. (layout : Layout) →
            requested options layout ≡ request_said self.now problem.now name.now layout) }
        ensures allowed { OnOk result (IsAllowed
            (request_said self.now problem.now name.now (layout_said self.now.version))) }
        ensures forbidden { OnErr result (¬ (IsAllowed
            (request_said self.now problem.now name.now (layout_said self.now.version)))) }
    {
        let Ok(problem) = std::str::from_utf8(problem) else {
            return Err("the problem is no text");
        };
        let machines = self.machines_given()?;
        Ok(Options {
            problem,
            form: self.form_option(name)?,
            machines,
            input: "",
            telling: Telling::nothing(),
        })
    }

    // The number of machines, if one is given.
    fn machines_given(&self) -> Result<Option<u32>, &'static str>
        ensures { OkIff result
            (IfSome (flagged self.now.has_machines self.now.machines) (IsWithin 1 most_machines))
            (flagged self.now.has_machines self.now.machines) }
    {
        if self.has_machines != 0 && (self.machines == 0 || self.machines > MOST_MACHINES) {
            return Err("--machines takes a number from 1 to 1000");
        }
        Ok(given(self.has_machines, self.machines))
    }

    // The form of the instance.
    fn form_option<'a>(&self, name: &'a [u8]) -> Result<FormOption<'a>, &'static str>
        ensures form { IfOk result (λ form. form_asked form ≡ form_said self.now name.now) }
        ensures allowed { OnOk result (IsAllowedForm (form_said self.now name.now)) }
        ensures forbidden { OnErr result (¬ (IsAllowedForm (form_said self.now name.now))) }
    {
        match self.form {
            0 => Ok(FormOption::Table),
            1 => self.wt(),
            _ => self.flow(name),
        }
    }

    fn wt<'a>(&self) -> Result<FormOption<'a>, &'static str>
        ensures form { IfOk result (λ form. form_asked form ≡ InWt self.now.jobs self.now.index) }
        ensures allowed { OnOk result (IsAllowedForm (InWt self.now.jobs self.now.index)) }
        ensures forbidden { OnErr result
            (¬ (IsAllowedForm (InWt self.now.jobs self.now.index))) }
    {
        if self.jobs == 0 || self.jobs > MOST_JOBS as u32 {
            return Err("--format wt needs --jobs, a number from 1 to 100000");
        }
        if self.index == 0 {
            return Err("--index takes a number from 1 to 4294967295");
        }
        Ok(FormOption::Wt {
            jobs: self.jobs,
            index: self.index,
        })
    }

    fn flow<'a>(&self, name: &'a [u8]) -> Result<FormOption<'a>, &'static str>
        ensures form { IfOk result (λ form. form_asked form ≡
            InFlow name.now (pair_said self.now.has_pair self.now.first self.now.second)) }
        ensures allowed { OnOk result (IsAllowedForm
            (InFlow name.now (pair_said self.now.has_pair self.now.first self.now.second))) }
        ensures forbidden { OnErr result (¬ (IsAllowedForm
            (InFlow name.now (pair_said self.now.has_pair self.now.first self.now.second)))) }
    {
        let Ok(name) = std::str::from_utf8(name) else {
            return Err("the name is no text");
        };
        if self.has_pair != 0 && (self.first > MOST_MACHINES || self.second > MOST_MACHINES) {
            return Err("--pair takes two numbers up to 1000 with a comma between them");
        }
        Ok(FormOption::Flow {
            name,
            pair: self.pair(),
        })
    }

    // The two machines that count, if they are named.
    fn pair(&self) -> Option<(u32, u32)>
        ensures { result ≡ pair_said self.now.has_pair self.now.first self.now.second }
    {
        match self.has_pair {
            0 => None,
            _ => Some((self.first, self.second)),
        }
    }

    /// The version of the answer text that is written.
    pub fn layout(&self) -> Layout
        ensures { result ≡ layout_said self.now.version }
    {
        match self.version {
            1 => Layout::One,
            _ => Layout::Two,
        }
    }

    /// How much is reported of an answer.
    pub fn detail(&self) -> Detail
        ensures { result ≡ detail_said self.now.certificate }
    {
        match self.certificate {
            0 => Detail::Summary,
            _ => Detail::WithArithmetic,
        }
    }

    /// The most columns of a chart, or what is wrong with their number.
    pub fn chart_columns(&self) -> Result<u32, &'static str>
        ensures { OkIff result (HasAllowedColumns self.now) self.now.columns }
    {
        if self.columns == 0 || self.columns > MOST_COLUMNS {
            return Err("--columns takes a number from 1 to 1000");
        }
        Ok(self.columns)
    }

    /// The steps of the search for prices, if they are given, or what is wrong with their number.
    pub fn price_steps(&self) -> Result<Option<u32>, &'static str>
        ensures { OkIff result (HasAllowedSteps self.now)
            (flagged self.now.has_steps self.now.steps) }
    {
        if self.has_steps != 0 && (self.steps == 0 || self.steps > MOST_STEPS) {
            return Err("--steps takes a number from 1 to 1000000");
        }
        Ok(given(self.has_steps, self.steps))
    }
}
