//! Causes of faults in job tables, each with what is wrong and how to fix it.

/// What may have happened where one kind of text stands in the place of another.
pub const EXCHANGED: &str =
    "A command that takes both takes INPUT first and ANSWER second: perhaps they are exchanged.";

/// The fields of a job.
const FIELDS: &str = "p= is the processing time, w= the weight, d= the due date, r= the release \
                      date, h= the cost.";

/// What a person may have done.
#[derive(Clone, Copy, Debug, PartialEq, Eq)]
pub enum Cause {
    ByteOrderMark,
    ZeroBytes,
    IsAnswer,
    IsFlowShop,
    IsNumbers,
    IsSpreadsheet,
    IsOtherKind,
    NoHeading,
    OtherHeading,
    HeadingAgain,
    MachinesOneWord,
    MachinesForm,
    MachinesRange,
    MachinesPlace,
    UpperCase,
    JobOneWord,
    UnknownLine,
    NumberFirst,
    NoJobNumber,
    JobZero,
    LeadingZero,
    JobOrder,
    JobAfterArc,
    BlankInField,
    Remark,
    NoEquals,
    LongName,
    UnknownField,
    FieldTwice,
    ManyTimes,
    RouteForm,
    RouteColon,
    NoTime,
    DecimalPoint,
    DecimalComma,
    PlusSign,
    Thousands,
    Unit,
    Date,
    Range,
    Clock,
    NoAscii,
    NotANumber,
    TooLarge,
    Negative,
    Formula,
    StepForm,
    TimesNotRising,
    CostFalls,
    ArcBeforeJobs,
    ArcForm,
    ArcStranger,
}

/// What the place of a fault allows.
#[derive(Clone, Copy, Debug, PartialEq, Eq)]
pub enum Place {
    Heading,
    Machines,
    Line,
    Job,
    Arc,
}

impl Place {
    /// What may stand there, in a sentence.
    pub fn allows(self) -> &'static str {
        match self {
            Place::Heading => "The first line of a job table is exactly \"table 1\".",
            Place::Machines => {
                "One line \"machines M\", M from 1 to 1000, may stand right after the heading."
            }
            Place::Line => {
                "Lines begin with \"machines\", \"job\" or \"prec\", in this order, or with \"#\"."
            }
            Place::Job => {
                "A job line is \"job K p=T\" with any of w= d= r= h=, and K counts up from 1."
            }
            Place::Arc => {
                "An arc is \"prec A B\", after the last job: job A is completed before job B \
                 starts."
            }
        }
    }
}

/// What is wrong, and how to fix it.
#[derive(Clone, Copy)]
pub struct Advice {
    /// What the person may have done.
    pub cause: Cause,
    /// Where it happened.
    pub place: Place,
    /// What is wrong, in a sentence.
    pub wrong: &'static str,
    /// How to fix it, in a sentence.
    pub fix: &'static str,
}

impl Cause {
    /// What the table of advice says of it.
    pub fn advice(self) -> Option<&'static Advice> {
        ADVICE.get(self as usize)
    }
}

/// All advice, in the order of the causes.
pub static ADVICE: [Advice; 52] = [
    Advice {
        cause: Cause::ByteOrderMark,
        place: Place::Heading,
        wrong: "The file begins with a byte order mark, which an editor wrote.",
        fix: "Save the file as UTF-8 without a byte order mark.",
    },
    Advice {
        cause: Cause::ZeroBytes,
        place: Place::Heading,
        wrong: "The file has zero bytes: it is no plain text, or it is in UTF-16.",
        fix: "Save it as plain text in UTF-8.",
    },
    Advice {
        cause: Cause::IsAnswer,
        place: Place::Heading,
        wrong: "This is an answer text, and an instance is wanted here.",
        fix: EXCHANGED,
    },
    Advice {
        cause: Cause::IsFlowShop,
        place: Place::Heading,
        wrong: "This looks like a flow shop file of OR-Library, and not like a job table.",
        fix: "Add --format flow --name NAME, or --format jobshop for a job shop.",
    },
    Advice {
        cause: Cause::IsNumbers,
        place: Place::Heading,
        wrong: "It begins with a number, as a weighted tardiness file of OR-Library or orders do.",
        fix: "Add --format wt --jobs N, with the number of jobs of one instance.",
    },
    Advice {
        cause: Cause::IsSpreadsheet,
        place: Place::Heading,
        wrong: "This looks like a file of a spreadsheet, and not like a job table.",
        fix: "Below a line \"table 1\" write a line such as \"job 1 p=3 d=4\" for each of its \
              rows.",
    },
    Advice {
        cause: Cause::IsOtherKind,
        place: Place::Heading,
        wrong: "This looks like JSON, HTML, PDF or a packed file, and not like a job table.",
        fix: "Below a line \"table 1\" write a line such as \"job 1 p=3 d=4\" for each job.",
    },
    Advice {
        cause: Cause::NoHeading,
        place: Place::Heading,
        wrong: "The heading is missing.",
        fix: "Put a line \"table 1\" above this one.",
    },
    Advice {
        cause: Cause::OtherHeading,
        place: Place::Heading,
        wrong: "This is not the heading of a job table.",
        fix: "Write \"table 1\" in lower case, with nothing after it.",
    },
    Advice {
        cause: Cause::HeadingAgain,
        place: Place::Line,
        wrong: "The heading is repeated here.",
        fix: "A file holds one table: leave this line out.",
    },
    Advice {
        cause: Cause::MachinesOneWord,
        place: Place::Machines,
        wrong: "There is a \"=\" between machines and its number.",
        fix: "Write two words, as in \"machines 2\".",
    },
    Advice {
        cause: Cause::MachinesForm,
        place: Place::Machines,
        wrong: "This line has two words: machines and a number.",
        fix: "Write it as in \"machines 2\".",
    },
    Advice {
        cause: Cause::MachinesRange,
        place: Place::Machines,
        wrong: "The number of machines is below 1 or above 1000.",
        fix: "Correct the number, or leave the line out and use --machines.",
    },
    Advice {
        cause: Cause::MachinesPlace,
        place: Place::Machines,
        wrong: "The line \"machines\" stands too late, or twice.",
        fix: "Move it above the first job, and leave one of two out.",
    },
    Advice {
        cause: Cause::UpperCase,
        place: Place::Line,
        wrong: "Upper and lower case differ here.",
        fix: "Write the word in lower case.",
    },
    Advice {
        cause: Cause::JobOneWord,
        place: Place::Job,
        wrong: "There is no space between \"job\" and its number.",
        fix: "Write two words, as in \"job 1\".",
    },
    Advice {
        cause: Cause::UnknownLine,
        place: Place::Line,
        wrong: "No line of a job table begins with this word.",
        fix: "Put \"#\" before it if it is a comment.",
    },
    Advice {
        cause: Cause::NumberFirst,
        place: Place::Line,
        wrong: "This line begins with a number.",
        fix: "A job line begins with \"job\", and a precedence constraint with \"prec\".",
    },
    Advice {
        cause: Cause::NoJobNumber,
        place: Place::Job,
        wrong: "The number of the job is missing or is no number.",
        fix: "Write it after \"job\"; a job is named by a number alone.",
    },
    Advice {
        cause: Cause::JobZero,
        place: Place::Job,
        wrong: "Jobs count from 1, and not from 0.",
        fix: "Add 1 to the number of each job, and to those of all arcs.",
    },
    Advice {
        cause: Cause::LeadingZero,
        place: Place::Job,
        wrong: "The number of a job is written without leading zeros.",
        fix: "Write 1 in place of 01.",
    },
    Advice {
        cause: Cause::JobOrder,
        place: Place::Job,
        wrong: "The jobs are out of their order, or one of them is missing.",
        fix: "Sort the lines by their numbers, and leave no number out.",
    },
    Advice {
        cause: Cause::JobAfterArc,
        place: Place::Arc,
        wrong: "This job comes after a precedence constraint.",
        fix: "Move all lines \"prec\" after the last job.",
    },
    Advice {
        cause: Cause::BlankInField,
        place: Place::Job,
        wrong: "A value is missing, or there is a space next to a \"=\" or a \",\".",
        fix: "Write each field as one word, as in p=3 or p=3,4.",
    },
    Advice {
        cause: Cause::Remark,
        place: Place::Job,
        wrong: "A comment cannot follow a job on its line.",
        fix: "Give the comment a line of its own, with \"#\" first.",
    },
    Advice {
        cause: Cause::NoEquals,
        place: Place::Job,
        wrong: "This word is no field: it has no \"=\".",
        fix: "Write the field's letter, \"=\" and its value, as in p=3, and two times as p=3,4.",
    },
    Advice {
        cause: Cause::LongName,
        place: Place::Job,
        wrong: "A field is named by one lower case letter.",
        fix: FIELDS,
    },
    Advice {
        cause: Cause::UnknownField,
        place: Place::Job,
        wrong: "There is no such field.",
        fix: FIELDS,
    },
    Advice {
        cause: Cause::FieldTwice,
        place: Place::Job,
        wrong: "This field occurs twice in its line.",
        fix: "Leave one of them out.",
    },
    Advice {
        cause: Cause::ManyTimes,
        place: Place::Job,
        wrong: "p= takes one number, or two in a shop.",
        fix: "Write p=3, or p=3,4 for the times on machines 1 and 2.",
    },
    Advice {
        cause: Cause::RouteForm,
        place: Place::Job,
        wrong: "A route is operations TIME@MACHINE, each on another machine, counted from 1.",
        fix: "Write it as in p=3@2,5@1: 3 time steps on machine 2, and then 5 on machine 1.",
    },
    Advice {
        cause: Cause::RouteColon,
        place: Place::Job,
        wrong: "If this is a route, its steps are TIME@MACHINE, with \"@\" and without a colon.",
        fix: "Write 3@1 for 3 time steps on machine 1, and the whole route as in p=3@1,5@2.",
    },
    Advice {
        cause: Cause::NoTime,
        place: Place::Job,
        wrong: "The job has no processing time.",
        fix: "Add p= and the time.",
    },
    Advice {
        cause: Cause::DecimalPoint,
        place: Place::Job,
        wrong: "All numbers are whole, and this one has a decimal point.",
        fix: "Take a finer unit, such as minutes in place of hours.",
    },
    Advice {
        cause: Cause::DecimalComma,
        place: Place::Job,
        wrong: "All numbers are whole, and this one has a comma.",
        fix: "Take a finer unit, such as minutes in place of hours.",
    },
    Advice {
        cause: Cause::PlusSign,
        place: Place::Job,
        wrong: "A number has no \"+\" before it.",
        fix: "Leave the \"+\" out.",
    },
    Advice {
        cause: Cause::Thousands,
        place: Place::Job,
        wrong: "A number is of digits alone, without marks between them.",
        fix: "Write 1000 in place of 1'000 or 1_000.",
    },
    Advice {
        cause: Cause::Unit,
        place: Place::Job,
        wrong: "A number has no unit.",
        fix: "Write digits alone; all times are in one unit of your choice.",
    },
    Advice {
        cause: Cause::Date,
        place: Place::Job,
        wrong: "This looks like a date, and times are whole numbers of time steps.",
        fix: "Count the days or hours from the start of the plan; the page in the browser does \
              that.",
    },
    Advice {
        cause: Cause::Range,
        place: Place::Job,
        wrong: "This looks like a range, and one number is wanted: a range is no time.",
        fix: "Write one number, as in p=4: each time is known before the schedule is made.",
    },
    Advice {
        cause: Cause::Clock,
        place: Place::Job,
        wrong: "This looks like hours and minutes, and times are whole numbers of time steps.",
        fix: "Take the minute as the time step, and write 90 in place of 1:30.",
    },
    Advice {
        cause: Cause::NoAscii,
        place: Place::Job,
        wrong: "A character here is not ASCII, such as a long minus sign or a no-break space.",
        fix: "Write digits, \"-\" and plain spaces.",
    },
    Advice {
        cause: Cause::NotANumber,
        place: Place::Job,
        wrong: "A whole number is wanted here.",
        fix: "Write digits alone, with \"-\" before them if the number is negative.",
    },
    Advice {
        cause: Cause::TooLarge,
        place: Place::Job,
        wrong: "The number is above 4000000000000000000.",
        fix: "Take a coarser unit of time, or a smaller one of cost.",
    },
    Advice {
        cause: Cause::Negative,
        place: Place::Job,
        wrong: "Times, weights and release dates are at least 0.",
        fix: "Due dates and costs alone may be negative.",
    },
    Advice {
        cause: Cause::Formula,
        place: Place::Job,
        wrong: "A cost is no formula: it is a base and then steps TIME:VALUE.",
        fix: "Write it as in h=0,5:10,9:20: 0 at first, 10 from time 5 on, 20 from time 9 on.",
    },
    Advice {
        cause: Cause::StepForm,
        place: Place::Job,
        wrong: "A cost is a base and then steps TIME:VALUE, each with one colon.",
        fix: "Write it as in h=0,5:10,9:20: 0 at first, 10 from time 5 on, 20 from time 9 on.",
    },
    Advice {
        cause: Cause::TimesNotRising,
        place: Place::Job,
        wrong: "The times of a cost have to rise.",
        fix: "Sort the steps by their times, and give each time once.",
    },
    Advice {
        cause: Cause::CostFalls,
        place: Place::Job,
        wrong: "A cost may not fall: no value is below the one before it, the base among them.",
        fix: "Correct the values; costs that fall with time are not solved.",
    },
    Advice {
        cause: Cause::ArcBeforeJobs,
        place: Place::Arc,
        wrong: "This precedence constraint comes before the first job.",
        fix: "Move all lines \"prec\" after the last job.",
    },
    Advice {
        cause: Cause::ArcForm,
        place: Place::Arc,
        wrong: "A precedence constraint has two numbers of jobs, and this line has others.",
        fix: "Write one line for each precedence constraint, as in \"prec 1 3\".",
    },
    Advice {
        cause: Cause::ArcStranger,
        place: Place::Arc,
        wrong: "The precedence constraint names a job that the table does not have.",
        fix: "Correct the number, or add the job's line.",
    },
];
