//! Examples of the greatest lateness and cost on one machine.
use super::{Example, Given};

/// Arcs that form a cycle.
pub const TWO_ARCS: &[u8] = b"table 1
job 1 p=2 h=0,5:10
job 2 p=3 h=0,9:7
job 3 p=4 h=1,9:8
prec 1 2
prec 2 1
";

pub const COSTS: Example = Example {
    name: "costs and an arc",
    problem: "1|prec|hmax",
    given: Given::Table,
    instance: b"table 1
job 1 p=2 h=0,5:10
job 2 p=3 h=0,9:7
job 3 p=4 h=1,9:8
prec 3 1
",
    answer: b"answer 1
problem 1|prec|hmax
jobs 3
machines 1
value 10
piece 3 1 0 4
piece 1 1 4 6
piece 2 1 6 9
cert last 1 3
end
",
    ranges: None,
    chart: b"length 9
machine 1 |333311222|
",
};

pub const EQUAL_DUE: Example = Example {
    name: "equal due dates",
    problem: "1||Lmax",
    given: Given::Table,
    instance: b"table 1
job 1 p=1 d=5
job 2 p=1 d=5
",
    answer: b"answer 1
problem 1||Lmax
jobs 2
machines 1
value -3
piece 1 1 0 1
piece 2 1 1 2
cert last 1 2
end
",
    ranges: None,
    chart: b"length 2
machine 1 |12|
",
};

pub const DUE_ARC: Example = Example {
    name: "due dates and an arc",
    problem: "1|prec|Lmax",
    given: Given::Table,
    instance: b"table 1
job 1 p=1 d=6
job 2 p=2 d=2
job 3 p=3 d=5
prec 1 2
",
    answer: b"answer 1
problem 1|prec|Lmax
jobs 3
machines 1
value 1
piece 1 1 0 1
piece 2 1 1 3
piece 3 1 3 6
cert last 1 2 3
end
",
    ranges: Some("cert last 1-3"),
    chart: b"length 6
machine 1 |122333|
",
};

pub const PREEMPTED: Example = Example {
    name: "a job preempted",
    problem: "1|rj,prmp|Lmax",
    given: Given::Table,
    instance: b"table 1
job 1 r=0 p=4 d=10
job 2 r=1 p=2 d=4
job 3 r=8 p=1 d=8
",
    answer: b"answer 1
problem 1|rj,prmp|Lmax
jobs 3
machines 1
value 1
piece 1 1 0 1
piece 2 1 1 3
piece 1 1 3 6
piece 3 1 8 9
cert window 3
end
",
    ranges: None,
    chart: b"length 9
machine 1 |122111..3|
",
};

pub const ALIKE: Example = Example {
    name: "two jobs alike",
    problem: "1|rj,prmp|Lmax",
    given: Given::Table,
    instance: b"table 1
job 1 r=0 p=2 d=5
job 2 r=0 p=2 d=5
",
    answer: b"answer 1
problem 1|rj,prmp|Lmax
jobs 2
machines 1
value -1
piece 1 1 0 2
piece 2 1 2 4
cert window 1 2
end
",
    ranges: None,
    chart: b"length 4
machine 1 |1122|
",
};

pub const FAR_DUE: Example = Example {
    name: "a due date far away",
    problem: "1||Lmax",
    given: Given::Table,
    instance: b"table 1
job 1 p=1 d=100
",
    answer: b"answer 1
problem 1||Lmax
jobs 1
machines 1
value -99
piece 1 1 0 1
cert last 1
end
",
    ranges: None,
    chart: b"length 1
machine 1 |1|
",
};

pub const GREATEST_LATENESS: Example = Example {
    name: "the greatest lateness",
    problem: "1||Lmax",
    given: Given::Table,
    instance: b"table 1
job 1 p=4000000000000000000 d=-4000000000000000000
",
    answer: b"answer 1
problem 1||Lmax
jobs 1
machines 1
value 8000000000000000000
piece 1 1 0 4000000000000000000
cert last 1
end
",
    ranges: None,
    chart: b"length 4000000000000000000
machine 1 |111111111111111111111111111111111111111111111111111111111111111111111111|
",
};

pub const WHOLE_WINDOW: Example = Example {
    name: "a window of all jobs",
    problem: "1|rj,prmp|Lmax",
    given: Given::Table,
    instance: b"table 1
job 1 r=1 p=1 d=6
job 2 r=0 p=3 d=6
",
    answer: b"answer 1
problem 1|rj,prmp|Lmax
jobs 2
machines 1
value -2
piece 2 1 0 1
piece 1 1 1 2
piece 2 1 2 4
cert window 1 2
end
",
    ranges: None,
    chart: b"length 4
machine 1 |2122|
",
};

pub const LATEST_RELEASE: Example = Example {
    name: "the latest release",
    problem: "1|rj,prmp|Lmax",
    given: Given::Table,
    instance: b"table 1
job 1 r=3999999999999999999 p=1 d=0
",
    answer: b"answer 1
problem 1|rj,prmp|Lmax
jobs 1
machines 1
value 4000000000000000000
piece 1 1 3999999999999999999 4000000000000000000
cert window 1
end
",
    ranges: None,
    chart: b"length 4000000000000000000
machine 1 |........................................................................|
",
};

pub const ARCS_IGNORED: Example = Example {
    name: "arcs that the class ignores",
    problem: "1||hmax",
    given: Given::Table,
    instance: TWO_ARCS,
    answer: b"answer 1
problem 1||hmax
jobs 3
machines 1
value 7
piece 1 1 0 2
piece 3 1 2 6
piece 2 1 6 9
cert last 1 2 3
end
",
    ranges: Some("cert last 1-3"),
    chart: b"length 9
machine 1 |113333222|
",
};

pub const ARCS_IGNORED_PRMP: Example = Example {
    name: "the same arcs with preemption allowed",
    problem: "1|prmp|hmax",
    given: Given::Table,
    instance: TWO_ARCS,
    answer: b"answer 1
problem 1|prmp|hmax
jobs 3
machines 1
value 7
piece 1 1 0 2
piece 3 1 2 6
piece 2 1 6 9
cert last 1 2 3
end
",
    ranges: Some("cert last 1-3"),
    chart: b"length 9
machine 1 |113333222|
",
};
