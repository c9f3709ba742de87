//! Examples of total completion times on one machine.
use super::{Example, Given};

const RATIOS_TABLE: &[u8] = b"table 1
job 1 p=3 w=3
job 2 p=1 w=1
job 3 p=2 w=2
";

pub const RATIOS: Example = Example {
    name: "all ratios equal",
    problem: "1||sumwC",
    given: Given::Table,
    instance: RATIOS_TABLE,
    answer: b"answer 1
problem 1||sumwC
jobs 3
machines 1
value 25
piece 1 1 0 3
piece 2 1 3 4
piece 3 1 4 6
cert pairs
end
",
    ranges: None,
    chart: b"length 6
machine 1 |111233|
",
};

pub const RATIOS_PRMP: Example = Example {
    name: "the same with preemption allowed",
    problem: "1|pmtn|sumwC",
    given: Given::Table,
    instance: RATIOS_TABLE,
    answer: b"answer 1
problem 1|prmp|sumwC
jobs 3
machines 1
value 25
piece 1 1 0 3
piece 2 1 3 4
piece 3 1 4 6
cert pairs
end
",
    ranges: None,
    chart: b"length 6
machine 1 |111233|
",
};

pub const GREATEST_TOTAL: Example = Example {
    name: "the greatest total",
    problem: "1||sumwC",
    given: Given::Table,
    instance: b"table 1
job 1 p=4000000000000000000 w=1
",
    answer: b"answer 1
problem 1||sumwC
jobs 1
machines 1
value 4000000000000000000
piece 1 1 0 4000000000000000000
cert pairs
end
",
    ranges: None,
    chart: b"length 4000000000000000000
machine 1 |111111111111111111111111111111111111111111111111111111111111111111111111|
",
};

pub const GREATER_RATIO: Example = Example {
    name: "the greater ratio first",
    problem: "1||sumwC",
    given: Given::Table,
    instance: b"table 1
job 1 p=3 w=4
job 2 p=2 w=3
",
    answer: b"answer 1
problem 1||sumwC
jobs 2
machines 1
value 26
piece 2 1 0 2
piece 1 1 2 5
cert pairs
end
",
    ranges: None,
    chart: b"length 5
machine 1 |22111|
",
};

pub const NO_WEIGHT: Example = Example {
    name: "a weight of 0",
    problem: "1||sumwC",
    given: Given::Table,
    instance: b"table 1
job 1 p=2 w=0
job 2 p=1 w=3
",
    answer: b"answer 1
problem 1||sumwC
jobs 2
machines 1
value 3
piece 2 1 0 1
piece 1 1 1 3
cert pairs
end
",
    ranges: None,
    chart: b"length 3
machine 1 |211|
",
};

pub const SHORTEST: Example = Example {
    name: "the shortest first",
    problem: "1||sumC",
    given: Given::Table,
    instance: b"table 1
job 1 p=3
job 2 p=1
job 3 p=2
",
    answer: b"answer 1
problem 1||sumC
jobs 3
machines 1
value 10
piece 2 1 0 1
piece 3 1 1 3
piece 1 1 3 6
cert pairs
end
",
    ranges: None,
    chart: b"length 6
machine 1 |233111|
",
};
