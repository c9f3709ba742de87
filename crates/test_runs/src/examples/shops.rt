//! Examples of shops with two machines.
use super::{Example, Given};

const FLOW_TABLE: &[u8] = b"table 1
job 1 p=3,6
job 2 p=5,2
job 3 p=1,2
job 4 p=6,6
job 5 p=7,5
";

const FLOW_IDLE_TABLE: &[u8] = b"table 1
job 1 p=0,0
job 2 p=0,0
";

pub const FLOW: Example = Example {
    name: "a flow shop",
    problem: "F2||Cmax",
    given: Given::Table,
    instance: FLOW_TABLE,
    answer: b"answer 1
problem F2||Cmax
jobs 5
machines 2
value 24
piece 3 1 0 1
piece 1 1 1 4
piece 4 1 4 10
piece 5 1 10 17
piece 2 1 17 22
piece 3 2 1 3
piece 1 2 4 10
piece 4 2 10 16
piece 5 2 17 22
piece 2 2 22 24
cert split second 5 1 3 4 5
end
",
    ranges: Some("cert split second 5 1 3-5"),
    chart: b"length 24
machine 1 |3111444444555555522222..|
machine 2 |.33.111111444444.5555522|
",
};

pub const FLOW_ZEROS: Example = Example {
    name: "operations of time 0",
    problem: "F2||Cmax",
    given: Given::Table,
    instance: b"table 1
job 1 p=0,3
job 2 p=4,0
job 3 p=0,0
",
    answer: b"answer 1
problem F2||Cmax
jobs 3
machines 2
value 4
piece 2 1 0 4
piece 1 2 0 3
cert split second 0 1 2 3
end
",
    ranges: Some("cert split second 0 1-3"),
    chart: b"length 4
machine 1 |2222|
machine 2 |111.|
",
};

pub const FLOW_IDLE: Example = Example {
    name: "a flow shop without work",
    problem: "F2||Cmax",
    given: Given::Table,
    instance: FLOW_IDLE_TABLE,
    answer: b"answer 1
problem F2||Cmax
jobs 2
machines 2
value 0
cert split first 0
end
",
    ranges: None,
    chart: b"length 0
machine 1 ||
machine 2 ||
",
};

pub const FLOW_TURNED: Example = Example {
    name: "the lesser time first",
    problem: "F2||Cmax",
    given: Given::Table,
    instance: b"table 1
job 1 p=2,1
job 2 p=1,2
",
    answer: b"answer 1
problem F2||Cmax
jobs 2
machines 2
value 4
piece 2 1 0 1
piece 1 1 1 3
piece 2 2 1 3
piece 1 2 3 4
cert split first 1
end
",
    ranges: None,
    chart: b"length 4
machine 1 |211.|
machine 2 |.221|
",
};

pub const FLOW_ONE: Example = Example {
    name: "a flow shop of one job",
    problem: "F2||Cmax",
    given: Given::Table,
    instance: b"table 1
job 1 p=1,2
",
    answer: b"answer 1
problem F2||Cmax
jobs 1
machines 2
value 3
piece 1 1 0 1
piece 1 2 1 3
cert split first 1
end
",
    ranges: None,
    chart: b"length 3
machine 1 |1..|
machine 2 |.11|
",
};

pub const OPEN: Example = Example {
    name: "an open shop",
    problem: "O2||Cmax",
    given: Given::Table,
    instance: b"table 1
job 1 p=4,1
job 2 p=1,4
job 3 p=2,2
",
    answer: b"answer 1
problem O2||Cmax
jobs 3
machines 2
value 7
piece 2 1 0 1
piece 1 1 1 5
piece 3 1 5 7
piece 3 2 0 2
piece 2 2 2 6
piece 1 2 6 7
cert machine 1
end
",
    ranges: None,
    chart: b"length 7
machine 1 |2111133|
machine 2 |3322221|
",
};

pub const FLOW_PRMP: Example = Example {
    name: "a flow shop with preemption allowed",
    problem: "F2|prmp|Cmax",
    given: Given::Table,
    instance: FLOW_TABLE,
    answer: b"answer 1
problem F2|prmp|Cmax
jobs 5
machines 2
value 24
piece 3 1 0 1
piece 1 1 1 4
piece 4 1 4 10
piece 5 1 10 17
piece 2 1 17 22
piece 3 2 1 3
piece 1 2 4 10
piece 4 2 10 16
piece 5 2 17 22
piece 2 2 22 24
cert split second 5 1 3 4 5
end
",
    ranges: Some("cert split second 5 1 3-5"),
    chart: b"length 24
machine 1 |3111444444555555522222..|
machine 2 |.33.111111444444.5555522|
",
};

pub const OPEN_IDLE: Example = Example {
    name: "an open shop without work",
    problem: "O2||Cmax",
    given: Given::Table,
    instance: FLOW_IDLE_TABLE,
    answer: b"answer 1
problem O2||Cmax
jobs 2
machines 2
value 0
cert machine 1
end
",
    ranges: None,
    chart: b"length 0
machine 1 ||
machine 2 ||
",
};

pub const OPEN_ONE_LONG: Example = Example {
    name: "an open shop of one long job",
    problem: "O2||Cmax",
    given: Given::Table,
    instance: b"table 1
job 1 p=5,5
job 2 p=1,1
",
    answer: b"answer 1
problem O2||Cmax
jobs 2
machines 2
value 10
piece 2 1 0 1
piece 1 1 5 10
piece 1 2 0 5
piece 2 2 5 6
cert job 1
end
",
    ranges: None,
    chart: b"length 10
machine 1 |2....11111|
machine 2 |111112....|
",
};

pub const OPEN_FROM_TWO: Example = Example {
    name: "an open shop led from machine 2",
    problem: "O2||Cmax",
    given: Given::Table,
    instance: b"table 1
job 1 p=5,2
job 2 p=1,2
",
    answer: b"answer 1
problem O2||Cmax
jobs 2
machines 2
value 7
piece 1 1 0 5
piece 2 1 5 6
piece 2 2 0 2
piece 1 2 5 7
cert job 1
end
",
    ranges: None,
    chart: b"length 7
machine 1 |111112.|
machine 2 |22...11|
",
};
