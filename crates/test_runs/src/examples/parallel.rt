//! Examples on parallel machines.
use super::{Example, Given};

const DEALT_TABLE: &[u8] = b"table 1
job 1 p=1
job 2 p=2
job 3 p=3
job 4 p=4
job 5 p=5
";

pub const FOURS: Example = Example {
    name: "three jobs of 4",
    problem: "P2|prmp|Cmax",
    given: Given::Table,
    instance: b"table 1
job 1 p=4
job 2 p=4
job 3 p=4
",
    answer: b"answer 1
problem P2|prmp|Cmax
jobs 3
machines 2
value 6
piece 1 1 0 4
piece 2 1 4 6
piece 2 2 0 2
piece 3 2 2 6
cert load
end
",
    ranges: None,
    chart: b"length 6
machine 1 |111122|
machine 2 |223333|
",
};

pub const ONES: Example = Example {
    name: "thirds of the work in whole steps",
    problem: "P2|prmp|Cmax",
    given: Given::Table,
    instance: b"table 1
job 1 p=1
job 2 p=1
job 3 p=1
",
    answer: b"answer 1
problem P2|prmp|Cmax
jobs 3
machines 2
value 2
piece 1 1 0 1
piece 2 1 1 2
piece 3 2 0 1
cert load
end
",
    ranges: None,
    chart: b"length 2
machine 1 |12|
machine 2 |3.|
",
};

pub const ONE_LONG: Example = Example {
    name: "one long job",
    problem: "P3|prmp|Cmax",
    given: Given::Table,
    instance: b"table 1
job 1 p=9
job 2 p=1
job 3 p=1
",
    answer: b"answer 1
problem P3|prmp|Cmax
jobs 3
machines 3
value 9
piece 1 1 0 9
piece 2 2 0 1
piece 3 2 1 2
cert job 1
end
",
    ranges: None,
    chart: b"length 9
machine 1 |111111111|
machine 2 |23.......|
machine 3 |.........|
",
};

pub const DEALT: Example = Example {
    name: "dealt to two machines",
    problem: "P2||sumC",
    given: Given::Table,
    instance: DEALT_TABLE,
    answer: b"answer 1
problem P2||sumC
jobs 5
machines 2
value 22
piece 1 1 0 1
piece 3 1 1 4
piece 5 1 4 9
piece 2 2 0 2
piece 4 2 2 6
cert ranks 5 4 3 2 1
end
",
    ranges: None,
    chart: b"length 9
machine 1 |133355555|
machine 2 |224444...|
",
};

pub const MACHINE_EACH: Example = Example {
    name: "a machine for each job",
    problem: "P7||sumC",
    given: Given::Table,
    instance: DEALT_TABLE,
    answer: b"answer 1
problem P7||sumC
jobs 5
machines 7
value 15
piece 1 1 0 1
piece 2 2 0 2
piece 3 3 0 3
piece 4 4 0 4
piece 5 5 0 5
cert ranks 5 4 3 2 1
end
",
    ranges: None,
    chart: b"length 5
machine 1 |1....|
machine 2 |22...|
machine 3 |333..|
machine 4 |4444.|
machine 5 |55555|
machine 6 |.....|
machine 7 |.....|
",
};
