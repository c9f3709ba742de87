//! Examples from files in OR-Library's layouts.
use super::{Example, Given};

/// Instances of three jobs. The second one has times 4, 1 and 3.
pub const TARDINESS: &[u8] = b"2 3 1\n1 2 4\n5 -2 9\n4 1 3\n2 2 3\n6 7 8\n";

/// An instance of two jobs on three machines.
pub const SHOP: &[u8] = b" instance demo
 +++++++++++++
 three machines, own example
 2 3
 0 4 1 9 2 1
 0 2 1 9 2 5
";

pub const SECOND_OF_TWO: Example = Example {
    name: "the second of two instances",
    problem: "1||sumwC",
    given: Given::Tardiness { jobs: 3, index: 2 },
    instance: TARDINESS,
    answer: b"answer 1
problem 1||sumwC
jobs 3
machines 1
value 30
piece 2 1 0 1
piece 3 1 1 4
piece 1 1 4 8
cert pairs
end
",
    ranges: None,
    chart: b"length 8
machine 1 |23331111|
",
};

pub const FIRST_OF_TWO: Example = Example {
    name: "the first of two instances",
    problem: "1||Lmax",
    given: Given::Tardiness { jobs: 3, index: 1 },
    instance: TARDINESS,
    answer: b"answer 1
problem 1||Lmax
jobs 3
machines 1
value 5
piece 2 1 0 3
piece 1 1 3 5
piece 3 1 5 6
cert last 2
end
",
    ranges: None,
    chart: b"length 6
machine 1 |222113|
",
};

pub const TWO_OF_THREE: Example = Example {
    name: "two machines of three",
    problem: "F2||Cmax",
    given: Given::FlowShop {
        name: "demo",
        pair: Some((0, 2)),
    },
    instance: SHOP,
    answer: b"answer 1
problem F2||Cmax
jobs 2
machines 2
value 8
piece 2 1 0 2
piece 1 1 2 6
piece 2 2 2 7
piece 1 2 7 8
cert split first 2
end
",
    ranges: None,
    chart: b"length 8
machine 1 |221111..|
machine 2 |..222221|
",
};
