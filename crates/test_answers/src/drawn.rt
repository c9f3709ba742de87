//! A chart of as many columns as there may be.
use std::test::Fail;
use test_runs::runs::{draw_into, ensure};

/// The chart of two jobs that share the greatest length, in a thousand columns.
fn half_and_half(rt: &HostRuntime) -> Result<Vec<u8>, Fail> {
    let front = b"length 4000000000000000000\nmachine 1 |";
    let mut chart = Vec::from_slice(rt.alloc(), front)?;
    for _ in 0..500 {
        chart.push(b'1')?;
    }
    for _ in 0..500 {
        chart.push(b'2')?;
    }
    chart.extend_from_slice(b"|\n")?;
    Ok(chart)
}

#[test]
fn the_greatest_length_is_drawn_in_a_thousand_columns(rt: HostRuntime) -> Result<(), Fail> {
    let long = b"answer 1
problem 1||sumC
jobs 2
machines 1
value 0
piece 1 1 0 2000000000000000000
piece 2 1 2000000000000000000 4000000000000000000
cert pairs
end
";
    let mut out = Vec::new(rt.alloc());
    let result = draw_into(rt.alloc(), long, 1_000, &mut out);
    ensure(result == Ok(()), "refused")?;
    ensure(out == half_and_half(&rt)?, "another chart")
}
