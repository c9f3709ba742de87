use super::{Drawn, Machines};
use std::alloc::{AllocError, Global};
use std::test::Fail;

const THREE: &[u8] = b"table 1
job 1 p=39 w=18 d=113 r=515 h=51,627:61
job 2 p=11 w=19 d=212 r=86 h=49,767:59
job 3 p=35 w=0 d=225 r=543 h=89,183:99
prec 1 2
prec 1 3
";

fn is_table(
    alloc: Global,
    machines: Machines,
    jobs: u32,
    wanted: &[u8],
) -> Result<bool, AllocError> {
    let drawn = Drawn::new(alloc, machines, jobs)?;
    Ok(drawn.table(alloc)?.as_bytes() == wanted)
}

#[test]
fn the_first_jobs_are_these(rt: HostRuntime) -> Result<(), Fail> {
    assert!(rt; is_table(rt.alloc(), Machines::One, 3, THREE)?);
    let first = b"table 1\njob 1 p=38,8 w=13 d=515 r=51 h=27,10:37\n";
    assert!(rt; is_table(rt.alloc(), Machines::Shop, 1, first)?);
    Ok(())
}
