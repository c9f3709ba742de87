//! Growths that readers of OR-Library files ask for.
use refusing::Refusing;
use std::alloc::Global;
use test_runs::examples::files::{SHOP, TARDINESS};
use tf_model::instance::Instance;
use tf_model::job::{Job, Times};
use tf_read::fault::ReadFault;
use tf_read::flow_shop::FlowReader;
use tf_read::weighted_tardiness::WtReader;
use tf_words::feed::Feed;

type Heap = Refusing<Global>;

/// The times, the weight and the due date of a job.
type Fields = (Times, Option<i64>, Option<i64>);

fn has_fields(job: &Job<&Heap>, fields: &Fields) -> bool {
    (job.times, job.weight, job.due) == *fields && job.release.is_none() && job.cost.is_none()
}

fn have_fields(jobs: &[Job<&Heap>], fields: &[Fields]) -> bool {
    for (job, fields) in jobs.iter().zip(fields) {
        if !has_fields(job, fields) {
            return false;
        }
    }
    jobs.len() == fields.len()
}

/// The instance has these jobs, this number of machines, and no arcs.
fn is_instance(
    read: Result<Instance<&Heap>, ReadFault>,
    machines: Option<u32>,
    jobs: &[Fields],
) -> bool {
    match read {
        Ok(instance) => {
            instance.machines() == machines
                && instance.arcs().is_empty()
                && have_fields(instance.jobs(), jobs)
        }
        Err(_) => false,
    }
}

/// The second of the instances of three jobs.
const SECOND: &[Fields] = &[
    (Times::One(4), Some(2), Some(6)),
    (Times::One(1), Some(2), Some(7)),
    (Times::One(3), Some(3), Some(8)),
];

/// The demo on its first and last machine.
const FIRST_AND_LAST: &[Fields] = &[
    (Times::Two(4, 1), None, None),
    (Times::Two(2, 5), None, None),
];

fn is_without_room(alloc: Global, granted: u64) -> bool {
    let heap = Refusing::new(alloc, granted);
    WtReader::new(&heap, 3, 2).is_err() && heap.has_refused()
}

fn second(heap: &Heap) -> Result<Instance<&Heap>, ReadFault> {
    let mut reader = WtReader::new(heap, 3, 2)?;
    reader.feed(TARDINESS);
    reader.finish()
}

fn is_second_of_two_growths(alloc: Global) -> bool {
    let heap = Refusing::new(alloc, 2);
    is_instance(second(&heap), None, SECOND) && !heap.has_refused()
}

/// A reader of what no text has is made without a growth.
fn is_made_without_room(alloc: Global, jobs: u32, index: u32) -> bool {
    let heap = Refusing::new(alloc, 0);
    WtReader::new(&heap, jobs, index).is_ok() && !heap.has_refused()
}

/// So many growths are asked for to make a reader, and none after that; none at all where no text
/// has the instance.
#[test]
fn a_weighted_tardiness_reader_grows_at_the_beginning_alone(rt: HostRuntime) {
    let alloc = rt.alloc();
    assert!(rt; is_without_room(alloc, 0) && is_without_room(alloc, 1));
    assert!(rt; is_second_of_two_growths(alloc));
    assert!(rt; is_made_without_room(alloc, 0, 1) && is_made_without_room(alloc, 100_001, 1));
    assert!(rt; is_made_without_room(alloc, 3, 0));
}

fn demo(heap: &Heap) -> FlowReader<'static, &Heap> {
    let mut reader = FlowReader::new(heap, b"demo", Some((0, 2)));
    reader.feed(SHOP);
    reader
}

fn is_told_at_the_end(alloc: Global, granted: u64) -> bool {
    let heap = Refusing::new(alloc, granted);
    let reader = demo(&heap);
    let has_refused = heap.has_refused();
    reader.finish().err() == Some(ReadFault::OutOfMemory) && has_refused
}

fn is_demo_of_three_growths(alloc: Global) -> bool {
    let heap = Refusing::new(alloc, 3);
    is_instance(demo(&heap).finish(), Some(2), FIRST_AND_LAST) && !heap.has_refused()
}

#[test]
fn a_growth_refused_behind_the_sizes_is_told_at_the_end(rt: HostRuntime) {
    for granted in 0..3 {
        assert!(rt; is_told_at_the_end(rt.alloc(), granted));
    }
    assert!(rt; is_demo_of_three_growths(rt.alloc()));
}

/// The demo on its first two machines.
const FIRST_TWO: &[Fields] = &[
    (Times::Two(4, 9), None, None),
    (Times::Two(2, 9), None, None),
];

fn is_demo_of_all_machines(alloc: Global) -> bool {
    let heap = Refusing::new(alloc, 3);
    let mut reader = FlowReader::new(&heap, b"demo", None);
    reader.feed(SHOP);
    is_instance(reader.finish(), Some(3), FIRST_TWO)
}

#[test]
fn without_a_pair_the_first_two_of_all_machines_are_read(rt: HostRuntime) {
    assert!(rt; is_demo_of_all_machines(rt.alloc()));
}
