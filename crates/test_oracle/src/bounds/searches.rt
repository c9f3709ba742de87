//! What the searches find on tasks whose optima are known.
use super::tasks::{Sample, task_of};
use std::alloc::Global;
use std::test::Fail;
use tf_search::machine_search::search_machines;
use tf_search::multiplier_search::multiplier_bound;
use tf_search::price_search::price_bound;

fn by_machines(alloc: Global, sample: Sample) -> Result<Option<i128>, Fail> {
    let task = task_of(alloc, sample)?;
    match search_machines(alloc, &task)? {
        Some(found) => Ok(Some(found.value)),
        None => Ok(None),
    }
}

fn by_multipliers(alloc: Global, sample: Sample) -> Result<i128, Fail> {
    let task = task_of(alloc, sample)?;
    Ok(multiplier_bound(alloc, &task)?.value)
}

fn by_prices(alloc: Global, sample: Sample) -> Result<i128, Fail> {
    let task = task_of(alloc, sample)?;
    Ok(price_bound(alloc, &task, 100)?.value)
}

#[test]
fn each_search_finds_the_optimum_of_a_small_task(rt: HostRuntime) -> Result<(), Fail> {
    let alloc = rt.alloc();
    assert!(rt; by_machines(alloc, Sample::Released)? == Some(1));
    assert!(rt; by_multipliers(alloc, Sample::Tardy)? == 3);
    assert!(rt; by_prices(alloc, Sample::Tardy)? == 3);
    assert!(rt; by_prices(alloc, Sample::Late)? == 2);
    assert!(rt; by_prices(alloc, Sample::Overlapping)? == 6);
    Ok(())
}
