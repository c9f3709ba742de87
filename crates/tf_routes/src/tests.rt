//! Texts whose routes were worked by hand.
use crate::job_shop::read_job_shop;
use crate::route::Route;
use crate::routed::RoutedInstance;
use crate::routed_table::read_routed_table;
use std::alloc::Global;
use tf_model::job::Times;
use tf_read::fault::ReadFault;

type Read = Result<RoutedInstance<Global>, ReadFault>;

const SHOP: &[u8] =
    b" instance a\n 1 2\n 0 9 1 9\n instance b\n on three machines\n 2 3\n 2 1 0 3 1 6\n 1 8\n \
    2 5 0 0\n";

const TABLE: &[u8] =
    b"table 1\nmachines 3\njob 1 d=9 p=3@2,5@1,4@3\n# p=@\njob 2 p=7 w=2\njob 3 p=1@3\n";

fn is_route(route: &Route<Global>, steps: &[(u32, u64)]) -> bool {
    for (step, wanted) in route.as_slice().iter().zip(steps) {
        if step.machine != wanted.0 || step.time != wanted.1 {
            return false;
        }
    }
    route.as_slice().len() == steps.len()
}

/// The instance has these routes, and jobs of these times.
fn has_routes(read: &Read, times: &[i64], routes: &[&[(u32, u64)]]) -> bool {
    let Ok(shop) = read else {
        return false;
    };
    for (route, steps) in shop.routes.iter().zip(routes) {
        if !is_route(route, steps) {
            return false;
        }
    }
    for (job, time) in shop.instance.jobs().iter().zip(times) {
        if job.times != Times::One(*time) {
            return false;
        }
    }
    shop.routes.len() == routes.len() && shop.instance.len() == times.len()
}

#[test]
fn a_job_shop_has_the_routes_of_its_jobs(rt: HostRuntime) {
    let alloc = rt.alloc();
    let shop = read_job_shop(alloc, SHOP, b"b");
    let routes: &[&[(u32, u64)]] = &[&[(2, 1), (0, 3), (1, 6)], &[(1, 8), (2, 5), (0, 0)]];
    assert!(rt; has_routes(&shop, &[1, 8], routes));
}

#[test]
fn a_table_has_the_routes_of_its_jobs(rt: HostRuntime) {
    let alloc = rt.alloc();
    let shop = read_routed_table(alloc, TABLE);
    let routes: &[&[(u32, u64)]] = &[&[(1, 3), (0, 5), (2, 4)], &[], &[(2, 1)]];
    assert!(rt; has_routes(&shop, &[3, 7, 1], routes));
}
