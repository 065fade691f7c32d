//! Plans at the ends of their ranges.

use share_work::Plan;

/// Workers and cuts, and whether they are a plan.
static PLANS: [(u32, u32, bool); 6] = [
    (0, 1, false),
    (1, 0, false),
    (1, 1, true),
    (64, 4_096, true),
    (65, 1, false),
    (1, 4_097, false),
];

/// Workers, cuts and numbers of items, and the cut that shares the items evenly.
static EVENED: [(u32, u32, usize, u32); 8] = [
    (4, 16, 0, 16),
    (4, 16, 64, 16),
    (4, 16, 65, 1),
    (4, 16, 200, 1),
    (4, 16, 2_000, 7),
    (4, 16, 8_192, 16),
    (1, 1, 1_048_576, 1),
    (64, 4_096, 1_048_576, 256),
];

#[test]
fn evened(rt: HostRuntime) {
    for (workers, cut, items, even) in &EVENED {
        let plan = Plan::new(*workers, *cut)
            .expect(&rt, "a plan")
            .evened(*items);
        assert!(rt;
            plan.workers() == *workers && plan.cut() == *even,
            "{workers}, {cut}, {items}"
        );
    }
}

#[test]
fn plans(rt: HostRuntime) {
    for (workers, cut, is_plan) in &PLANS {
        let found = match Plan::new(*workers, *cut) {
            Some(plan) => *is_plan && plan.workers() == *workers && plan.cut() == *cut,
            None => !*is_plan,
        };
        assert!(rt; found, "{workers} workers, cut {cut}");
    }
    let single = Plan::single();
    assert!(rt; single.workers() == 1 && single.cut() == 1);
}
