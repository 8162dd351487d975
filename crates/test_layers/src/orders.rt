//! The places that the orders of events give. Whole traces in each order are cases of the program.
use event_sim::{first, last, seeded};

/// Steps and counts, with the places that a seed gives.
const SEEDED: &[(u64, u64, u64)] = &[
    (0, 3, 2),
    (1, 3, 0),
    (2, 5, 0),
    (7, 9, 6),
    (18446744073709551615, 4, 3),
];

#[test]
fn orders_pick_places(rt: HostRuntime) {
    assert_eq!(rt; first(0, 3), 0);
    assert_eq!(rt; last(0, 3), 2);
    for (step, count, place) in SEEDED {
        assert_eq!(rt;
            seeded(12345678901234567890, *step, *count),
            *place,
            "at {step}"
        );
    }
}
