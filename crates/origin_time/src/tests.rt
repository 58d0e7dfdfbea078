//! Worked medians and roots.
use crate::{OriginError, origin, rms};

#[test]
fn the_least_time_that_halves_the_weight(rt: HostRuntime) {
    for (items, expected) in [
        (&[(10, 1), (20, 1)][..], Ok(10)),
        (&[(20, 1), (10, 1)], Ok(10)),
        (&[(10, 1), (20, 3)], Ok(20)),
        (&[(-7, 2), (5, 1), (9, 1)], Ok(-7)),
        (&[(3, 0), (5, 1), (1, 0)], Ok(5)),
        (
            &[
                (400_000_000_000_000_000, 2000),
                (-400_000_000_000_000_000, 1999),
            ],
            Ok(400_000_000_000_000_000),
        ),
        (&[], Err(OriginError::NoWeight)),
        (&[(10, 0), (20, 0)], Err(OriginError::NoWeight)),
    ] {
        assert_eq!(rt; origin(rt.alloc(), items), expected);
    }
}

#[test]
fn roots_of_mean_squares_are_rounded_up(rt: HostRuntime) {
    for (items, expected) in [
        (&[(0, 1), (10, 1)][..], 8),
        (&[(0, 1), (100_000, 1)], 70_711),
        (&[(0, 5)], 0),
        (&[(-3, 1), (3, 7)], 3),
        (&[(10_000_000_000_000, 2000)], 10_000_000_000_000),
    ] {
        assert_eq!(rt; rms(items), expected);
    }
}
