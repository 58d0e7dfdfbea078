//! The kernels at the steps and the ends of their ranges.
ghost use Rattle.std.specs.Prelude.{◌≤◌};
ghost use Rattle.kernel_table.specs.Falloff.{AnswersItsShape};

use crate::{Falloff, Shape, count, gauss, gauss_by, reciprocal, triangle};

/// The last misfit that 64 times fits in a `u64`.
const NARROW: u64 = u64::MAX / 64;

#[test]
fn gauss_steps_through_the_table_and_ends_with_it(rt: HostRuntime) {
    for (misfit, scale, value) in [
        (0, 200_000, 1_048_576),
        (3124, 200_000, 1_048_576),
        (3125, 200_000, 1_048_320),
        (6250, 200_000, 1_047_552),
        (799_999, 200_000, 0),
        (800_000, 200_000, 0),
        (222, 64, 1),
        (223, 64, 0),
        (0, 1, 1_048_576),
        (u64::MAX, 1, 0),
        (NARROW, NARROW, 385_734),
        (NARROW + 1, NARROW + 1, 385_734),
        (u64::MAX - 1, u64::MAX, 397_882),
        (u64::MAX, u64::MAX, 385_734),
        (u64::MAX, u64::MAX / 4, 0),
    ] {
        assert!(rt; scale >= 1);
        assert_eq!(rt; gauss(misfit, scale), value, "at {misfit} over {scale}");
    }
}

#[test]
fn the_product_reads_the_place_of_the_quotient(rt: HostRuntime) {
    let factor = reciprocal(200_000);
    for misfit in [0, 3124, 3125, 6250, 799_999, 800_000, u64::MAX] {
        let value = gauss_by(misfit, factor, 800_000);
        assert_eq!(rt; value, gauss(misfit, 200_000), "at {misfit}");
    }
}

#[test]
fn triangle_falls_to_0_at_the_scale(rt: HostRuntime) {
    for (misfit, scale, value) in [
        (0, 200_000, 1_048_576),
        (50_000, 200_000, 786_432),
        (199_999, 200_000, 5),
        (200_000, 200_000, 0),
        (200_001, 200_000, 0),
        (0, u64::MAX, 1_048_576),
        (1, u64::MAX, 1_048_575),
        (u64::MAX, u64::MAX, 0),
        (u64::MAX, 1, 0),
    ] {
        assert!(rt; scale >= 1);
        assert_eq!(rt; triangle(misfit, scale), value, "at {misfit} over {scale}");
    }
}

#[test]
fn count_ends_after_its_limit(rt: HostRuntime) {
    for (limit, misfit, value) in [
        (200_000, 0, 1_048_576),
        (200_000, 200_000, 1_048_576),
        (200_000, 200_001, 0),
        (0, 0, 1_048_576),
        (0, 1, 0),
        (u64::MAX, u64::MAX, 1_048_576),
    ] {
        assert_eq!(rt; count(limit, misfit), value, "at {misfit} up to {limit}");
    }
}

/// As a caller above would, whatever the kernel.
fn at_both<F: Fn(u64, u64) -> u64>(
    falloff: &Falloff<F>,
    near: u64,
    far: u64,
    scale: u64,
) -> (u64, u64)
    requires some_scale { 1 ≤ scale }
    requires answers { AnswersItsShape F.Fn falloff.now }
    ensures { near ≤ far → result.1 ≤ result.0 }
{
    (falloff.value(near, scale), falloff.value(far, scale))
}

#[test]
fn each_shape_is_called_as_a_closure(rt: HostRuntime) {
    let gaussian = Falloff::new(Shape::Gauss, |misfit, scale| gauss(misfit, scale));
    let triangular = Falloff::new(Shape::Triangle, |misfit, scale| triangle(misfit, scale));
    let limit = 4000;
    let counting = Falloff::new(Shape::Count(limit), |misfit, _scale| count(limit, misfit));
    assert_eq!(rt;
        at_both(&gaussian, 3124, 6250, 200_000),
        (1_048_576, 1_047_552)
    );
    assert_eq!(rt;
        at_both(&triangular, 50_000, 200_000, 200_000),
        (786_432, 0)
    );
    assert_eq!(rt; at_both(&counting, 4000, 4001, 1000), (1_048_576, 0));
    assert_eq!(rt; counting.shape(), Shape::Count(4000));
}
