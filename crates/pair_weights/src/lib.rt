//! Scale and weight of a pair of picks.
//!
//! Times are in microseconds, variances in square microseconds and prior weights in thousandths. The scale and the weight of a pair
//! are this project's own. No call takes memory or refuses.
#![tactic(auto)]

ghost use Rattle.std.specs.Prelude.{◌≡◌, ◌+◌, ◌*◌, ◌^◌, ◌≤◌};
ghost use Rattle.pair_weights.specs.LeastRoot.{IsLeastRoot};
ghost use Rattle.pair_weights.specs.Scale.{IsScale, scale_of};
ghost use Rattle.pair_weights.specs.Weight.{weight_of};

mod laws;

pub use laws::{scale_law, weight_law};

/// The least number whose square is at least `n`.
pub fn ceil_root(n: u64) -> u64
    requires { n ≤ 10 ^ 18 }
    ensures { IsLeastRoot n result }
{
    if n == 0 { 0 } else { (n - 1).isqrt() + 1 }
}

/// The scale of a pair of picks, in microseconds: the root of the sum of its two variances,
/// rounded up, and at least 1000.
pub fn scale(va: u64, vb: u64) -> u64
    requires first { va ≤ 2 * 10 ^ 16 }
    requires second { vb ≤ 2 * 10 ^ 16 }
    ensures value { result ≡ scale_of va vb }
    ensures least { IsScale va vb result }
{
    ceil_root(va + vb).max(1000)
}

/// The weight of a pair of picks: the product of their prior weights, in thousandths, times 65536,
/// divided by the scale and rounded down.
pub fn weight(pa: u32, pb: u32, s: u64) -> u64
    requires first { pa ≤ 2000 }
    requires second { pb ≤ 2000 }
    requires scale { 1000 ≤ s }
    ensures value { result ≡ weight_of pa pb s }
    ensures bound { result ≤ 262144000 }
{
    u64::from(pa) * u64::from(pb) * 65536 / s
}

#[cfg(test)]
mod tests {
    use super::*;

    #[test]
    fn roots_scales_and_weights_at_their_limits(rt: HostRuntime) {
        for (n, want) in [
            (0, 0),
            (1, 1),
            (2, 2),
            (4, 2),
            (5, 3),
            (999_999_998_000_000_002, 1_000_000_000),
        ] {
            assert_eq!(rt; ceil_root(n), want, "the root of {n}");
        }
        assert_eq!(rt; scale(20_000_000_000, 20_000_000_000), 200_000);
        assert_eq!(rt; scale(500_000, 500_000), 1000);
        assert_eq!(rt; scale(500_000, 500_001), 1001);
        assert_eq!(rt;
            scale(20_000_000_000_000_000, 20_000_000_000_000_000),
            200_000_000
        );
        assert_eq!(rt; weight(1000, 1000, 200_000), 327_680);
        assert_eq!(rt; weight(2000, 2000, 1000), 262_144_000);
        assert_eq!(rt; weight(2000, 2000, 200_000_000), 1310);
        assert_eq!(rt; weight(1, 1, 65_537), 0);
    }
}
