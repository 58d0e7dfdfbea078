//! The threshold of near scores.
ghost use Rattle.std.specs.Prelude.{◌≡◌, ◌≤◌};
ghost use Rattle.octree_search.specs.Cover.{threshold_of};

/// The least score that is near a best score: so many thousandths less, rounded up, and at least 1.
pub fn threshold(margin: u32, best: u64) -> u64
    requires { margin ≤ 999 }
    ensures { result ≡ threshold_of margin best }
{
    let margin = u64::from(margin);
    let less = best / 1000 * margin + best % 1000 * margin / 1000;
    (best - less).max(1)
}
