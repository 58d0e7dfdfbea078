//! What holds of every scale and every weight.
ghost use Rattle.std.specs.Prelude.{◌≡◌, ℕ, ◌≤◌};
ghost use Rattle.pair_weights.specs.Scale.{IsScale, scale_of};
ghost use Rattle.pair_weights.specs.Weight.{weight_of};

/// The scale is what its definition says, and it never falls where a variance grows.
pub fn scale_law()
    ensures least { (va vb : ℕ) → IsScale va vb (scale_of va vb) }
    ensures never_falls { (va vb wa wb : ℕ) → va ≤ wa → vb ≤ wb → scale_of va vb ≤ scale_of wa wb }
{}

/// The weight never rises where the scale grows.
pub fn weight_law()
    ensures never_rises { (pa pb s t : ℕ) → 1000 ≤ s → s ≤ t → weight_of pa pb t ≤ weight_of pa pb s }
    ensures bound { (pa pb s : ℕ) → pa ≤ 2000 → pb ≤ 2000 → 1000 ≤ s → weight_of pa pb s ≤ 262144000 }
{}
