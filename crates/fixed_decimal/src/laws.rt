//! What holds of every text and every fraction.
ghost use Rattle.std.specs.Prelude.{◌≡◌, ◌<◌, ℕ, List, None};
ghost use Rattle.fixed_decimal.specs.Leaving.{LeavesFormAt};
ghost use Rattle.fixed_decimal.specs.Nearest.{IsNearest};
ghost use Rattle.fixed_decimal.specs.Value.{millionths_of};

/// A text leaves the form of a decimal at one place at most, and then it has no reading.
pub fn one_fault()
    ensures { (text : List ℕ) (j k : ℕ) → LeavesFormAt text j → (millionths_of text ≡ None)
        × (LeavesFormAt text k → j ≡ k) }
{}

/// One whole number alone is nearest to a fraction.
pub fn one_nearest()
    ensures { (top bottom m n : ℕ) → 0 < bottom → IsNearest top bottom m → IsNearest top bottom n → m ≡ n }
{}
