//! There is one origin time at most, and one root mean square, and each is a function of the items.
ghost use Rattle.std.specs.Prelude.{◌≡◌, ℕ, ℤ, List};
ghost use Rattle.origin_time.specs.OriginTime.{IsOriginTime, origin_of};
ghost use Rattle.origin_time.specs.RootMeanSquare.{IsRms, rms_of};

/// Items have one origin time at most, and one root mean square. Each is the value of a function of the items.
pub fn origin_law()
    ensures origin { (items : List (ℤ × ℕ)) (one other : ℤ)
        → IsOriginTime items one → IsOriginTime items other → one ≡ other }
    ensures rms { (items : List (ℤ × ℕ)) (one other : ℕ)
        → IsRms items one → IsRms items other → one ≡ other }
    ensures origin_value { (items : List (ℤ × ℕ)) (time : ℤ) → IsOriginTime items time → origin_of items ≡ time }
    ensures rms_value { (items : List (ℤ × ℕ)) (root : ℕ) → IsRms items root → rms_of items ≡ root }
{}
