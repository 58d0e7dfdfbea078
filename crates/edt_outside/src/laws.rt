//! What holds of every count.
ghost use Rattle.std.specs.Prelude.{◌≡◌, ◌↔◌, ℕ, ◌-◌, ◌^◌, ◌<◌, Bool, IsTrue};
ghost use Rattle.edt_outside.specs.Counts.{Rose, RisesExactly};

/// A count that rises exactly where a test is true rose exactly there, as long as it has not come to
/// its last value.
pub fn rises_exactly()
    ensures { (test : Bool) (before after : ℕ) → RisesExactly test before after → after < 2 ^ 64 - 1
        → (IsTrue test ↔ Rose before after) }
{}
