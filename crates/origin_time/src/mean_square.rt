//! The root mean square.
ghost use Rattle.std.specs.Prelude.{◌≡◌, ◌≢◌, ◌*◌, ◌^◌, ◌<◌, ◌≤◌, ℕ, All, length};
ghost use Rattle.std.specs.Int.{div_ceil};
ghost use Rattle.origin_time.specs.RootMeanSquare.{IsResidual, IsRms, total_square, weighted_square};
ghost use Rattle.origin_time.specs.Weights.{total_weight};

/// The root of the weighted mean of squared residuals, rounded up, over items of a residual and a weight: with residuals in microseconds
/// it is in microseconds. Takes no memory.
pub fn rms(items: &[(i64, u32)]) -> u64
    requires few { length items.now ≤ 256 }
    requires items { All IsResidual items.now }
    requires weight { total_weight items.now ≢ 0 }
    ensures { IsRms items.now result }
{
    let mut weight: u128 = 0;
    let mut squares: u128 = 0;
    for item in items {
        weight += u128::from(item.1);
        squares += weighted_square(*item);
    }
    ceil_root(mean_of(squares, weight))
}

// The square of a residual by its weight.
fn weighted_square(item: (i64, u32)) -> u128
    requires { IsResidual item }
    ensures value { result ≡ weighted_square item }
    ensures bound { result ≤ item.1 * 10 ^ 26 }
{
    let size = u128::from(item.0.unsigned_abs());
    u128::from(item.1) * (size * size)
}

// A sum of squares by a sum of weights, rounded up.
fn mean_of(squares: u128, weight: u128) -> u128
    requires { weight ≢ 0 }
    ensures { result ≡ div_ceil squares weight }
{
    squares.div_ceil(weight)
}

// The least number whose square is at least `n`.
fn ceil_root(n: u128) -> u64
    requires { n ≤ 10 ^ 26 }
    ensures enough { n ≤ result * result }
    ensures least { (smaller : ℕ) → smaller < result → smaller * smaller < n }
{
    if n == 0 {
        0
    } else {
        ((n - 1).isqrt() + 1) as u64
    }
}
