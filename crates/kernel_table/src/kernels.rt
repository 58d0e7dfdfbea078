//! The three kernels: what a misfit is worth at a scale.
ghost use Rattle.std.specs.Prelude.{◌≡◌, ◌*◌, ◌/◌, ◌^◌, ◌<◌, ◌≤◌};
ghost use Rattle.kernel_table.specs.Kernel.{kernel_value, count_value};

use crate::table::entry;

/// The value of a pair with no misfit.
const WHOLE: u64 = 1_048_576;

/// The kernels to choose from. The value of each is in parts of 2^20.
#[derive(Clone, Copy, PartialEq, Eq, Debug)]
pub enum Shape {
    /// A table of whole numbers, after a Gaussian of the misfit over the scale.
    Gauss,
    /// A straight fall from 1 at no misfit to 0 where the misfit is the scale.
    Triangle,
    /// 1 up to this misfit, in microseconds, and 0 past it.
    Count(u64),
}

/// The Gauss-like kernel at a misfit and a scale, both in microseconds: the entry of a table at 64
/// misfits over the scale, rounded down, and 0 from index 256 on.
///
/// The table is after `2^20 * exp(-(i/64)^2)`. Table and kernel are this project's own.
pub fn gauss(misfit: u64, scale: u64) -> u64
    requires { 1 ≤ scale }
    ensures value { result ≡ kernel_value Shape.Gauss misfit scale }
    ensures at_most { result ≤ 2 ^ 20 }
{
    // from four scales on the table has ended, and no division is needed to see it
    if misfit / 4 >= scale {
        return 0;
    }
    entry(entry_place(misfit, scale))
}

/// The triangular kernel at a misfit and a scale, both in microseconds:
/// `2^20 * (scale - misfit) / scale`, rounded down, and 0 from the scale on.
///
/// This kernel is this project's own.
pub fn triangle(misfit: u64, scale: u64) -> u64
    requires { 1 ≤ scale }
    ensures value { result ≡ kernel_value Shape.Triangle misfit scale }
    ensures at_most { result ≤ 2 ^ 20 }
{
    if misfit >= scale {
        return 0;
    }
    let left = scale - misfit;
    if left <= u64::MAX / WHOLE {
        WHOLE * left / scale
    } else {
        (WHOLE as u128 * left as u128 / scale as u128) as u64
    }
}

/// The counting kernel at a limit and a misfit, both in microseconds: 2^20 up to the limit, and 0
/// past it, whatever the scale.
///
/// This kernel is this project's own.
pub fn count(limit: u64, misfit: u64) -> u64
    ensures value { result ≡ count_value limit misfit }
    ensures at_most { result ≤ 2 ^ 20 }
{
    if misfit <= limit { WHOLE } else { 0 }
}

/// The place in the Gaussian table: 64 times the misfit over the scale.
fn entry_place(misfit: u64, scale: u64) -> usize
    requires some_scale { 1 ≤ scale }
    requires near { misfit / 4 < scale }
    ensures { result ≡ 64 * misfit / scale }
{
    if misfit <= u64::MAX / 64 {
        (64 * misfit / scale) as usize
    } else {
        (64 * misfit as u128 / scale as u128) as usize
    }
}
