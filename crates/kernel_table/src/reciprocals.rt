//! The Gauss-like kernel at a fixed scale, with a product in place of the division.

ghost use Rattle.std.specs.Prelude.{◌≡◌, ◌+◌, ◌*◌, ◌/◌, ◌^◌, ◌≤◌};
ghost use Rattle.kernel_table.specs.declared.kernels.Shape.TheVariants.{Gauss};
ghost use Rattle.kernel_table.specs.Kernel.{kernel_value};
ghost use Rattle.kernel_table.specs.Reciprocal.{IsReciprocal};

use crate::table::entry;

/// The factor by which `gauss_by` replaces a division by a scale, in microseconds: `2^70 / scale`,
/// rounded down, and 1 more.
pub fn reciprocal(scale: u64) -> u64
    requires at_least { 1000 ≤ scale }
    requires at_most { scale ≤ 200000000 }
    ensures value { IsReciprocal scale result (4 * scale) }
{
    ((1u128 << 70) / scale as u128 + 1) as u64
}

/// The Gauss-like kernel at a misfit and the scale `end / 4`, in microseconds, by the scale's
/// `reciprocal`. It divides nothing and takes no branch.
pub fn gauss_by(misfit: u64, reciprocal: u64, end: u64) -> u64
    requires { IsReciprocal (end / 4) reciprocal end }
    ensures value { result ≡ kernel_value Gauss misfit (end / 4) }
    ensures at_most { result ≤ 2 ^ 20 }
{
    let near = misfit.min(end);
    entry((near as u128 * reciprocal as u128 >> 64) as usize)
}
