//! The value of a pair by the kernel that a scorer has.

ghost use Rattle.std.specs.Prelude.{◌≡◌, ◌^◌, ◌≤◌};
ghost use Rattle.kernel_table.specs.Kernel.{kernel_value};

use crate::pairs::Pair;
use kernel_table::{Falloff, gauss_by};

/// A kernel at the scales of pairs. It is a type parameter of the loops over pairs, so that the
/// choice of the kernel stands outside of them.
pub(crate) trait Values {
    ghost use Rattle.std.specs.Prelude.{◌≡◌, ◌^◌, ◌≤◌};
    ghost use Rattle.kernel_table.specs.declared.kernels.Shape.{Shape};
    ghost use Rattle.kernel_table.specs.Kernel.{kernel_value};

    /// The shape whose value it answers.
    ghost shape: { Self → Shape };
    /// What has to be known to call it.
    ghost ready: { Self → Type 0 };

    /// The value at a gap, in microseconds, and the scale of a pair.
    fn value_at(&self, gap: u64, pair: &Pair) -> u64
        requires ready { ready self.now }
        ensures value { result ≡ kernel_value (shape self.now) gap pair.now.scale }
        ensures at_most { result ≤ 2 ^ 20 };
}

/// The Gauss-like kernel, by the reciprocal that a pair keeps.
pub(crate) struct ByReciprocal;

impl Values for ByReciprocal {
    ghost use Rattle.kernel_table.specs.declared.kernels.Shape.TheVariants.{Gauss};

    ghost shape = { λ values. Gauss };

    ghost ready = { λ values. Unit {0} };

    fn value_at(&self, gap: u64, pair: &Pair) -> u64 {
        gauss_by(gap, pair.reciprocal, pair.end)
    }
}

impl<F: Fn(u64, u64) -> u64> Values for Falloff<F> {
    ghost use Rattle.kernel_table.specs.Falloff.{AnswersItsShape, shape_of};

    ghost shape = { shape_of };

    ghost ready = { AnswersItsShape F.Fn };

    fn value_at(&self, gap: u64, pair: &Pair) -> u64 {
        self.value(gap, pair.end / 4)
    }
}
