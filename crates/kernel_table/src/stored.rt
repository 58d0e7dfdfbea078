//! A kernel as a closure that a loop over pairs calls directly.
ghost use Rattle.std.specs.Prelude.{◌≡◌, ◌^◌, ◌≤◌, ℕ};
ghost use Rattle.kernel_table.specs.Kernel.{kernel_value};
ghost use Rattle.kernel_table.specs.Falloff.{Computes, AnswersItsShape, shape_of};

use crate::kernels::Shape;

/// A kernel as a closure, beside the shape whose value the closure answers.
///
/// The closure takes a misfit and a scale, both in microseconds, and answers in parts of 2^20. Its
/// type is a parameter, so that a loop over many pairs calls it with nothing in between. What is
/// known of it, `AnswersItsShape`, comes from `new`, and each function that calls it asks for it.
#[derive(Drop)]
pub struct Falloff<F> {
    shape: Shape,
    closure: F,
}

impl<F: Fn(u64, u64) -> u64> Falloff<F> {
    /// Keeps a closure that may be called at every misfit and every scale from 1, and answers the
    /// value of the shape there.
    pub fn new(shape: Shape, closure: F) -> Falloff<F>
        requires { Computes F.Fn closure (kernel_value shape) }
        ensures shape { shape_of result ≡ shape }
        ensures answers { AnswersItsShape F.Fn result }
    {
        Falloff { shape, closure }
    }

    /// The value of the shape at a misfit and a scale, both in microseconds. It is no smaller than
    /// at any greater misfit, and no greater than at any greater scale.
    pub fn value(&self, misfit: u64, scale: u64) -> u64
        requires some_scale { 1 ≤ scale }
        requires answers { AnswersItsShape F.Fn self.now }
        ensures value { result ≡ kernel_value (shape_of self.now) misfit scale }
        ensures at_most { result ≤ 2 ^ 20 }
        ensures never_rises { (other : ℕ) → misfit ≤ other → kernel_value (shape_of self.now) other scale ≤ result }
        ensures never_falls { (other : ℕ) → scale ≤ other → result ≤ kernel_value (shape_of self.now) misfit other }
    {
        (self.closure)(misfit, scale)
    }

    /// The shape that was given to `new`.
    pub fn shape(&self) -> Shape
        ensures { result ≡ shape_of self.now }
    {
        self.shape
    }
}
