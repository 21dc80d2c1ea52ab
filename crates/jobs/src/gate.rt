// What a worker waits at before it posts a result.
ghost use Rattle.std.specs.Prelude.{ℕ, ⊤};

use std::sync::Wait;

/// Holds workers up: a test's gate may let the result of one version pass only after another's.
pub trait Gate {
    // The version has passed the gate.
    ghost passed: { Self → ℕ → Type 0 };

    /// Passes the gate with a version. It may wait, and can't be refused.
    fn pass<R: Wait>(&self, rt: &R, ver: u64)
        ensures { passed self.now ver };
}

/// Lets everyone pass at once.
#[derive(Clone, Copy, Debug)]
pub struct OpenGate;

impl Gate for OpenGate {
    ghost passed = { λ gate ver. ⊤ };

    fn pass<R: Wait>(&self, _rt: &R, _ver: u64) {}
}
