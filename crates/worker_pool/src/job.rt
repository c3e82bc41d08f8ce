//! The work of a worker.
ghost use Rattle.std.specs.Prelude.{◌≡◌, ℕ, ◌<◌, IfOk};

use std::alloc::AllocError;

/// Performs the numbers below a limit, which its setup names.
///
/// An answer is a function of the setup and the number, and the setup stays. So it doesn't matter which worker performs a number, nor when.
pub trait Job: Send + Drop {
    type Answer: Send + Drop;

    /// What the answers depend on. It is for contracts alone: no value of it is made.
    type Setup;

    ghost setup: { Self → Self.Setup };

    ghost limit: { Self.Setup → ℕ };

    ghost answers: { Self.Setup → ℕ → Self.Answer → Type 0 };

    /// Relates a job before a call of `perform`, the number, and the job after it. If a job keeps nothing but its setup, this needs to say nothing
    /// more.
    ghost becomes: { Self → ℕ → Self → Type 0 };

    /// The answer to a number. An error means that memory was refused; the number may then be performed again.
    fn perform(&mut self, number: u32) -> Result<Self::Answer, AllocError>
        requires { number < limit (setup self.old) }
        ensures same { setup self.new ≡ setup self.old }
        ensures once { becomes self.old number self.new }
        ensures right { IfOk result (λ a. answers (setup self.old) number a) };
}
