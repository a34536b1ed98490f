//! What workers do.
ghost use Rattle.std.specs.Prelude.{IfOk};

use memory::Memory;

/// A work that answers jobs, each for itself. Threads share it.
pub trait Work: Sync {
    /// What is asked.
    type Job: Sync;

    /// What is answered.
    type Answer: Send + Drop;

    ghost can: { Self → Self.Job → Type 0 };

    ghost gives: { Self → Self.Job → Self.Answer → Type 0 };

    /// Answers a job. `Err` is want of memory.
    fn answer(&self, job: &Self::Job) -> Result<Self::Answer, Memory>
        requires { can self.now job.now }
        ensures { IfOk result (λ a. gives self.now job.now a) };
}
