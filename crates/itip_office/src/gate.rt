//! The gate, which lets jobs through.
ghost use Rattle.std.specs.Prelude.{IsFalse};

/// What the loops of an office ask before they go on. Jobs and desks are given by their numbers. A loop that is answered `false` ends with
/// 42, and so does the office, unless a thread returns a lower number.
pub trait Gate {
    // What holds if a gate of this type answers `false`: an absurdity for a type that never does.
    ghost may_close: { Type 0 } = { Unit {0} };

    /// Whether the gate may wait before it answers, for another job for example. If it may not, a worker hands on several merges at once.
    fn may_wait(&self) -> bool {
        true
    }

    /// Asked by a worker before it does a job.
    fn worker(&self, job: u64) -> bool
        ensures { IsFalse result → may_close };

    /// Asked by the keeper of a desk before it takes and publishes what a job brought.
    fn keeper(&self, desk: u64, job: u64) -> bool
        ensures { IsFalse result → may_close };

    /// Asked once the outcome of a job is in the list of its loop.
    fn done(&self, job: u64) -> bool
        ensures { IsFalse result → may_close };
}

/// A gate that is always open.
#[derive(Clone, Copy, Debug)]
pub struct OpenGate;

impl Gate for OpenGate {
    ghost may_close = { ⊥ };

    fn may_wait(&self) -> bool {
        false
    }

    fn worker(&self, _job: u64) -> bool {
        true
    }

    fn keeper(&self, _desk: u64, _job: u64) -> bool {
        true
    }

    fn done(&self, _job: u64) -> bool {
        true
    }
}
