//! How many threads read sources, and how many workers an office has.
ghost use Rattle.std.specs.Prelude.{◌≡◌, ℕ, IfSome};
ghost use Rattle.itip_words.specs.declared.filter.Filter.{Filter};

use itip_words::{Filter, MAX_THREADS};
use rayon::current_num_threads;
use std::thread::Threads;

/// On how many threads sources are read. Only [`Works`] makes it.
#[derive(Clone, Copy)]
pub(crate) struct ThreadCount {
    count: usize,
}

impl ThreadCount {
    pub(crate) fn count(self) -> usize
        ensures { result ≡ self.count }
    {
        self.count
    }
}

/// How many workers an office has. Only [`Works`] makes it.
#[derive(Clone, Copy)]
pub(crate) struct WorkerCount {
    count: usize,
}

impl WorkerCount {
    pub(crate) fn count(self) -> usize
        ensures { result ≡ self.count }
    {
        self.count
    }
}

/// What threads run on. Generic code knows nothing of these relations, so a function that ensures one must have asked by the method that
/// gives it, about that very value. What it does with the answer is open.
pub(crate) trait Works: Threads {
    /// It was asked on how many threads this filter reads.
    ghost reads: { Self → Filter → Type 0 };

    /// An office with this many workers was asked for.
    ghost employs: { Self → ℕ → Type 0 };

    /// As many as a filter asks for, or as many as there are processors, at most [`MAX_THREADS`].
    fn thread_count(&self, filter: &Filter) -> ThreadCount
        ensures known { reads self.now filter.now }
        ensures count { IfSome filter.now.intake.threads (λ threads. result.count ≡ threads) };

    /// As many workers as are asked for.
    fn worker_count(&self, workers: u64) -> WorkerCount
        ensures known { employs self.now workers }
        ensures count { result.count ≡ workers };
}

impl<R: Threads> Works for R {
    ghost reads = { λ _ _. Unit {0} };

    ghost employs = { λ _ _. Unit {0} };

    fn thread_count(&self, filter: &Filter) -> ThreadCount {
        match filter.intake.threads {
            Some(threads) => ThreadCount {
                count: threads as usize,
            },
            None => ThreadCount {
                count: current_num_threads(self).min(MAX_THREADS as usize),
            },
        }
    }

    fn worker_count(&self, workers: u64) -> WorkerCount {
        WorkerCount {
            count: workers as usize,
        }
    }
}
