//! How a thread waits where no other thread wakes it.
use std::thread;
use std::time::{Clock, Duration};

// How often it yields before it sleeps, and for how many microseconds it sleeps at first and at most.
const YIELDS: u32 = 16;

const SHORTEST: u64 = 20;

const LONGEST: u64 = 1_000;

/// The pauses of one wait: the thread yields at first, and then sleeps, longer from time to time.
#[derive(Drop)]
pub(crate) struct Pauses {
    yields: u32,
    micros: u64,
}

impl Pauses {
    /// Those of a new wait.
    pub(crate) fn new() -> Pauses {
        Pauses {
            yields: 0,
            micros: SHORTEST,
        }
    }

    /// The next pause.
    pub(crate) fn pause(&mut self, clock: &impl Clock) {
        if self.yields < YIELDS {
            self.yields += 1;
            thread::yield_now();
            return;
        }
        thread::sleep(clock, Duration::from_micros(self.micros));
        self.micros = self.micros.saturating_mul(2).min(LONGEST);
    }
}
