//! Pauses of those who try again what found no memory.

ghost use Rattle.std.specs.Prelude.{◌≡◌, ◌≤◌};

use std::thread;
use std::time::{Clock, Duration};

/// The first pause, in milliseconds.
const LEAST: u64 = 1;

/// The longest pause, in milliseconds.
const GREATEST: u64 = 64;

/// How long who found no memory sleeps before it tries again: each time twice as long as before, from 1 to 64
/// milliseconds, so that want of memory that lasts takes hardly any of the processor's time.
#[derive(Clone, Copy, Debug)]
pub struct Pause {
    milliseconds: u64,
}

impl Pause {
    /// Nothing was tried in vain.
    pub fn new() -> Self
        ensures { result.milliseconds ≡ LEAST }
    {
        Pause {
            milliseconds: LEAST,
        }
    }

    /// Sleeps, for twice as long the next time.
    pub fn sleep<C: Clock>(&mut self, clock: &C)
        ensures { self.new.milliseconds ≤ GREATEST }
    {
        thread::sleep(clock, Duration::from_millis(self.milliseconds));
        self.milliseconds = self.milliseconds.saturating_mul(2).min(GREATEST);
    }

    /// It was not in vain: the next pause is a short one.
    pub fn end(&mut self)
        ensures { self.new.milliseconds ≡ LEAST }
    {
        self.milliseconds = LEAST;
    }
}
