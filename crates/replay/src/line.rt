//! The line that tells how far it is.

use crate::watching::Progress;
use std::io::Write;
use std::time::{Clock, Duration, Instant};

/// How many steps are made between two looks at the clock.
const PACE: u64 = 64;

/// The least time between two lines, and before the first one, in milliseconds.
const PAUSE: u64 = 100;

/// A line `PROGRAM: STEPS of ALL steps` that is written over and over in its place, and is gone at the end.
/// Where it is off nothing is written at all.
#[derive(Drop)]
pub struct Line<'a, C, O> {
    program: &'static str,
    clock: &'a C,
    out: O,
    is_on: bool,
    last: Option<Instant>,
    stands: bool,
}

impl<'a, C: Clock, O: Write> Line<'a, C, O> {
    /// None stands yet. The line begins with the program's name.
    pub fn new(program: &'static str, clock: &'a C, out: O, is_on: bool) -> Self {
        Line {
            program,
            clock,
            out,
            is_on,
            last: None,
            stands: false,
        }
    }

    /// Whether it is time for a line. The first look at the clock only begins the time.
    fn is_due(&mut self) -> bool {
        let Ok(now) = Instant::now(self.clock) else {
            return false;
        };
        let pause = Duration::from_millis(PAUSE);
        let is_due = match self.last {
            Some(last) if now.saturating_duration_since(last) < pause => return false,
            Some(_) => true,
            None => false,
        };
        self.last = Some(now);
        is_due
    }
}

impl<C: Clock, O: Write> Progress for Line<'_, C, O> {
    fn made(&mut self, steps: u64, all: u64) {
        if self.is_on && steps % PACE == 0 && self.is_due() {
            self.stands = true;
            let program = self.program;
            let _ = write!(self.out, "\r{program}: {steps} of {all} steps");
        }
    }

    fn ended(&mut self) {
        if self.stands {
            self.stands = false;
            let _ = self.out.write_all(b"\r\x1b[K");
        }
    }
}
