//! Reports of how far a server is.

use crate::course::Course;
use cluster::Server;
use serial_store::Tabled;
use shared_cluster::{Shared, Sight};
use std::fmt;
use std::sync::Wait;
use std::time::{Clock, Duration, Instant};

/// How many milliseconds a second has.
const MILLISECONDS: u64 = 1000;

/// What a report says.
#[derive(Clone, Copy, Debug, Drop)]
pub(crate) struct Seen {
    connections: u64,
    // Requests a second since the last report.
    rate: u64,
    sight: Sight,
    steps_left: u64,
    keys: i64,
}

impl fmt::Display for Seen {
    fn fmt<W: fmt::Write>(&self, f: &mut fmt::Formatter<W>) -> fmt::Result {
        let Seen {
            connections,
            rate,
            sight,
            steps_left,
            keys,
        } = self;
        write!(
            f,
            "{connections} connections, {rate} requests a second, {} requests, {} starved, {steps_left} steps left, {keys} keys",
            sight.requests, sight.starved
        )
    }
}

/// When a report was told, and how many requests there were.
#[derive(Clone, Copy)]
struct Last {
    time: Instant,
    requests: u64,
}

/// When the next report is due of a server that makes so many steps at most.
#[derive(Drop)]
pub(crate) struct Report {
    // How long it is from one to the next, if there are any.
    every: Option<Duration>,
    max_steps: u64,
    last: Option<Last>,
}

impl Report {
    /// One every so many seconds, from now on; none for 0, or without a clock.
    pub(crate) fn new<R: Clock>(rt: &R, seconds: u64, max_steps: u64) -> Self {
        let every = match seconds {
            0 => None,
            _ => Some(Duration::from_secs(seconds)),
        };
        let last = match Instant::now(rt) {
            Ok(time) => Some(Last { time, requests: 0 }),
            Err(_) => None,
        };
        Report {
            every,
            max_steps,
            last,
        }
    }

    /// Tells reports when their time has come, until the server is to end or no more connections are taken.
    pub(crate) fn tell<T: Tabled, L: Server, R: Wait + Clock + Eprint>(
        mut self,
        rt: &R,
        course: &Course,
        shared: &Shared<T, L>,
    ) {
        for _ in rt.forever() {
            let Some(left) = self.left(rt) else {
                return;
            };
            if course.wait_within(rt, false, Some(left)).is_some() || course.is_over(rt) {
                return;
            }
            if let Some(seen) = self.due(rt, course.connections(), shared) {
                course.show(rt, &seen);
            }
        }
    }

    /// How long it is until the next one is due, if there is one.
    fn left<R: Clock>(&self, rt: &R) -> Option<Duration> {
        let (Some(every), Some(last)) = (self.every, self.last) else {
            return None;
        };
        match Instant::now(rt) {
            Ok(now) => Some(every.saturating_sub(now.saturating_duration_since(last.time))),
            Err(_) => None,
        }
    }

    /// The one that is due, if its time has come: of so many connections, and of the cluster.
    fn due<T: Tabled, L: Server, R: Wait + Clock>(
        &mut self,
        rt: &R,
        connections: u64,
        shared: &Shared<T, L>,
    ) -> Option<Seen> {
        let (Some(every), Some(last)) = (self.every, self.last) else {
            return None;
        };
        let Ok(now) = Instant::now(rt) else {
            return None;
        };
        let passed = now.saturating_duration_since(last.time);
        if passed < every {
            return None;
        }
        let sight = shared.sight(rt);
        self.last = Some(Last {
            time: now,
            requests: sight.requests,
        });
        Some(Seen {
            connections,
            rate: rate_of(sight.requests.saturating_sub(last.requests), passed),
            sight,
            steps_left: self.max_steps.saturating_sub(sight.steps),
            keys: shared.keys(rt),
        })
    }
}

/// How many requests a second these are.
fn rate_of(requests: u64, passed: Duration) -> u64 {
    let seconds = passed.as_secs().saturating_mul(MILLISECONDS);
    let milliseconds = seconds
        .saturating_add(u64::from(passed.subsec_millis()))
        .max(1);
    requests.saturating_mul(MILLISECONDS) / milliseconds
}
