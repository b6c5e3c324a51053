//! A pace at which actors wait for one another.

use host_io::Pace;
use std::sync::{Condvar, Mutex, Wait};
use std::time::{Clock, Duration};
use wedge_base::ActorName;

/// For how many seconds an actor waits for the others.
const PATIENCE: u64 = 30;

/// How many have come, and whether one has given up waiting for the others.
#[derive(Drop)]
struct Arrivals {
    come: u32,
    missed: bool,
}

/// A pace at which each actor but the root waits before its first shared event until so many have come there. An actor
/// that has waited in vain goes on, as do all others then.
#[derive(Drop)]
pub struct Meeting<'r, R> {
    rt: &'r R,
    wanted: u32,
    arrivals: Mutex<Arrivals>,
    changed: Condvar,
}

impl<'r, R: Wait + Clock> Meeting<'r, R> {
    /// Returns a meeting of so many actors.
    pub fn new(rt: &'r R, wanted: u32) -> Self {
        let arrivals = Arrivals {
            come: 0,
            missed: false,
        };
        Meeting {
            rt,
            wanted,
            arrivals: Mutex::new(arrivals),
            changed: Condvar::new(),
        }
    }

    /// Whether so many have come, and none has given up.
    pub fn took_place(&self) -> bool {
        let arrivals = self.arrivals.lock(self.rt);
        arrivals.come >= self.wanted && !arrivals.missed
    }

    /// Waits until so many have come.
    fn attend(&self) {
        let wanted = self.wanted;
        let mut arrivals = self.arrivals.lock(self.rt);
        arrivals.come = arrivals.come.saturating_add(1);
        self.changed.notify_all();
        let patience = Duration::from_secs(PATIENCE);
        let (mut arrivals, waited) = self
            .changed
            .wait_timeout_while(self.rt, arrivals, patience, |arrivals| {
                arrivals.come < wanted && !arrivals.missed
            });
        if waited.timed_out() {
            arrivals.missed = true;
            self.changed.notify_all();
        }
    }
}

impl<'r, R: Wait + Clock> Pace for Meeting<'r, R> {
    fn before(&self, name: &ActorName) {
        if name.parts().len() > 1 {
            self.attend();
        }
    }
}
