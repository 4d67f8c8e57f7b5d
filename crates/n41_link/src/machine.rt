// The machine's clock. It tells no moments.
ghost use Rattle.std.specs.Prelude.{◌≡◌, None, true, false};

use crate::moments::Clock;
use std::thread;
use std::time::{Clock as SystemClock, Duration};

/// The machine's clock. Where it cannot be read it stands still.
#[derive(Drop)]
pub struct MachineClock<R> {
    rt: R,
    last: u64,
}

impl<R: SystemClock> MachineClock<R> {
    pub fn new(rt: R) -> MachineClock<R>
        ensures { ⟦<MachineClock<R> as Clock>⟧.last result ≡ 0 }
    {
        MachineClock { rt, last: 0 }
    }
}

impl<R: SystemClock> Clock for MachineClock<R> {
    ghost last = { λ c. c.last };

    ghost given = { λ _ _. true };

    ghost tells = { λ _. false };

    ghost ahead = { λ _. None };

    fn now(&mut self) -> u64 {
        if let Ok(time) = self.rt.since_1970() {
            self.last = self.last.max(time.as_secs());
        }
        self.last
    }

    fn pause(&mut self, ms: u64) {
        thread::sleep(&self.rt, Duration::from_millis(ms));
    }

    fn gave(&self, _moment: u64) -> bool {
        true
    }
}
