// A clock in memory.
ghost use Rattle.std.specs.Prelude.{◌≡◌, ◌≤◌, ◌<◌, ◌+◌, ◌==◌, ◌-◌, ◌⊎◌, ◌++◌, ◌∷◌, [], ℕ, List, IsTrue, true, false, length, drop, Some, IfOk, slice_index_or};
ghost use Rattle.std.specs.Prelude.{vec_capacity};
ghost use Rattle.std.specs.List.{list_any};

use n41_link::Clock;
use n41_types::NoMemory;
use std::alloc::Global;

/// Stands at the first of these moments, and moves to the next where it is asked to pause. At the last it stays.
#[derive(Drop)]
pub struct MemClock {
    moments: Vec<u64>,
    given: Vec<u64>,
    at: usize,
    told: bool,
    last: u64,
    ghost here: { at < length moments.items },
    ghost room: { length moments.items ≤ vec_capacity given },
    ghost few: { length given.items ≤ at + 1 },
    ghost fewer: { told ≡ false → length given.items ≤ at },
    ghost reached: { told ≡ true → slice_index_or moments.items at 0 ≤ last },
    ghost marked: { told ≡ true → IsTrue (list_any (λ x. x == last) given.items) },
}

// Keeps a moment, for which there is room.
fn keep(given: &mut Vec<u64>, moment: u64)
    requires { length given.old.items < vec_capacity given.old }
    ensures kept { given.new.items ≡ given.old.items ++ moment ∷ [] }
    ensures marked { IsTrue (list_any (λ x. x == moment) given.new.items) }
    ensures keeps { (m : ℕ) → IsTrue (list_any (λ x. x == m) given.old.items) → IsTrue (list_any (λ x. x == m) given.new.items) }
    ensures alone { (m : ℕ) → IsTrue (list_any (λ x. x == m) given.new.items) → IsTrue (list_any (λ x. x == m) given.old.items) ⊎ (m ≡ moment) }
    ensures room { vec_capacity given.old ≤ vec_capacity given.new }
{
    given.extend_from_slice(&[moment]).unwrap();
}

impl MemClock {
    pub fn new(alloc: Global, moments: &[u64]) -> Result<MemClock, NoMemory>
        requires { 0 < length moments.now }
        ensures ahead { IfOk result (λ c. ⟦<MemClock as Clock>⟧.ahead c ≡ Some moments.now) }
        ensures last { IfOk result (λ c. ⟦<MemClock as Clock>⟧.last c ≡ 0) }
        ensures none { IfOk result (λ c. (m : ℕ) → ⟦<MemClock as Clock>⟧.given c m ≡ false) }
        ensures tells { IfOk result (λ c. ⟦<MemClock as Clock>⟧.tells c ≡ true) }
    {
        Ok(MemClock {
            moments: Vec::from_slice(alloc, moments)?,
            given: Vec::with_capacity(alloc, moments.len())?,
            at: 0,
            told: false,
            last: 0,
        })
    }
}

impl Clock for MemClock {
    ghost last = { λ c. c.last };

    ghost given = { λ c m. list_any (λ x. x == m) c.given.items };

    ghost tells = { λ _. true };

    ghost ahead = { λ c. Some (drop c.at c.moments.items) };

    fn now(&mut self) -> u64 {
        let moment = self.last.max(self.moments[self.at]);
        if !self.told {
            keep(&mut self.given, moment);
            self.last = moment;
            self.told = true;
        }
        self.last
    }

    fn pause(&mut self, _ms: u64) {
        if self.at + 1 < self.moments.len() {
            self.at += 1;
            self.told = false;
        }
    }

    fn gave(&self, moment: u64) -> bool {
        self.given.iter().any(|x| *x == moment)
    }
}
