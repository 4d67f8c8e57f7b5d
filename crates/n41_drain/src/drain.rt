ghost use Rattle.std.specs.Prelude.{◌≡◌, ◌++◌, ◌∷◌, [], true, false, OnOk, IfErr};
ghost use Rattle.n41_drain.specs.Queue.{Queue, leaves, stay};

use n41_types::Plan;
use std::alloc::Global;
use std::collections::VecDeque;
use std::marker::Model;

/// A call that waits: whose it is, the number of its command, and what it is for.
#[derive(Drop)]
pub struct Waiting {
    pub caller: u32,
    pub number: u64,
    pub plan: Plan,
}

/// A gate with the calls that wait behind it. Contracts see whether it is open, and the calls, the first that came first.
#[derive(Drop)]
pub struct Drain {
    is_open: bool,
    waiting: VecDeque<Waiting>,
}

impl Model for Drain {
    ghost use Rattle.n41_drain.specs.Queue.{Queue};

    ghost Value = { Queue };

    ghost view = { λ d. record { is_open = d.is_open; waiting = d.waiting.items } };
}

impl Drain {
    /// A gate that is shut, with no call behind it. It takes no memory yet.
    pub fn new(alloc: Global) -> Drain
        ensures { result ≡ record { is_open = false; waiting = [] } }
    {
        Drain {
            is_open: false,
            waiting: VecDeque::new(alloc),
        }
    }

    /// Shuts the gate: no call leaves.
    pub fn shut(&mut self)
        ensures { self.new ≡ record self.old { is_open = false } }
    {
        self.is_open = false;
    }

    /// Opens the gate.
    pub fn lift(&mut self)
        ensures { self.new ≡ record self.old { is_open = true } }
    {
        self.is_open = true;
    }

    /// A call comes, open or not, and waits behind those before it; it is handed back for want of memory.
    pub fn post(&mut self, waiting: Waiting) -> Result<(), Waiting>
        ensures ok { OnOk result (self.new ≡ record self.old { waiting = self.old.waiting ++ waiting ∷ [] }) }
        ensures err { IfErr result (λ w. (w ≡ waiting) × (self.new ≡ self.old)) }
    {
        match self.waiting.push_back(waiting) {
            Ok(()) => Ok(()),
            Err(failed) => Err(failed.value),
        }
    }

    /// The call that came first leaves; None exactly where the gate is shut or nothing waits.
    pub fn next_ready(&mut self) -> Option<Waiting>
        ensures value { result ≡ leaves self.old.is_open self.old.waiting }
        ensures queue { self.new ≡ record self.old { waiting = stay self.old.is_open self.old.waiting } }
    {
        if self.is_open {
            self.waiting.pop_front()
        } else {
            None
        }
    }
}
