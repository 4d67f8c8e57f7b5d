//! Gathering records from a stream in any pieces.
ghost use Rattle.std.specs.Prelude.{◌≡◌, ◌<◌, ◌++◌, List, ℕ, [], None, length, option_to_list, MatchOption, IsSome, IfNone, IsOk, Err};
ghost use mathlib.Core.List.{IsPrefix};
ghost use Rattle.n41_record.specs.Gathered.{IsStanding, Leaves, Answers};

use crate::fault::GatherFault;
use crate::history::History;
use crate::partial::Partial;
use crate::pieces::gather_all;
use n41_types::Bytes;
use std::alloc::Global;
use std::collections::VecDeque;
use std::marker::Model;

/// The records of a stream that comes in pieces (RFC 5531, section 11).
///
/// A contract sees all bytes fed, all records given, the whole records that wait, and the fault that came.
#[derive(Drop)]
pub struct Gather {
    alloc: Global,
    history: History,
    waiting: VecDeque<Bytes>,
    partial: Partial,
    fault: Option<GatherFault>,
}

impl Model for Gather {
    ghost use Rattle.std.specs.Prelude.{◌++◌};
    ghost use Rattle.n41_record.specs.Gathered.{Gathered};
    ghost use Rattle.n41_record.specs.Sound.{IsSound};

    ghost Value = { Gathered };

    ghost view = { λ g. record { fed = g.history.fed; given = g.history.given; waiting = g.waiting.items; fault = g.fault } };

    ghost invariant = { λ g. IsSound g.history.fed (g.history.given ++ g.waiting.items) g.partial g.fault };
}

impl Gather {
    /// Nothing was fed.
    pub fn new(alloc: Global) -> Gather
        ensures { result ≡ record { fed = []; given = []; waiting = []; fault = None } }
    {
        Gather {
            alloc,
            history: History::empty(),
            waiting: VecDeque::new(alloc),
            partial: Partial::empty(alloc),
            fault: None,
        }
    }

    /// Takes the next piece of the stream. After a fault it takes nothing, and answers that fault.
    pub fn feed(&mut self, piece: &[u8]) -> Result<(), GatherFault>
        ensures fed { self.old.fault ≡ None → self.new.fed ≡ self.old.fed ++ piece.now }
        ensures given { self.new.given ≡ self.old.given }
        ensures waiting { IsPrefix self.old.waiting self.new.waiting }
        ensures answer { Answers result self.new.fault }
        ensures later { IsSome self.old.fault → self.new ≡ self.old }
        ensures stands { IsStanding self.new }
    {
        if let Some(fault) = self.fault {
            return Err(fault);
        }
        self.history = self.history.with_piece(piece);
        match gather_all(self.alloc, &mut self.partial, &mut self.waiting, piece) {
            Ok(()) => Ok(()),
            Err(fault) => {
                self.fault = Some(fault);
                Err(fault)
            }
        }
    }

    /// The next whole record, in the order of the stream. There is none exactly where none waits.
    pub fn next(&mut self) -> Option<Bytes>
        ensures given { self.new.given ≡ self.old.given ++ option_to_list result }
        ensures waiting { self.old.waiting ≡ option_to_list result ++ self.new.waiting }
        ensures none { IfNone result (self.old.waiting ≡ []) }
        ensures fed { self.new.fed ≡ self.old.fed }
        ensures fault { self.new.fault ≡ self.old.fault }
        ensures stands { IsStanding self.new }
    {
        let bytes = self.waiting.pop_front()?;
        self.history = self.history.with_record(bytes.as_slice());
        Some(bytes)
    }

    /// How many of the bytes fed belong to no whole record, headers included.
    pub fn rest_len(&self) -> u64
        ensures { (rest : List ℕ) × Leaves self.now rest × (result ≡ length rest) }
    {
        self.partial.came
    }

    /// The fault that came.
    pub fn fault(&self) -> Option<GatherFault>
        ensures value { result ≡ self.now.fault }
        ensures stands { IsStanding self.now }
    {
        self.fault
    }
}
