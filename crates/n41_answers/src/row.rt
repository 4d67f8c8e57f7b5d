ghost use Rattle.std.specs.Prelude.{◌≡◌, ◌∷◌, ◌++◌, ◌-◌, ◌<◌, ◌≤◌, [], OnOk};
ghost use Rattle.n41_answers.specs.Answers.{numbered};

use n41_types::NoMemory;
use std::alloc::Global;
use std::marker::Model;

/// The places of the answers to one caller, oldest first.
#[derive(Drop)]
pub(crate) struct Row {
    places: Vec<u64>,
}

impl Model for Row {
    ghost use Rattle.std.specs.Prelude.{◌-◌, vec_len, vec_capacity};
    ghost use Rattle.n41_answers.specs.Index.{Entry};

    ghost Value = { Entry };

    ghost view = { λ r. record { places = r.places.items; room = vec_capacity r.places - vec_len r.places } };
}

impl Row {
    pub(crate) fn new(alloc: Global) -> Row
        ensures { result.places ≡ [] }
    {
        Row {
            places: Vec::new(alloc),
        }
    }

    /// Makes room for one more place.
    pub(crate) fn reserve(&mut self) -> Result<(), NoMemory>
        ensures ok { OnOk result (0 < self.new.room) }
        ensures more { self.old.room ≤ self.new.room }
        ensures places { self.new.places ≡ self.old.places }
    {
        self.places.reserve(1)
    }

    /// Adds a place in the room that was made.
    pub(crate) fn note(&mut self, place: u64)
        requires { 0 < self.old.room }
        ensures { self.new ≡ record { places = self.old.places ++ place ∷ []; room = self.old.room - 1 } }
    {
        self.places.push_reserved(place);
    }

    /// The place of the answer to the command of this number, from 1.
    pub(crate) fn get(&self, number: u64) -> Option<u64>
        ensures { result ≡ numbered (Some self.now.places) number }
    {
        if number == 0 {
            return None;
        }
        self.places.get((number - 1) as usize).copied()
    }
}
