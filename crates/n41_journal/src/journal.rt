ghost use Rattle.std.specs.Prelude.{◌≡◌, ◌∷◌, ◌<◌, ◌≤◌, ◌-◌, ◌↔◌, [], length, reverse, slice_get, IfErr, OnOk, OnErr, IsSome, option_copied};
ghost use Rattle.n41_journal.specs.Journal.{Log, event_at, KeepsPlaces, ContinuesByOne};

use crate::events::Event;
use n41_types::NoMemory;
use std::alloc::Global;
use std::marker::Model;

/// The events so far. Contracts see them newest first, and beside them for how many more there is room.
#[derive(Drop)]
pub struct Journal {
    events: Vec<Event>,
    room: usize,
}

impl Model for Journal {
    ghost use Rattle.std.specs.Prelude.{reverse, ◌≤◌, ◌+◌, vec_len, vec_capacity};
    ghost use Rattle.n41_journal.specs.Journal.{Log};

    ghost Value = { Log };

    ghost view = { λ j. record { events = reverse j.events.items; room = j.room } };

    ghost invariant = { λ j. vec_len j.events + j.room ≤ vec_capacity j.events };
}

/// The item at an index, which counts from 0.
fn item(events: &[Event], index: usize) -> Option<&Event>
    ensures { option_copied result ≡ slice_get events.now index }
{
    events.get(index)
}

impl Journal {
    /// The empty journal. It takes no memory yet.
    pub fn new(alloc: Global) -> Journal
        ensures { result ≡ record { events = []; room = 0 } }
    {
        Journal {
            events: Vec::new(alloc),
            room: 0,
        }
    }

    /// Adds an event, or hands it back for want of memory. The room that was made stays.
    pub fn push(&mut self, event: Event) -> Result<(), Event>
        ensures ok { OnOk result (self.new ≡ record self.old { events = event ∷ self.old.events }) }
        ensures err { OnErr result (self.new ≡ self.old) }
        ensures back { IfErr result (λ e. e ≡ event) }
    {
        let Some(needed) = self.room.checked_add(1) else {
            return Err(event);
        };
        match self.events.reserve(needed) {
            Ok(()) => {}
            Err(_) => return Err(event),
        }
        match self.events.push(event) {
            Ok(()) => Ok(()),
            Err(failed) => Err(failed.value),
        }
    }

    /// Makes room for n events in all.
    pub fn reserve(&mut self, n: usize) -> Result<(), NoMemory>
        ensures ok { OnOk result (n ≤ self.new.room) }
        ensures more { self.old.room ≤ self.new.room }
        ensures events { self.new.events ≡ self.old.events }
        ensures err { OnErr result (self.new ≡ self.old) }
    {
        if n <= self.room {
            return Ok(());
        }
        self.events.reserve(n)?;
        self.room = n;
        Ok(())
    }

    /// Adds an event in the room that was made.
    pub fn add(&mut self, event: Event)
        requires { 0 < self.old.room }
        ensures { self.new ≡ record { events = event ∷ self.old.events; room = self.old.room - 1 } }
    {
        self.room -= 1;
        match self.events.push(event) {
            Ok(()) => {}
            Err(_) => {}
        }
    }

    /// For how many events there is room.
    pub fn room(&self) -> usize
        ensures { result ≡ self.now.room }
    {
        self.room
    }

    /// The number of events.
    pub fn len(&self) -> u64
        ensures { result ≡ length self.now.events }
    {
        self.events.len() as u64
    }

    /// The event at a place, counted from 1 for the oldest; None exactly where there is none.
    pub fn get(&self, place: u64) -> Option<&Event>
        ensures value { option_copied result ≡ event_at self.now.events place }
        ensures there { IsSome result ↔ ((0 < place) × (place ≤ length self.now.events)) }
    {
        if place == 0 {
            return None;
        }
        item(self.events.as_slice(), (place - 1) as usize)
    }

    /// The events, oldest first.
    pub fn as_slice(&self) -> &[Event]
        ensures { result.now ≡ reverse self.now.events }
    {
        self.events.as_slice()
    }
}

/// A continuation of a journal has each of its events, at the same place; and a journal with an event more is one.
pub fn keeps_places()
    ensures places { KeepsPlaces }
    ensures one { ContinuesByOne }
{}
