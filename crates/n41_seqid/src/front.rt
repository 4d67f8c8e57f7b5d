ghost use Rattle.std.specs.Prelude.{◌≡◌, ◌≢◌, ◌≤◌, true, [], suc, length, None, Some, IfOk, IfSome, IfNone, OnOk, OnErr, nat_eq};
ghost use Rattle.std.specs.Map.{lookup};
ghost use Rattle.n41_seqid.specs.Seqids.{next};
ghost use Rattle.n41_seqid.specs.Fronts.{Roomy, Window, is_new, Adds, PutGives, IsPlaceOf, waits, popped, drained};

use crate::{newer, next};
use std::alloc::{AllocError, Global};
use std::marker::Model;

/// Why an item does not wait; the item comes back.
#[derive(Debug, Drop)]
pub enum SeqFault<T> {
    /// The seqid is not newer than the front, or an item waits with it.
    Twice(u32, T),
    NoMemory(T),
}

/// Items that leave in the order of their seqids. The front is the last seqid before which nothing is missing; items with later ones wait.
#[derive(Drop)]
pub struct Front<T> {
    at: u32,
    waiting: Vec<(u32, T)>,
}

impl<T> Model for Front<T> {
    ghost use Rattle.std.specs.Prelude.{◌≢◌, ◌-◌, vec_len, vec_capacity};
    ghost use Rattle.n41_seqid.specs.Fronts.{Roomy, Window};

    ghost Value = { Roomy T };

    ghost view = { λ f. record { window = record { at = f.at; waiting = f.waiting.items }; room = vec_capacity f.waiting - vec_len f.waiting } };

    ghost invariant = { λ f. f.at ≢ 0 };
}

/// The place of the item that waits with this seqid.
fn place_of<T>(waiting: &[(u32, T)], seqid: u32) -> Option<usize>
    ensures some { IfSome result (λ n. IsPlaceOf seqid waiting.now n) }
    ensures none { IfNone result (lookup (nat_eq seqid) waiting.now ≡ None) }
{
    for (n, item) in waiting.iter().enumerate() {
        if item.0 == seqid {
            return Some(n);
        }
    }
    None
}

impl<T: Drop> Front<T> {
    /// A front that has come to this seqid, with nothing behind it, and room for so many items.
    pub fn new(alloc: Global, at: u32, room: usize) -> Result<Front<T>, AllocError>
        requires { at ≢ 0 }
        ensures { IfOk result (λ f. f ≡ record { window = record { at = at; waiting = [] }; room = room }) }
    {
        Ok(Front {
            at,
            waiting: Vec::with_capacity(alloc, room)?,
        })
    }

    /// The seqid to which it has come.
    pub fn at(&self) -> u32
        ensures value { result ≡ self.now.window.at }
        ensures some { self.now.window.at ≢ 0 }
    {
        self.at
    }

    /// Whether an item with this seqid may wait: it is newer than the front, and none waits with it.
    pub fn is_new(&self, seqid: u32) -> bool
        requires { seqid ≢ 0 }
        ensures { result ≡ is_new self.now.window seqid }
    {
        match place_of(self.waiting.as_slice(), seqid) {
            Some(_place) => false,
            None => newer(seqid, self.at),
        }
    }

    /// Makes room for one more item.
    pub fn reserve(&mut self) -> Result<(), AllocError>
        ensures ok { OnOk result (1 ≤ self.new.room) }
        ensures window { self.new.window ≡ self.old.window }
        ensures room { self.old.room ≤ self.new.room }
        ensures full { OnErr result (self.old.room ≡ 0) }
        ensures err { OnErr result (self.new ≡ self.old) }
    {
        self.waiting.reserve(1)
    }

    /// An item waits with its seqid. It comes back where the seqid is no new one, and for want of memory.
    pub fn put(&mut self, seqid: u32, item: T) -> Result<(), SeqFault<T>>
        requires { seqid ≢ 0 }
        ensures { PutGives self.old seqid item result self.new }
    {
        if !self.is_new(seqid) {
            return Err(SeqFault::Twice(seqid, item));
        }
        if self.reserve().is_err() {
            return Err(SeqFault::NoMemory(item));
        }
        self.put_reserved(seqid, item);
        Ok(())
    }

    /// An item waits with its new seqid, in the room that was made.
    pub fn put_reserved(&mut self, seqid: u32, item: T)
        requires new { is_new self.old.window seqid ≡ true }
        requires room { 1 ≤ self.old.room }
        ensures { Adds self.old seqid item self.new }
    {
        self.waiting.push_reserved((seqid, item));
    }

    /// The front moves over the seqid that follows it, and the item that waits with that leaves. None where none waits with it.
    pub fn pop(&mut self) -> Option<T>
        ensures value { result ≡ waits self.old.window (next self.old.window.at) }
        ensures window { self.new.window ≡ popped self.old.window }
        ensures room { self.old.room ≤ self.new.room }
    {
        let following = next(self.at);
        let Some(place) = place_of(self.waiting.as_slice(), following) else {
            return None;
        };
        self.at = following;
        let (_seqid, item) = self.waiting.remove(place);
        Some(item)
    }

    /// How many items wait.
    pub fn waiting(&self) -> usize
        ensures { result ≡ length self.now.window.waiting }
    {
        self.waiting.len()
    }

    /// The front moves as far as it can, and the items over which it moves are dropped.
    pub fn drain(&mut self)
        ensures window { self.new.window ≡ drained self.old.window }
        ensures room { self.old.room ≤ self.new.room }
    {
        for _turn in 0..self.waiting() {
            if self.pop().is_none() {
                return;
            }
        }
    }

    /// The front is at this seqid from now on, and what waits is dropped.
    pub fn reset(&mut self, at: u32)
        requires { at ≢ 0 }
        ensures window { self.new.window ≡ record { at = at; waiting = [] } }
        ensures room { self.old.room ≤ self.new.room }
    {
        self.at = at;
        self.waiting.clear();
    }
}
