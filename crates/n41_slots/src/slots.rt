ghost use Rattle.std.specs.Prelude.{◌≡◌, ◌<◌, ◌≤◌, ◌++◌, ◌∷◌, ◌+◌, [], ℕ, None, Some, true, false, IfOk, IfErr, IfSome, IfNone, map, replicate, length, option_copied, slice_get, vec_len};
ghost use Rattle.n41_slots.specs.Slots.{Table, Asked, IsLowestFree, NoneIsFree, IsPlaced, idle, is_free, request_at, ones, count, highest_from, made, taken, left, released};

use n41_types::{NoMemory, Plan, Request, SessionId, SlotUse};
use std::alloc::Global;
use std::marker::Model;

/// A slot of a session (RFC 8881, section 2.10.6.1).
#[derive(Drop)]
pub struct Slot {
    /// The last turn that was given out on it, and not given back.
    pub used: u32,
    /// The request that is out.
    pub request: Option<Request>,
}

/// The slots of a session, from 1 to 64. Contracts see the session, the target and the list of slots.
#[derive(Drop)]
pub struct Slots {
    sid: SessionId,
    target: u32,
    slots: Vec<Slot>,
    out: u32,
}

impl Model for Slots {
    ghost use Rattle.n41_slots.specs.Slots.{Table};

    ghost Value = { Table };

    ghost use Rattle.n41_slots.specs.Inside.{inside, IsSound};

    ghost view = { inside };

    ghost invariant = { IsSound };
}

/// So many slots that were never used.
fn new_slots(alloc: Global, n: u32) -> Result<Vec<Slot>, NoMemory>
    ensures { IfOk result (λ slots. slots.items ≡ replicate n (idle 0)) }
{
    let mut slots = Vec::with_capacity(alloc, n as usize)?;
    for _number in 0..n {
        slots.push(Slot {
            used: 0,
            request: None,
        })?;
    }
    Ok(slots)
}

/// Slots with nothing out, each with the last turn that was used on it.
fn used_slots(alloc: Global, used: &[u32]) -> Result<Vec<Slot>, NoMemory>
    ensures { IfOk result (λ slots. slots.items ≡ map idle used.now) }
{
    let mut slots = Vec::with_capacity(alloc, used.len())?;
    for turn in used {
        slots.push(Slot {
            used: *turn,
            request: None,
        })?;
    }
    Ok(slots)
}

/// One where there is a request.
fn ones(request: &Option<Request>) -> u32
    ensures { result ≡ ones request.now }
{
    match request {
        None => 0,
        Some(_) => 1,
    }
}

impl Slot {
    /// Whether a new request may go on it: nothing is out, and its turns are not spent.
    fn is_free(&self) -> bool
        ensures { result ≡ is_free (Some self.now) }
    {
        self.request.is_none() && self.used < u32::MAX
    }

    /// Puts a request on it, with the next turn.
    fn hold(&mut self, request: Request)
        requires { self.old.used < 4294967295 }
        ensures { self.new ≡ record { used = self.old.used + 1; request = Some request } }
    {
        self.used += 1;
        drop(self.request.replace(request));
    }

    /// Takes the request off. A turn that was not used is given back.
    fn leave(&mut self, used: bool) -> Option<Request>
        ensures value { result ≡ self.old.request }
        ensures slot { self.new ≡ left used self.old }
    {
        if !used && self.request.is_some() {
            self.used = self.used.saturating_sub(1);
        }
        self.request.take()
    }
}

/// The first of these that is free.
fn first_free(slots: &[Slot]) -> Option<usize>
    ensures some { IfSome result (λ n. is_free (slice_get slots.now n) ≡ true) }
    ensures first { IfSome result (λ n. (k : ℕ) → k < n → is_free (slice_get slots.now k) ≡ false) }
    ensures none { IfNone result ((k : ℕ) → is_free (slice_get slots.now k) ≡ false) }
{
    for (n, slot) in slots.iter().enumerate() {
        if slot.is_free() {
            return Some(n);
        }
    }
    None
}

/// The highest slot that is out, this one included.
fn highest(slots: &[Slot], this: u32) -> u32
    requires { length slots.now ≤ 64 }
    ensures { result ≡ highest_from 0 slots.now this }
{
    let mut highest = this;
    for (n, slot) in slots.iter().enumerate() {
        if slot.request.is_some() {
            highest = highest.max(n as u32);
        }
    }
    highest
}

impl Slots {
    /// The slots of a new session: n of them, never used, and requests go on none above the target.
    pub fn new(alloc: Global, sid: SessionId, n: u32, target: u32) -> Result<Slots, NoMemory>
        requires some { 1 ≤ n }
        requires few { n ≤ 64 }
        ensures { IfOk result (λ slots. slots ≡ record { sid = sid; target = target; slots = replicate n (idle 0) }) }
    {
        Ok(Slots {
            sid,
            target,
            slots: new_slots(alloc, n)?,
            out: 0,
        })
    }

    /// The slots of a session that goes on, with nothing out: slot n has used the n-th of these turns last.
    pub fn resume(
        alloc: Global,
        sid: SessionId,
        target: u32,
        used: &[u32],
    ) -> Result<Slots, NoMemory>
        requires some { 1 ≤ length used.now }
        requires few { length used.now ≤ 64 }
        ensures { IfOk result (λ slots. slots ≡ record { sid = sid; target = target; slots = map idle used.now }) }
    {
        Ok(Slots {
            sid,
            target,
            slots: used_slots(alloc, used)?,
            out: 0,
        })
    }

    /// The lowest slot that is free and not above the target.
    fn lowest_free(&self) -> Option<usize>
        ensures some { IfSome result (λ n. IsLowestFree self.now n) }
        ensures none { IfNone result (NoneIsFree self.now) }
    {
        let count = self.slots.len().min(self.target as usize + 1);
        first_free(&self.slots[..count])
    }

    /// Puts the plan on the lowest slot that is free and not above the target, with the next turn; hands it back exactly where there is
    /// none.
    pub fn take(
        &mut self,
        uid: u32,
        gid: u32,
        minor: u32,
        xid: u32,
        plan: Plan,
    ) -> Result<u32, Plan>
        ensures lowest { IfOk result (λ n. IsLowestFree self.old n) }
        ensures ok { IfOk result (λ n. self.new ≡ taken self.old n (record { xid = xid; uid = uid; gid = gid; minor = minor; plan = plan })) }
        ensures none { IfErr result (λ p. NoneIsFree self.old) }
        ensures err { IfErr result (λ p. (p ≡ plan) × (self.new ≡ self.old)) }
    {
        let Some(n) = self.lowest_free() else {
            return Err(plan);
        };
        let number = n as u32;
        let request = Request {
            xid,
            uid,
            gid,
            minor,
            slot: Some(SlotUse {
                sid: self.sid,
                slot: number,
                turn: self.slots[n].used + 1,
                highest: highest(&self.slots, number),
                cache: plan.is_cached(),
            }),
            plan,
        };
        self.slots[n].hold(request);
        self.out += 1;
        Ok(number)
    }

    /// The request that is out on a slot. It tells the session, that slot and the last turn there.
    pub fn request(&self, slot: u32) -> Option<&Request>
        ensures value { option_copied result ≡ request_at self.now slot }
        ensures placed { IsPlaced self.now }
    {
        self.slots.get(slot as usize)?.request.as_ref()
    }

    /// Takes the request off its slot; None exactly where nothing is out. The turn stays used, or is given back where it was not.
    pub fn release(&mut self, slot: u32, used: bool) -> Option<Request>
        ensures value { result ≡ request_at self.old slot }
        ensures table { self.new ≡ released self.old slot used }
    {
        let n = slot as usize;
        if n >= self.slots.len() {
            return None;
        }
        let request = self.slots[n].leave(used);
        self.out -= ones(&request);
        request
    }

    /// The highest slot that requests may go on from now on.
    pub fn set_target(&mut self, target: u32)
        ensures { self.new ≡ record self.old { target = target } }
    {
        self.target = target;
    }

    /// How many requests are out.
    #[tactic(auto, using(crate::proofs::Counts::count_most))]
    pub fn out(&self) -> u32
        ensures value { result ≡ count self.now.slots }
        ensures few { result ≤ 64 }
    {
        self.out
    }
}
