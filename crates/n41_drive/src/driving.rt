// The loop over callers and turns.
ghost use Rattle.std.specs.Prelude.{◌≡◌, ◌≢◌, ◌<◌, ◌^◌, ℕ, List, [], length, replicate, true, IfOk, OnOk, OnErr, IsTrue};
ghost use Rattle.n41_journal.specs.declared.events.Event.{Event as EventValue};
ghost use Rattle.n41_desk.specs.Desks.{desk_state, desk_dialer, desk_clock, Holds};
ghost use Rattle.n41_desk.specs.Journals.{begun_by, failures};
ghost use Rattle.n41_desk.specs.Moments.{CountsDials, KeepsGiven};
ghost use Rattle.n41_desk.specs.declared.turns.Turn.{Turn as TurnValue};
ghost use Rattle.n41_drive.specs.Drives.{AreBuilt, AreBegun, AreFound, IsFound, HasBegun, PostsOnly, Works, IsAnswered, Driven, Begins};

use crate::next::next_of;
use n41_desk::{Desk, Turn};
use n41_link::{Clock, Dialer};
use n41_script::ScriptLine;
use n41_types::NoMemory;
use std::alloc::{AllocError, Global};
use std::sync::Wait;

/// Begins the next command of a caller, where it is idle and has one. True where it has none, and its last is answered.
fn post_next<D: Dialer, C: Clock>(
    desk: &mut Desk<D, C>,
    caller: u32,
    lines: &[ScriptLine],
    place: &mut usize,
) -> Result<bool, NoMemory>
where
    D::I: Drop,
    D::O: Drop,
    requires holds { Holds C.given desk.old }
    requires built { AreBuilt lines.now }
    requires begun { HasBegun (desk_state desk.old).events lines.now caller place.old }
    ensures begun { HasBegun (desk_state desk.new).events lines.now caller place.new }
    ensures others { (c : ℕ) → c ≢ caller → begun_by (desk_state desk.new).events c ≡ begun_by (desk_state desk.old).events c }
    ensures posts { PostsOnly (desk_state desk.old) (desk_state desk.new) }
    ensures found { IfOk result (λ done. IsTrue done → IsFound (desk_state desk.new).events lines.now caller) }
    ensures still { IfOk result (λ done. IsTrue done → desk_state desk.new ≡ desk_state desk.old) }
    ensures dialer { desk_dialer desk.new ≡ desk_dialer desk.old }
    ensures keeps { KeepsGiven (C.given (desk_clock desk.old)) (C.given (desk_clock desk.new)) }
    ensures tells { C.tells (desk_clock desk.new) ≡ C.tells (desk_clock desk.old) }
    ensures holds { Holds C.given desk.new }
{
    if !desk.is_idle(caller) {
        return Ok(false);
    }
    let end = lines.len();
    let Some(next) = next_of(lines, *place, caller) else {
        *place = end;
        return Ok(true);
    };
    let command = lines[next].command.clone()?;
    match desk.post(caller, command) {
        Ok(_) => {
            *place = next + 1;
            Ok(false)
        }
        Err(_) => Err(AllocError),
    }
}

/// Begins the next command of each caller that is idle and has one. True where none has one, and all are answered.
fn post_all<D: Dialer, C: Clock>(
    desk: &mut Desk<D, C>,
    lines: &[ScriptLine],
    places: &mut [usize],
) -> Result<bool, NoMemory>
where
    D::I: Drop,
    D::O: Drop,
    requires holds { Holds C.given desk.old }
    requires built { AreBuilt lines.now }
    requires few { length places.old < 2 ^ 32 }
    requires begun { AreBegun (length places.old) (desk_state desk.old).events lines.now places.old }
    ensures size { length places.new ≡ length places.old }
    ensures begun { AreBegun (length places.new) (desk_state desk.new).events lines.now places.new }
    ensures posts { PostsOnly (desk_state desk.old) (desk_state desk.new) }
    ensures found { IfOk result (λ done. IsTrue done → AreFound (length places.new) (desk_state desk.new).events lines.now) }
    ensures dialer { desk_dialer desk.new ≡ desk_dialer desk.old }
    ensures keeps { KeepsGiven (C.given (desk_clock desk.old)) (C.given (desk_clock desk.new)) }
    ensures tells { C.tells (desk_clock desk.new) ≡ C.tells (desk_clock desk.old) }
    ensures holds { Holds C.given desk.new }
{
    let mut all_done = true;
    for caller in 0..places.len() {
        let is_done = post_next(desk, caller as u32, lines, &mut places[caller])?;
        if !is_done {
            all_done = false;
        }
    }
    Ok(all_done)
}

/// Begins what may begin, and ends the commands where all are answered.
fn give<D: Dialer, C: Clock>(
    desk: &mut Desk<D, C>,
    lines: &[ScriptLine],
    places: &mut [usize],
) -> Result<(), NoMemory>
where
    D::I: Drop,
    D::O: Drop,
    requires holds { Holds C.given desk.old }
    requires built { AreBuilt lines.now }
    requires few { length places.old < 2 ^ 32 }
    requires works { Works (desk_state desk.old) lines.now places.old }
    ensures size { length places.new ≡ length places.old }
    ensures works { Works (desk_state desk.new) lines.now places.new }
    ensures setup { (desk_state desk.new).setup ≡ (desk_state desk.old).setup }
    ensures failures { failures (desk_state desk.new).events ≡ failures (desk_state desk.old).events }
    ensures dialer { desk_dialer desk.new ≡ desk_dialer desk.old }
    ensures keeps { KeepsGiven (C.given (desk_clock desk.old)) (C.given (desk_clock desk.new)) }
    ensures tells { C.tells (desk_clock desk.new) ≡ C.tells (desk_clock desk.old) }
    ensures holds { Holds C.given desk.new }
{
    if post_all(desk, lines, places)? {
        return desk.finish();
    }
    Ok(())
}

/// Begins what may begin, ends the commands where all are answered, and takes a turn.
fn step<D: Dialer, C: Clock>(
    alloc: Global,
    desk: &mut Desk<D, C>,
    addr: &str,
    lines: &[ScriptLine],
    places: &mut [usize],
) -> Result<Turn, NoMemory>
where
    D::I: Drop,
    D::O: Drop,
    requires holds { Holds C.given desk.old }
    requires built { AreBuilt lines.now }
    requires few { length places.old < 2 ^ 32 }
    requires works { Works (desk_state desk.old) lines.now places.old }
    ensures size { length places.new ≡ length places.old }
    ensures works { Works (desk_state desk.new) lines.now places.new }
    ensures idle { IfOk result (λ turn. turn ≡ TurnValue.Idle → IsAnswered (desk_state desk.new).setup.callers (desk_state desk.new).events) }
    ensures setup { (desk_state desk.new).setup ≡ (desk_state desk.old).setup }
    ensures counts { (js : List EventValue) (n : ℕ) → CountsDials js (desk_state desk.old).events n (D.faults (desk_dialer desk.old)) → CountsDials js (desk_state desk.new).events n (D.faults (desk_dialer desk.new)) }
    ensures keeps { KeepsGiven (C.given (desk_clock desk.old)) (C.given (desk_clock desk.new)) }
    ensures tells { C.tells (desk_clock desk.new) ≡ C.tells (desk_clock desk.old) }
    ensures holds { Holds C.given desk.new }
{
    give(desk, lines, places)?;
    desk.turn(alloc, addr)
}

/// Takes steps until the desk is idle, or for want of memory.
fn work<R: Wait, D: Dialer, C: Clock>(
    rt: &R,
    alloc: Global,
    desk: &mut Desk<D, C>,
    addr: &str,
    lines: &[ScriptLine],
    places: &mut [usize],
) -> Result<(), NoMemory>
where
    D::I: Drop,
    D::O: Drop,
    requires holds { Holds C.given desk.old }
    requires built { AreBuilt lines.now }
    requires few { length places.old < 2 ^ 32 }
    requires works { Works (desk_state desk.old) lines.now places.old }
    ensures works { Works (desk_state desk.new) lines.now places.new }
    ensures answered { OnOk result (IsAnswered (desk_state desk.new).setup.callers (desk_state desk.new).events) }
    ensures setup { (desk_state desk.new).setup ≡ (desk_state desk.old).setup }
    ensures counts { (js : List EventValue) (n : ℕ) → CountsDials js (desk_state desk.old).events n (D.faults (desk_dialer desk.old)) → CountsDials js (desk_state desk.new).events n (D.faults (desk_dialer desk.new)) }
    ensures keeps { KeepsGiven (C.given (desk_clock desk.old)) (C.given (desk_clock desk.new)) }
    ensures tells { C.tells (desk_clock desk.new) ≡ C.tells (desk_clock desk.old) }
    ensures holds { Holds C.given desk.new }
{
    for _ in rt.forever() {
        if let Turn::Idle = step(alloc, desk, addr, lines, places)? {
            return Ok(());
        }
    }
    unreachable!()
}

/// The places of so many callers before the first line.
fn first_places(alloc: Global, callers: u32) -> Result<Vec<usize>, NoMemory>
    ensures { IfOk result (λ places. places.items ≡ replicate callers 0) }
{
    vec![in alloc; 0usize; callers as usize]
}

/// Works through the commands of a script: each of so many callers, from 0, begins its commands in their order, the next once the last is answered. When all
/// are answered no more come. It returns when the desk is idle, or for want of memory.
pub fn drive<R: Wait, D: Dialer, C: Clock>(
    rt: &R,
    alloc: Global,
    desk: &mut Desk<D, C>,
    addr: &str,
    callers: u32,
    lines: &[ScriptLine],
) -> Result<(), NoMemory>
where
    D::I: Drop,
    D::O: Drop,
    requires holds { Holds C.given desk.old }
    requires all { callers ≡ (desk_state desk.old).setup.callers }
    requires new { (desk_state desk.old).events ≡ [] }
    requires built { AreBuilt lines.now }
    ensures driven { OnOk result (Driven callers (desk_state desk.new).events lines.now) }
    ensures begun { OnErr result (Begins callers (desk_state desk.new).events lines.now) }
    ensures setup { (desk_state desk.new).setup ≡ (desk_state desk.old).setup }
    ensures counts { CountsDials [] (desk_state desk.new).events (D.faults (desk_dialer desk.old)) (D.faults (desk_dialer desk.new)) }
    ensures keeps { KeepsGiven (C.given (desk_clock desk.old)) (C.given (desk_clock desk.new)) }
    ensures tells { C.tells (desk_clock desk.new) ≡ C.tells (desk_clock desk.old) }
    ensures holds { Holds C.given desk.new }
{
    let mut places = first_places(alloc, callers)?;
    work(rt, alloc, desk, addr, lines, places.as_mut_slice())
}
