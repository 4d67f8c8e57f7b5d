ghost use Rattle.std.specs.Prelude.{◌≡◌, ◌+◌, ◌<◌, ◌^◌, ◌==◌, ◌&&◌, ℕ, Some, None, OnOk, is_some, if◌then◌else◌, option_map};
ghost use Rattle.n41_calls.specs.Calls.{is_caller, listing_in, reached_in, is_put_off_by, pause_given, took_call, way_of};
ghost use Rattle.n41_view.specs.Causes.{given_in};
ghost use Rattle.n41_said.specs.Listings.{names_told};
ghost use Rattle.n41_view.specs.Step.{call_of, with_call, wants};
ghost use Rattle.n41_model.specs.declared.words.Phase.TheVariants as phase;
ghost use Rattle.std.specs.BTreeMap.{IsOrdered};
ghost use Rattle.std.specs.Ordering.{nat_cmp};
ghost use Rattle.n41_check.specs.Callers.{blank_seat, seat_at, begun, put, answered, sooner_of, best_of, caller_of};

use n41_chosen::new_owner;
use n41_model::{Phase, Verdict, Way, is_final};
use n41_results::{Reply, SessionMade};
use n41_said::{Brought, Said, attempts_after, is_put_off_by, listed_of, took_way, way_of};
use n41_types::{Command, NoMemory, Place, Request};
use n41_view::{Facts, PutOffs, Seat};
use std::alloc::Global;
use std::collections::BTreeMap;
use std::slice;

/// What is known of each caller.
pub(crate) type Seats = BTreeMap<u32, Seat>;

/// A caller that began nothing.
fn blank_seat(caller: u32) -> Seat
    ensures { result ≡ blank_seat caller }
{
    Seat {
        caller,
        command: None,
        number: 0,
        began_at: 0,
        began_on: 0,
        busy: false,
        since: None,
        attempts: 0,
        earned: None,
        way: Way {
            at: Place::Root,
            walked: 0,
            old: None,
            listed: None,
        },
    }
}

/// A caller that began a command of this number, which has come so far, at this moment and place.
fn begun(caller: u32, number: u64, command: Command, way: Way, moment: u64, place: u64) -> Seat
    requires { way ≡ way_of command }
    ensures { result ≡ begun caller number command moment place }
{
    Seat {
        caller,
        command: Some(command),
        number,
        began_at: place,
        began_on: moment,
        busy: false,
        since: None,
        attempts: 0,
        earned: None,
        way,
    }
}

/// What is known of a caller is taken out.
fn take_seat(caller: u32, seats: &mut Seats) -> Seat
    ensures seat { result ≡ seat_at seats.old caller }
    ensures others { (c : ℕ) → seat_at seats.new c ≡ (if caller == c then blank_seat c else seat_at seats.old c) }
{
    match seats.remove(&caller) {
        None => blank_seat(caller),
        Some(seat) => seat,
    }
}

/// What is known of a caller is put in.
fn put_in(caller: u32, seat: Seat, seats: &mut Seats) -> Result<(), NoMemory>
    ensures { OnOk result ((c : ℕ) → seat_at seats.new c ≡ (if caller == c then seat else seat_at seats.old c)) }
{
    seats.insert(caller, seat)?;
    Ok(())
}

/// A caller began a command of this number, at this moment and place.
pub(crate) fn began(
    alloc: Global,
    caller: u32,
    number: u64,
    command: &Command,
    moment: u64,
    place: u64,
    seats: &mut Seats,
) -> Result<(), NoMemory>
    ensures { OnOk result ((c : ℕ) → seat_at seats.new c ≡ (if caller == c then begun caller number command.now moment place else seat_at seats.old c)) }
{
    let listed = listed_of(alloc, command)?;
    let seat = begun(
        caller,
        number,
        command.clone()?,
        way_of(command, listed),
        moment,
        place,
    );
    put_in(caller, seat, seats)
}

/// A new request of a caller's command is out.
fn put_seat(seat: &mut Seat)
    requires { seat.old.attempts + 1 < 2 ^ 64 }
    ensures { seat.new ≡ put seat.old }
{
    seat.busy = true;
    seat.since = None;
    seat.attempts += 1;
}

/// A new request is out, maybe of a caller.
pub(crate) fn put(owner: Option<u32>, seats: &mut Seats) -> Result<(), NoMemory>
    requires { (c : ℕ) → (seat_at seats.old c).attempts + 1 < 2 ^ 64 }
    ensures { OnOk result ((c : ℕ) → seat_at seats.new c ≡ (if is_caller owner c then put (seat_at seats.old c) else seat_at seats.old c)) }
{
    let Some(caller) = owner else {
        return Ok(());
    };
    let mut seat = take_seat(caller, seats);
    put_seat(&mut seat);
    put_in(caller, seat, seats)
}

/// The moment of a reply that leads to a new attempt.
fn since_after(verdict: Option<Verdict>, attempts: u64, moment: u64) -> Option<u64>
    ensures { result ≡ (if is_put_off_by verdict attempts then Some moment else None) }
{
    if is_put_off_by(verdict, attempts) {
        Some(moment)
    } else {
        None
    }
}

/// A reply to a request of a caller is taken, with what it brings.
fn took_seat(moment: u64, said: &Said, reply: &Reply, brought: Brought, seat: &mut Seat)
    requires reached { brought.reached ≡ reached_in reply.now.body }
    requires names { option_map (λ v. v.items) brought.names ≡ names_told (listing_in reply.now.body) }
    ensures { seat.new ≡ with_call seat.old (took_call moment seat.old.command said.now.plan said.now.slot reply.now (call_of seat.old)) }
{
    if !is_final(reply) || !seat.busy {
        return;
    }
    let attempts = seat.attempts;
    drop(seat.earned.take());
    seat.busy = false;
    seat.since = since_after(said.slot, attempts, moment);
    seat.attempts = attempts_after(said.slot, attempts);
    seat.earned = took_way(
        seat.command.as_ref(),
        said.request,
        said.slot,
        attempts,
        reply,
        brought,
        &mut seat.way,
    );
}

/// A reply is taken, maybe to a request of a caller.
pub(crate) fn took(
    alloc: Global,
    moment: u64,
    said: &Said,
    reply: &Reply,
    seats: &mut Seats,
) -> Result<(), NoMemory>
    ensures { OnOk result ((c : ℕ) → seat_at seats.new c ≡ (if is_caller said.now.owner c then with_call (seat_at seats.old c) (took_call moment (seat_at seats.old c).command said.now.plan said.now.slot reply.now (call_of (seat_at seats.old c))) else seat_at seats.old c)) }
{
    let Some(caller) = said.owner else {
        return Ok(());
    };
    let brought = Brought::of(alloc, &reply.body)?;
    let mut seat = take_seat(caller, seats);
    took_seat(moment, said, reply, brought, &mut seat);
    put_in(caller, seat, seats)
}

/// A command of a caller was answered.
pub(crate) fn answered(caller: u32, seats: &mut Seats) -> Result<(), NoMemory>
    ensures { OnOk result ((c : ℕ) → seat_at seats.new c ≡ (if caller == c then answered (seat_at seats.old c) else seat_at seats.old c)) }
{
    let mut seat = take_seat(caller, seats);
    drop(seat.command.take());
    drop(seat.earned.take());
    put_in(caller, seat, seats)
}

/// Of a caller with the place where its command began, and this one, the one whose command began first.
fn sooner_of(best: Option<(u32, u64)>, caller: u32, began_at: u64) -> Option<(u32, u64)>
    ensures { result ≡ sooner_of best caller began_at }
{
    match best {
        Some(best) if best.1 <= began_at => Some(best),
        _ => Some((caller, began_at)),
    }
}

/// What tells whose a request is, at this moment and in this session, where requests of callers go out. Nothing else of it is looked at.
fn running(moment: u64, session: Option<SessionMade>) -> Facts
    ensures moment { result.moment ≡ moment }
    ensures session { result.session ≡ session }
    ensures phase { result.phase ≡ phase.Running }
{
    Facts {
        standing: None,
        dials: 0,
        puts: 0,
        takes: 0,
        moment,
        heard: false,
        rounds: 0,
        quit: false,
        bound: false,
        completed: false,
        phase: Phase::Running,
        work: Phase::Running,
        session,
        client: None,
        slots: 0,
        target: 0,
        last_xid: 0,
        bare_waits: false,
        bare_put_at: 0,
        put_off: PutOffs {
            binding: None,
            session: None,
            client_id: None,
            completing: None,
        },
        breach_at: None,
        events: 0,
    }
}

/// Whether a new request is this caller's, where there is no other.
#[tactic(auto, using(crate::proofs::Alone::wants_alone))]
fn wants(facts: &Facts, request: &Request, seat: &Seat) -> bool
    requires { facts.now.phase ≡ phase.Running }
    ensures { result ≡ wants facts.now.moment facts.now.session request.now.plan seat.now }
{
    new_owner(facts, &[], slice::from_ref(seat), request).is_some()
}

/// The caller whose command began first, of those whose next request this is.
pub(crate) fn chosen(
    moment: u64,
    session: Option<SessionMade>,
    request: &Request,
    seats: &Seats,
) -> Option<u32>
    ensures value { result ≡ caller_of (best_of moment session request.now.plan None seats.now.entries) }
    ensures ordered { IsOrdered nat_cmp seats.now }
{
    let facts = running(moment, session);
    let mut best = None;
    for (caller, seat) in seats {
        if wants(&facts, request, seat) {
            best = sooner_of(best, *caller, seat.began_at);
        }
    }
    match best {
        None => None,
        Some(best) => Some(best.0),
    }
}

/// Whether a request of the caller's command is out.
pub(crate) fn is_busy(caller: u32, seats: &Seats) -> bool
    ensures { result ≡ (seat_at seats.now caller).busy }
{
    match seats.get(&caller) {
        None => false,
        Some(seat) => seat.busy,
    }
}

/// The number of the caller's last command.
pub(crate) fn number(caller: u32, seats: &Seats) -> u64
    ensures { result ≡ (seat_at seats.now caller).number }
{
    match seats.get(&caller) {
        None => 0,
        Some(seat) => seat.number,
    }
}

/// Whether the caller's command of this number is unanswered.
pub(crate) fn is_asked(caller: u32, number: u64, seats: &Seats) -> bool
    ensures { result ≡ (is_some (seat_at seats.now caller).command && (number == (seat_at seats.now caller).number)) }
{
    match seats.get(&caller) {
        None => false,
        Some(seat) => seat.command.is_some() && number == seat.number,
    }
}

/// Whether the command is a pause that is over.
fn is_paused(moment: u64, seat: &Seat) -> bool
    ensures { result ≡ is_some (pause_given seat.now.began_on moment seat.now.command) }
{
    match &seat.command {
        Some(Command::Pause { seconds }) => {
            u64::from(*seconds) <= moment.saturating_sub(seat.began_on)
        }
        _ => false,
    }
}

/// Whether the command has an answer by now.
fn has_answer(moment: u64, seat: &Seat) -> bool
    ensures { result ≡ is_some (given_in moment seat.now) }
{
    seat.earned.is_some() || is_paused(moment, seat)
}

/// Whether the caller's command has an answer by now.
pub(crate) fn is_given(moment: u64, caller: u32, seats: &Seats) -> bool
    ensures { result ≡ is_some (given_in moment (seat_at seats.now caller)) }
{
    match seats.get(&caller) {
        None => false,
        Some(seat) => has_answer(moment, seat),
    }
}
