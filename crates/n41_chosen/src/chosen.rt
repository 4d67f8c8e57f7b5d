ghost use Rattle.std.specs.Prelude.{◌≡◌, None, Some, [], option_copied, if◌then◌else◌};
ghost use Rattle.n41_model.specs.Requests.{slot_number};
ghost use Rattle.n41_model.specs.Sessions.{passed};
ghost use Rattle.n41_calls.specs.Calls.{is_ready_call, in_running};
ghost use Rattle.n41_view.specs.declared.tables.Facts.{Facts};
ghost use Rattle.n41_view.specs.Step.{call_of, sooner_seat, wants, chosen_from, caller_in, is_new_in, new_owner};

use crate::plans::is_next;
use n41_model::Phase;
use n41_results::SessionMade;
use n41_said::holds;
use n41_types::{Plan, Request};
use n41_view::{Facts, Seat, Slot};

/// Whether two seconds have passed since then.
fn passed(since: Option<u64>, moment: u64) -> bool
    ensures { result ≡ passed since moment }
{
    match since {
        None => true,
        Some(since) => moment >= 2 && since <= moment - 2,
    }
}

/// Whether the caller's command can go on: it has no answer yet, no request out, and is not in its two seconds.
fn is_ready(moment: u64, seat: &Seat) -> bool
    ensures { result ≡ is_ready_call moment seat.now.command (call_of seat.now) }
{
    match &seat.command {
        None => false,
        Some(_) => !seat.busy && seat.earned.is_none() && passed(seat.since, moment),
    }
}

/// Whether the caller's command can go on, with this plan.
fn wants(moment: u64, session: Option<SessionMade>, plan: &Plan, seat: &Seat) -> bool
    ensures { result ≡ wants moment session plan.now seat.now }
{
    match &seat.command {
        None => false,
        Some(command) => is_ready(moment, seat) && is_next(session, command, &seat.way, plan),
    }
}

/// Of two callers the one whose command began first.
fn sooner_seat<'a>(best: Option<&'a Seat>, seat: &'a Seat) -> &'a Seat
    ensures { result.now ≡ sooner_seat (option_copied best.entry) seat.now }
{
    match best {
        None => seat,
        Some(best) => if seat.began_at < best.began_at {
            seat
        } else {
            best
        },
    }
}

/// The better of these for a request with this plan.
fn better<'a>(
    moment: u64,
    session: Option<SessionMade>,
    plan: &Plan,
    best: Option<&'a Seat>,
    seat: &'a Seat,
) -> Option<&'a Seat>
    ensures { option_copied result ≡ (if wants moment session plan.now seat.now then Some (sooner_seat (option_copied best.entry) seat.now) else option_copied best.entry) }
{
    if wants(moment, session, plan, seat) {
        Some(sooner_seat(best, seat))
    } else {
        best
    }
}

/// The caller, of these and the best of those before, whose command began first and wants this plan.
fn chosen_from<'a>(
    moment: u64,
    session: Option<SessionMade>,
    plan: &Plan,
    best: Option<&'a Seat>,
    seats: &'a [Seat],
) -> Option<&'a Seat>
    ensures { option_copied result ≡ chosen_from moment session plan.now (option_copied best.entry) seats.now }
{
    let mut best = best;
    for seat in seats {
        best = better(moment, session, plan, best, seat);
    }
    best
}

/// The number of a caller.
fn caller_in(seat: Option<&Seat>) -> Option<u32>
    ensures { result ≡ caller_in (option_copied seat.entry) }
{
    match seat {
        None => None,
        Some(seat) => Some(seat.caller),
    }
}

/// Whether the request is not out yet on the slot that it is for.
fn is_new(slots: &[Slot], request: &Request) -> bool
    ensures { (f : Facts) → result ≡ is_new_in (record { facts = f; bare = None; slots = slots.now; seats = [] }) request.now (slot_number request.now.slot) }
{
    let Some(used) = request.slot else {
        return true;
    };
    match slots.get(used.slot as usize) {
        None => true,
        Some(slot) => !holds(request.xid, slot.held.as_ref()),
    }
}

/// The caller that a request with this plan is for: none outside phase Running.
fn running_owner(facts: &Facts, seats: &[Seat], plan: &Plan) -> Option<u32>
    ensures { result ≡ in_running facts.now.phase (caller_in (chosen_from facts.now.moment facts.now.session plan.now None seats.now)) }
{
    match facts.phase {
        Phase::Running => { caller_in(chosen_from(facts.moment, facts.session, plan, None, seats)) }
        _ => None,
    }
}

/// The caller whose a request is that is put; None where it is the client's own or was put before.
pub fn new_owner(facts: &Facts, slots: &[Slot], seats: &[Seat], request: &Request) -> Option<u32>
    ensures { result ≡ new_owner (record { facts = facts.now; bare = None; slots = slots.now; seats = seats.now }) request.now }
{
    if is_new(slots, request) {
        running_owner(facts, seats, &request.plan)
    } else {
        None
    }
}
