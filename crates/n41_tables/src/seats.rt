ghost use Rattle.std.specs.Prelude.{◌≡◌, ◌+◌, ◌-◌, ◌<◌, ◌^◌, None, Some, map, option_map, slice_get, if◌then◌else◌};
ghost use Rattle.n41_calls.specs.Calls.{fresh_call, put_call, took_call, answered_call, is_put_off_by, listed_of, way_of, listing_in, reached_in};
ghost use Rattle.n41_said.specs.Listings.{names_told};
ghost use Rattle.n41_view.specs.Step.{with_call, call_of, began_seat, put_seat, took_seat, answered_seat};
ghost use Rattle.n41_tables.specs.Earned.{earned_at};
ghost use Rattle.n41_tables.specs.Sound.{IsPlaced, IsTried, seat_place};

use n41_model::{Listed, Verdict, is_final};
use n41_results::Reply;
use n41_said::{Brought, Said, attempts_after, is_put_off_by, took_way, way_of};
use n41_types::{Answer, Command};
use n41_view::Seat;

/// A caller gave a command: its number, the listing that it begins, and the moment and the place where it began.
fn began_seat(
    number: u64,
    command: Command,
    listed: Option<Listed>,
    moment: u64,
    place: u64,
    seat: &mut Seat,
)
    requires { listed ≡ listed_of command }
    ensures { seat.new ≡ with_call (record seat.old { command = Some command; number = number; began_at = place; began_on = moment }) (fresh_call (way_of command)) }
{
    seat.way = way_of(&command, listed);
    drop(seat.command.replace(command));
    seat.number = number;
    seat.began_at = place;
    seat.began_on = moment;
    seat.busy = false;
    seat.since = None;
    seat.attempts = 0;
    drop(seat.earned.take());
}

/// A caller gave a command, if there is this caller.
pub(crate) fn began_seats(
    caller: u32,
    number: u64,
    command: Command,
    listed: Option<Listed>,
    moment: u64,
    place: u64,
    seats: &mut [Seat],
)
    requires placed { IsPlaced seat_place 0 seats.old }
    requires listed { listed ≡ listed_of command }
    ensures { seats.new ≡ map (began_seat caller number command moment place) seats.old }
{
    let index = caller as usize;
    if index >= seats.len() {
        drop(command);
        drop(listed);
        return;
    }
    let seat = &mut seats[index];
    began_seat(number, command, listed, moment, place, seat);
}

/// A request of a caller is put.
fn put_seat(seat: &mut Seat)
    requires { seat.old.attempts + 1 < 2 ^ 64 }
    ensures { seat.new ≡ with_call seat.old (put_call (call_of seat.old)) }
{
    seat.busy = true;
    seat.since = None;
    seat.attempts += 1;
}

/// A request is put, maybe of a caller.
pub(crate) fn put_seats(owner: Option<u32>, seats: &mut [Seat])
    requires placed { IsPlaced seat_place 0 seats.old }
    requires tried { IsTried (2 ^ 64 - 2) seats.old }
    ensures { seats.new ≡ map (put_seat owner) seats.old }
{
    let Some(caller) = owner else {
        return;
    };
    let index = caller as usize;
    if index >= seats.len() {
        return;
    }
    let seat = &mut seats[index];
    put_seat(seat);
}

/// The moment of a reply that leads to a new attempt.
fn since_after(verdict: Option<Verdict>, attempts: u64, moment: u64) -> Option<u64>
    ensures { result ≡ (if is_put_off_by verdict attempts then Some moment else None) }
{
    if is_put_off_by(verdict, attempts) {
        Some(moment)
    } else {
        None
    }
}

/// A reply to a request of a caller is taken, with what it brings. It changes nothing where no request of the caller's command is out.
fn took_seat(moment: u64, said: &Said, reply: &Reply, brought: Brought, seat: &mut Seat)
    requires reached { brought.reached ≡ reached_in reply.now.body }
    requires names { option_map (λ v. v.items) brought.names ≡ names_told (listing_in reply.now.body) }
    ensures { seat.new ≡ with_call seat.old (took_call moment seat.old.command said.now.plan said.now.slot reply.now (call_of seat.old)) }
{
    if !is_final(reply) || !seat.busy {
        return;
    }
    let attempts = seat.attempts;
    drop(seat.earned.take());
    seat.busy = false;
    seat.since = since_after(said.slot, attempts, moment);
    seat.attempts = attempts_after(said.slot, attempts);
    seat.earned = took_way(
        seat.command.as_ref(),
        said.request,
        said.slot,
        attempts,
        reply,
        brought,
        &mut seat.way,
    );
}

/// A reply is taken, maybe to a request of a caller.
pub(crate) fn took_seats(
    moment: u64,
    said: &Said,
    reply: &Reply,
    brought: Brought,
    seats: &mut [Seat],
)
    requires placed { IsPlaced seat_place 0 seats.old }
    requires reached { brought.reached ≡ reached_in reply.now.body }
    requires names { option_map (λ v. v.items) brought.names ≡ names_told (listing_in reply.now.body) }
    ensures { seats.new ≡ map (took_seat moment said.now reply.now) seats.old }
{
    let Some(caller) = said.owner else {
        return;
    };
    let index = caller as usize;
    if index >= seats.len() {
        return;
    }
    let seat = &mut seats[index];
    took_seat(moment, said, reply, brought, seat);
}

/// A command of a caller was answered: the seat gives up the answer that its last reply gave.
fn answered_seat(seat: &mut Seat) -> Option<Answer>
    ensures earned { result ≡ seat.old.earned }
    ensures seat { seat.new ≡ with_call (record seat.old { command = None }) (answered_call (call_of seat.old)) }
{
    drop(seat.command.take());
    seat.earned.take()
}

/// A command was answered, if there is this caller: its seat gives up the answer that its last reply gave.
pub(crate) fn answered_seats(caller: u32, seats: &mut [Seat]) -> Option<Answer>
    requires { IsPlaced seat_place 0 seats.old }
    ensures earned { result ≡ earned_at (slice_get seats.old caller) }
    ensures seats { seats.new ≡ map (answered_seat caller) seats.old }
{
    let index = caller as usize;
    if index >= seats.len() {
        return None;
    }
    let seat = &mut seats[index];
    answered_seat(seat)
}
