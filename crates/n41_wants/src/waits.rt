//! The moments that requests and commands wait for.

ghost use Rattle.std.specs.Prelude.{◌≡◌};
ghost use Rattle.n41_wants.specs.Wants.{ahead, held_wait, pause_wait, seat_wait, earlier, slots_wait, seats_wait, phase_wait, wait_in};

use n41_due::{Lookup, put_off};
use n41_model::Sent;
use n41_types::Command;
use n41_view::{Facts, Held, Seat, Slot};

/// Two seconds after a moment, where that lies ahead.
fn ahead(moment: u64, since: Option<u64>) -> Option<u64>
    ensures { result ≡ ahead moment since }
{
    match since {
        None => None,
        Some(then) => {
            if moment >= 2 && then <= moment - 2 {
                None
            } else {
                Some(then.saturating_add(2))
            }
        }
    }
}

fn held_wait(moment: u64, held: &Option<Held>) -> Option<u64>
    ensures { result ≡ held_wait moment held.now }
{
    match held {
        None => None,
        Some(held) => match held.sent {
            Sent::Delayed(then) => ahead(moment, Some(then)),
            Sent::Never | Sent::Waits | Sent::Unbound => None,
        },
    }
}

fn earlier(one: Option<u64>, other: Option<u64>) -> Option<u64>
    ensures { result ≡ earlier one other }
{
    match (one, other) {
        (None, _) => other,
        (Some(_), None) => one,
        (Some(a), Some(b)) => Some(a.min(b)),
    }
}

/// When a pause is over that began at this moment.
fn pause_wait(began: u64, command: &Option<Command>) -> Option<u64>
    ensures { result ≡ pause_wait began command.now }
{
    match command {
        Some(Command::Pause { seconds }) => Some(began.saturating_add(u64::from(*seconds))),
        _ => None,
    }
}

fn seat_wait(moment: u64, seat: &Seat) -> Option<u64>
    ensures { result ≡ seat_wait moment seat.now }
{
    if seat.command.is_none() || seat.busy || seat.earned.is_some() {
        return None;
    }
    earlier(
        ahead(moment, seat.since),
        pause_wait(seat.began_on, &seat.command),
    )
}

fn slots_wait(slots: &[Slot], moment: u64, first: Option<u64>) -> Option<u64>
    ensures { result ≡ slots_wait moment slots.now first }
{
    let mut best = first;
    for slot in slots {
        best = earlier(best, held_wait(moment, &slot.held));
    }
    best
}

fn seats_wait(seats: &[Seat], moment: u64, first: Option<u64>) -> Option<u64>
    ensures { result ≡ seats_wait moment seats.now first }
{
    let mut best = first;
    for seat in seats {
        best = earlier(best, seat_wait(moment, seat));
    }
    best
}

fn phase_wait(facts: &Facts) -> Option<u64>
    ensures { result ≡ phase_wait facts.now }
{
    ahead(facts.moment, put_off(&facts.put_off, facts.phase))
}

/// The earliest moment at which a request or a command stops waiting.
pub(crate) fn wait(look: &Lookup) -> Option<u64>
    ensures { result ≡ wait_in look.now }
{
    let facts = look.facts();
    let first = slots_wait(look.slots(), facts.moment, phase_wait(facts));
    seats_wait(look.seats(), facts.moment, first)
}
