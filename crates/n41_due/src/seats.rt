ghost use Rattle.std.specs.Prelude.{◌≡◌, ◌<◌, ◌≤◌, ◌&&◌, if◌then◌else◌, Some, ℕ, true, false, length, slice_get, IfSome, IfNone};
ghost use Rattle.n41_calls.specs.Calls.{is_ready_call};
ghost use Rattle.n41_view.specs.Due.{all_idle, is_ready_seat};
ghost use Rattle.n41_view.specs.Step.{call_of};
ghost use Rattle.n41_due.specs.Order.{can_begin, began_of, is_sooner};

use crate::slots::has_passed;
use crate::walks::has_next;
use n41_view::Seat;

/// Whether every command is answered.
pub fn all_idle(seats: &[Seat]) -> bool
    ensures { result ≡ all_idle seats.now }
{
    for seat in seats {
        if seat.command.is_some() {
            return false;
        }
    }
    true
}

/// Whether the command can go on.
pub fn is_ready(moment: u64, seat: &Seat) -> bool
    ensures { result ≡ is_ready_seat moment seat.now }
{
    match seat.command {
        None => false,
        Some(_) => !seat.busy && seat.earned.is_none() && has_passed(seat.since, moment),
    }
}

fn can_begin(moment: u64, seat: &Seat) -> bool
    ensures { result ≡ can_begin moment (Some seat.now) }
{
    is_ready(moment, seat) && has_next(seat)
}

/// Whether the command began before that of the best caller so far.
fn is_sooner(seats: &[Seat], seat: &Seat, best: Option<usize>) -> bool
    ensures { result ≡ is_sooner seats.now seat.now best }
{
    match best {
        None => true,
        Some(caller) => match seats.get(caller) {
            None => false,
            Some(other) => seat.began_at < other.began_at,
        },
    }
}

fn better(
    seats: &[Seat],
    moment: u64,
    best: Option<usize>,
    caller: usize,
    seat: &Seat,
) -> Option<usize>
    ensures { result ≡ (if can_begin moment (Some seat.now) && is_sooner seats.now seat.now best then Some caller else best) }
{
    if can_begin(moment, seat) && is_sooner(seats, seat, best) {
        Some(caller)
    } else {
        best
    }
}

/// Of the callers whose command can go on, the one whose command began first.
pub fn first_ready(seats: &[Seat], moment: u64) -> Option<usize>
    ensures within { IfSome result (λ c. c < length seats.now) }
    ensures some { IfSome result (λ c. can_begin moment (slice_get seats.now c) ≡ true) }
    ensures first { IfSome result (λ c. (d : ℕ) → can_begin moment (slice_get seats.now d) ≡ true → began_of (slice_get seats.now c) ≤ began_of (slice_get seats.now d)) }
    ensures none { IfNone result ((d : ℕ) → can_begin moment (slice_get seats.now d) ≡ false) }
{
    let mut best = None;
    for (i, seat) in seats.iter().enumerate() {
        best = better(seats, moment, best, i, seat);
    }
    best
}
