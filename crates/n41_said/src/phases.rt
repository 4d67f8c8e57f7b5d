ghost use Rattle.std.specs.Prelude.{◌≡◌, option_copied};
ghost use Rattle.n41_model.specs.Sessions.{dialed_phase, broke_phase, worked, bare_phase, slot_phase, is_step_of, is_lease_time, is_complete, completes, is_bare_delay, is_refused_complete, plan_in};
ghost use Rattle.n41_view.specs.Step.{reply_phase, puts_off};

use crate::said::Said;
use n41_model::{BareVerdict, KnownClient, Phase, Verdict};
use n41_results::SessionMade;
use n41_types::{Plan, Request, Status};

/// The phase once a connection was made.
pub fn dialed_phase(
    phase: Phase,
    session: Option<SessionMade>,
    client: Option<KnownClient>,
) -> Phase
    ensures { result ≡ dialed_phase phase session client }
{
    match phase {
        Phase::Dead => Phase::Dead,
        _ => match (session, client) {
            (Some(_), _) => Phase::Binding,
            (None, Some(_)) => Phase::Session,
            (None, None) => Phase::ClientId,
        },
    }
}

/// The phase once the connection broke.
pub fn broke_phase(phase: Phase) -> Phase
    ensures { result ≡ broke_phase phase }
{
    match phase {
        Phase::Dead => Phase::Dead,
        _ => Phase::Down,
    }
}

/// The phase that the work goes back to once the connection is bound.
pub fn worked(phase: Phase, work: Phase) -> Phase
    ensures { result ≡ worked phase work }
{
    match phase {
        Phase::Down | Phase::Binding => work,
        _ => phase,
    }
}

/// The phase after the verdict on a request without a slot.
fn bare_phase(verdict: Option<BareVerdict>, phase: Phase, work: Phase) -> Phase
    ensures { result ≡ bare_phase verdict phase work }
{
    match verdict {
        Some(BareVerdict::Named { .. }) => Phase::Session,
        Some(BareVerdict::Made(_)) => Phase::Completing,
        Some(BareVerdict::Stale) => Phase::ClientId,
        Some(BareVerdict::Bound) => work,
        Some(BareVerdict::Breach) => Phase::Dead,
        _ => phase,
    }
}

/// Whether the request asks for the lease time.
fn is_lease_time(request: Option<&Request>) -> bool
    ensures { result ≡ is_lease_time (plan_in (option_copied request.entry)) }
{
    match request {
        None => false,
        Some(request) => matches!(request.plan, Plan::LeaseTime),
    }
}

/// The phase after the verdict on a request with a slot.
fn slot_phase(request: Option<&Request>, verdict: Option<Verdict>, phase: Phase) -> Phase
    ensures { result ≡ slot_phase (plan_in (option_copied request.entry)) verdict phase }
{
    match verdict {
        Some(Verdict::Breach) => Phase::Dead,
        Some(Verdict::Unbound) => Phase::Binding,
        Some(Verdict::Ran(_) | Verdict::TooBig(_)) => {
            if is_lease_time(request) {
                Phase::Running
            } else {
                phase
            }
        }
        _ => phase,
    }
}

/// The phase after a reply. No reply leads out of Dead.
pub fn reply_phase(said: &Said, phase: Phase, work: Phase) -> Phase
    ensures { result ≡ reply_phase said.now phase work }
{
    match phase {
        Phase::Dead => Phase::Dead,
        _ => slot_phase(said.request, said.slot, bare_phase(said.bare, phase, work)),
    }
}

/// Whether the plan is a request of the phase.
pub fn is_step_of(phase: Phase, plan: &Plan) -> bool
    ensures { result ≡ is_step_of phase plan.now }
{
    match phase {
        Phase::Binding => matches!(plan, Plan::Bind { .. }),
        Phase::Session => matches!(plan, Plan::CreateSession { .. }),
        Phase::ClientId => matches!(plan, Plan::ExchangeId { .. }),
        Phase::Completing => matches!(plan, Plan::Complete),
        _ => false,
    }
}

/// Whether the reply answers a request of the phase.
pub fn is_step_said(phase: Phase, said: &Said) -> bool
    ensures { result ≡ is_step_of phase said.now.plan }
{
    match said.request {
        None => false,
        Some(request) => is_step_of(phase, &request.plan),
    }
}

/// Whether RECLAIM_COMPLETE is done by this status.
pub fn completes(status: Status) -> bool
    ensures { result ≡ completes status }
{
    status == Status::OK || status == Status::COMPLETE_ALREADY
}

/// Whether the verdict puts off a request without a slot.
fn is_bare_delay(verdict: Option<BareVerdict>) -> bool
    ensures { result ≡ is_bare_delay verdict }
{
    matches!(verdict, Some(BareVerdict::Delayed))
}

/// Whether the verdict on a RECLAIM_COMPLETE leads to another one.
fn is_refused_complete(verdict: Option<Verdict>) -> bool
    ensures { result ≡ is_refused_complete verdict }
{
    match verdict {
        Some(Verdict::Ran(status)) => !completes(status),
        Some(Verdict::TooBig(_)) => true,
        _ => false,
    }
}

/// Whether the reply puts off the request of a phase.
pub fn puts_off(said: &Said) -> bool
    ensures { result ≡ puts_off said.now }
{
    is_bare_delay(said.bare) || is_refused_complete(said.slot)
}
