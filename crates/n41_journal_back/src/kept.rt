// What the types of an event's request say.
ghost use Rattle.std.specs.Prelude.{All};
ghost use Rattle.n41_requests.specs.Requests.{Fits, IsSpellable};
ghost use Rattle.n41_compound.specs.Calls.{IsLawful};
ghost use Rattle.n41_tellable.specs.Tellable.{IsTellable};
ghost use Rattle.n41_journal_back.specs.Kept.{IsTyped};

use n41_journal::Event;
use n41_journal_reader::request_is_lawful;
use n41_requests::request_fits;
use n41_types::Request;

fn request_is_typed(request: &Request)
    requires { IsSpellable request.now }
    ensures lawful { IsLawful request.now }
    ensures fits { Fits request.now }
{
    request_is_lawful(request);
    request_fits(request);
}

fn event_is_typed(event: &Event)
    requires { IsTellable event.now }
    ensures { IsTyped event.now }
{
    if let Event::Put { request, .. } = event {
        request_is_typed(request);
    }
}

/// Events are typed by the types of their parts, where each message has a spelling.
pub(crate) fn events_are_typed(events: &[Event])
    requires { All IsTellable events.now }
    ensures { All IsTyped events.now }
{
    for event in events {
        event_is_typed(event);
    }
}
