// What the types of a request's parts say.
ghost use Rattle.n41_types.specs.Spans.{IsLength};
ghost use Rattle.n41_compound.specs.Calls.{HasSpans, IsLawful};

use n41_requests::request_has_names;
use n41_types::{Plan, Request, Span};

fn is_length(span: Span)
    ensures { IsLength span.len }
{
    let _length = span.wire_length();
}

fn has_spans(plan: &Plan)
    ensures { HasSpans plan.now }
{
    match plan {
        Plan::TestLock { span, .. }
        | Plan::LockBytes { span, .. }
        | Plan::UnlockBytes { span, .. } => is_length(*span),
        _ => {}
    }
}

/// A request is lawful by the types of its parts.
pub fn request_is_lawful(request: &Request)
    ensures { IsLawful request.now }
{
    let _uid = request.uid;
    let _gid = request.gid;
    request_has_names(request);
    has_spans(&request.plan);
}
