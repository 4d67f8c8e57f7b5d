ghost use Rattle.std.specs.Prelude.{◌≡◌, option_copied};
ghost use Rattle.n41_model.specs.Replies.{is_size_refusal};
ghost use Rattle.n41_runs.specs.Rules.{refuses};
ghost use Rattle.n41_legal.specs.Legality.{sizes_of};

use n41_types::{Request, Status};

/// The status by which a size refuses a request: the first that is told of it.
pub(crate) fn size_of(sizes: &[(Request, Status)], request: &Request) -> Option<Status>
    ensures { result ≡ sizes_of sizes.now request.now }
{
    match sizes {
        [] => None,
        [first, rest @ ..] => {
            if first.0 == *request {
                Some(first.1)
            } else {
                size_of(rest, request)
            }
        }
    }
}

/// Whether it is one of the statuses by which a size refuses a request.
fn is_size_refusal(status: Status) -> bool
    ensures { result ≡ is_size_refusal status }
{
    status == Status::REQ_TOO_BIG
        || status == Status::REP_TOO_BIG
        || status == Status::REP_TOO_BIG_TO_CACHE
        || status == Status::TOO_MANY_OPS
}

/// Whether a size refuses a request by this status.
pub(crate) fn refuses(size: Option<Status>, status: Status) -> bool
    ensures { result ≡ refuses size status }
{
    match size {
        None => false,
        Some(told) => told == status && is_size_refusal(status),
    }
}
