ghost use Rattle.std.specs.Prelude.{◌≡◌};
ghost use Rattle.n41_calls.specs.Calls.{stat_value, value_of_attrs, done_with, is_again, is_put_off_by, attempts_after};

use n41_model::Verdict;
use n41_results::Res;
use n41_types::{Answer, Attrs, Status, Value};

/// What a stat gives, where its type and its size were told.
fn value_of_attrs(attrs: &Attrs) -> Option<Value>
    ensures { result ≡ value_of_attrs attrs.now.kind attrs.now.size attrs.now }
{
    match (attrs.kind, attrs.size) {
        (Some(kind), Some(size)) => Some(Value::Stat {
            kind,
            size,
            fileid: attrs.fileid,
            mode: attrs.mode,
        }),
        _ => None,
    }
}

/// What the results of a stat give.
pub(crate) fn stat_value(list: &[Res]) -> Option<Value>
    ensures { result ≡ stat_value list.now }
{
    match list {
        [_, _, Res::GetAttr(Ok(attrs))] => value_of_attrs(attrs),
        _ => None,
    }
}

/// The answer of a command that is done with this value.
pub(crate) fn done_with(value: Option<Value>) -> Option<Answer>
    ensures { result ≡ done_with value }
{
    match value {
        None => None,
        Some(value) => Some(Answer::Done(value)),
    }
}

/// Whether the status leads to a new attempt, after so many.
pub(crate) fn is_again(status: Status, attempts: u64) -> bool
    ensures { result ≡ is_again status attempts }
{
    (status == Status::DELAY || status == Status::GRACE) && attempts < 64
}

/// Whether a verdict leads to a new attempt, two seconds later.
pub fn is_put_off_by(verdict: Option<Verdict>, attempts: u64) -> bool
    ensures { result ≡ is_put_off_by verdict attempts }
{
    match verdict {
        Some(Verdict::Ran(status)) => is_again(status, attempts),
        _ => false,
    }
}

/// The attempts of a step, which are counted anew after an OK.
pub fn attempts_after(verdict: Option<Verdict>, attempts: u64) -> u64
    ensures { result ≡ attempts_after verdict attempts }
{
    match verdict {
        Some(Verdict::Ran(status)) if status == Status::OK => 0,
        _ => attempts,
    }
}
