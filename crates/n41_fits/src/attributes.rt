ghost use Rattle.std.specs.Prelude.{◌≡◌, ◌==◌, []};
ghost use Rattle.std.specs.List.{list_any};
ghost use Rattle.n41_results.specs.Shapes.{asked_attrs, unasked_number, unasked, unasked_entry, unasked_in};

use n41_results::{Entry, Res};
use n41_types::{Attrs, Plan};

/// The attribute numbers that a plan asks for.
fn attributes_of(plan: &Plan) -> &'static [u32]
    ensures { result.now ≡ asked_attrs plan.now }
{
    match plan {
        Plan::Stat { .. } => &[1, 3, 4, 20, 33],
        Plan::LeaseTime => &[10],
        _ => &[],
    }
}

/// Whether the number is among these.
fn has(wanted: &[u32], number: u32) -> bool
    ensures { result ≡ list_any (λ m. m == number) wanted.now }
{
    match wanted {
        [] => false,
        [first, rest @ ..] => *first == number || has(rest, number),
    }
}

/// The number of an attribute that is told and was not asked for, or else the rest.
fn told_unasked(wanted: &[u32], number: u32, there: bool, rest: Option<u32>) -> Option<u32>
    ensures { result ≡ unasked_number wanted.now number there rest }
{
    if there && !has(wanted, number) {
        Some(number)
    } else {
        rest
    }
}

/// The least attribute number that is told and was not asked for.
fn unasked(wanted: &[u32], attrs: &Attrs) -> Option<u32>
    ensures { result ≡ unasked wanted.now attrs.now }
{
    let mode = told_unasked(wanted, 33, attrs.mode.is_some(), None);
    let fileid = told_unasked(wanted, 20, attrs.fileid.is_some(), mode);
    let lease = told_unasked(wanted, 10, attrs.lease.is_some(), fileid);
    let size = told_unasked(wanted, 4, attrs.size.is_some(), lease);
    let change = told_unasked(wanted, 3, attrs.change.is_some(), size);
    told_unasked(wanted, 1, attrs.kind.is_some(), change)
}

/// The first attribute that an entry of a directory tells; none is asked for.
fn unasked_entry(entries: &[Entry]) -> Option<u32>
    ensures { result ≡ unasked_entry [] entries.now }
{
    for entry in entries {
        if let Some(attribute) = unasked(&[], &entry.attrs) {
            return Some(attribute);
        }
    }
    None
}

/// The attribute that the result of a plan tells unasked.
pub(crate) fn unasked_in(plan: &Plan, answer: &Res) -> Option<u32>
    ensures { result ≡ unasked_in plan.now answer.now }
{
    match answer {
        Res::GetAttr(Ok(attrs)) => unasked(attributes_of(plan), attrs),
        Res::ReadDir(Ok(listing)) => unasked_entry(listing.entries.as_slice()),
        _ => None,
    }
}
