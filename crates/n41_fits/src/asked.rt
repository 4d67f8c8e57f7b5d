ghost use Rattle.std.specs.Prelude.{◌≡◌, ◌∷◌, ◌++◌, [], slice_get, replicate};
ghost use Rattle.n41_types.specs.declared.operations.Operation.TheVariants as op;
ghost use Rattle.n41_results.specs.Shapes.{put_of, operations_of, asked_of};

use n41_types::{Operation, Place, Plan, Request};

/// The operation at a place of a list.
fn listed(operations: &[Operation], place: usize) -> Option<Operation>
    ensures { result ≡ slice_get operations.now place }
{
    operations.get(place).copied()
}

/// The operation at a place of a list behind this one.
fn headed(first: Operation, rest: &[Operation], place: usize) -> Option<Operation>
    ensures { result ≡ slice_get (first ∷ rest.now) place }
{
    if place == 0 {
        Some(first)
    } else {
        listed(rest, place - 1)
    }
}

/// The operation at a place of a RENAME from one place to another.
fn renamed(from: Operation, to: Operation, place: usize) -> Option<Operation>
    ensures { result ≡ slice_get (from ∷ op.SaveFh ∷ to ∷ op.Rename ∷ []) place }
{
    match place {
        0 => Some(from),
        1 => Some(Operation::SaveFh),
        2 => Some(to),
        3 => Some(Operation::Rename),
        _ => None,
    }
}

/// The operation that makes a place the current filehandle.
fn put_of(place: &Place) -> Operation
    ensures { result ≡ put_of place.now }
{
    match place {
        Place::Root => Operation::PutRootFh,
        Place::At(_) => Operation::PutFh,
    }
}

/// The operation at a place of a walk over so many names.
fn walked(from: Operation, names: usize, place: usize) -> Option<Operation>
    ensures { result ≡ slice_get (from ∷ (replicate names op.Lookup ++ op.GetFh ∷ [])) place }
{
    if place == 0 {
        Some(from)
    } else if place <= names {
        Some(Operation::Lookup)
    } else if place - 1 == names {
        Some(Operation::GetFh)
    } else {
        None
    }
}

/// The operation of a plan at a place, where it has a slot and changes nothing, or has none.
fn planned(plan: &Plan, place: usize) -> Option<Operation>
    ensures { result ≡ slice_get (operations_of plan.now) place }
{
    match plan {
        Plan::ExchangeId { .. } => listed(&[Operation::ExchangeId], place),
        Plan::CreateSession { .. } => listed(&[Operation::CreateSession], place),
        Plan::Bind { .. } => listed(&[Operation::Bind], place),
        Plan::DestroySession { .. } => listed(&[Operation::DestroySession], place),
        Plan::DestroyClient { .. } => listed(&[Operation::DestroyClient], place),
        Plan::Walk { from, names } => walked(put_of(from), names.len(), place),
        Plan::Stat { at } => listed(&[put_of(at), Operation::GetAttr], place),
        Plan::LeaseTime => listed(&[Operation::PutRootFh, Operation::GetAttr], place),
        Plan::Read { .. } => listed(&[Operation::PutFh, Operation::Read], place),
        Plan::List { at, .. } => listed(&[put_of(at), Operation::ReadDir], place),
        Plan::TestLock { .. } => listed(&[Operation::PutFh, Operation::LockTest], place),
        Plan::Test { .. } => listed(&[Operation::TestStateid], place),
        Plan::Renew => None,
        Plan::OpenAt { .. } => listed(
            &[Operation::PutFh, Operation::Open, Operation::GetFh],
            place,
        ),
        Plan::Downgrade { .. } => listed(&[Operation::PutFh, Operation::OpenDowngrade], place),
        Plan::CloseState { .. } => listed(&[Operation::PutFh, Operation::Close], place),
        Plan::LockBytes { .. } => listed(&[Operation::PutFh, Operation::Lock], place),
        Plan::UnlockBytes { .. } => listed(&[Operation::PutFh, Operation::Unlock], place),
        Plan::ReturnDeleg { .. } => listed(&[Operation::PutFh, Operation::DelegReturn], place),
        Plan::Free { .. } => listed(&[Operation::FreeStateid], place),
        Plan::Complete => listed(&[Operation::ReclaimComplete], place),
        Plan::CreateFile { dir, .. } => headed(
            put_of(dir),
            &[Operation::Open, Operation::GetFh],
            place,
        ),
        Plan::WriteBytes { .. } => listed(&[Operation::PutFh, Operation::Write], place),
        Plan::Resize { .. } => listed(&[Operation::PutFh, Operation::SetAttr], place),
        Plan::MakeDir { dir, .. } => listed(&[put_of(dir), Operation::Create], place),
        Plan::Remove { dir, .. } => listed(&[put_of(dir), Operation::Remove], place),
        Plan::Rename { from, to, .. } => renamed(put_of(from), put_of(to), place),
    }
}

/// The operation of a request at a place, from 0.
pub(crate) fn asked(request: &Request, place: usize) -> Option<Operation>
    ensures { result ≡ slice_get (asked_of request.now) place }
{
    match request.slot {
        None => planned(&request.plan, place),
        Some(_) if place == 0 => Some(Operation::Sequence),
        Some(_) => planned(&request.plan, place - 1),
    }
}
