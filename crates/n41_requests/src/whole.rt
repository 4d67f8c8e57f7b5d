//! That every request that is spellable fits in its spelling.

ghost use Rattle.n41_requests.specs.Plans.{args_of, request_args};
ghost use Rattle.n41_requests.specs.Requests.{AllFit, Fits, IsSpellable, IsSpellablePlan};

use crate::fitting::{
    bind_fits, close_fits, complete_fits, create_file_fits, create_session_fits,
    destroy_client_fits, destroy_session_fits, downgrade_fits, exchange_id_fits, free_fits,
    lease_time_fits, list_fits, lock_fits, make_dir_fits, open_at_fits, read_fits, remove_fits,
    rename_fits, resize_fits, return_fits, stat_fits, test_fits, test_lock_fits, unlock_fits,
    walk_fits, write_fits,
};
use crate::parts::slot_fits;
use n41_types::{Plan, Request};

/// The operations of a plan fit in their spellings.
fn plan_fits(plan: &Plan)
    requires { IsSpellablePlan plan.now }
    ensures { AllFit (args_of plan.now) }
{
    match plan {
        Plan::ExchangeId { verifier, owner } => exchange_id_fits(verifier, owner),
        Plan::CreateSession { client, seq } => create_session_fits(*client, *seq),
        Plan::Bind { sid } => bind_fits(sid),
        Plan::DestroySession { sid } => destroy_session_fits(sid),
        Plan::DestroyClient { client } => destroy_client_fits(*client),
        Plan::Walk { from, names } => walk_fits(from, names),
        Plan::Stat { at } => stat_fits(at),
        Plan::LeaseTime => lease_time_fits(),
        Plan::Read {
            fh,
            stateid,
            offset,
            count,
        } => read_fits(fh, stateid, *offset, *count),
        Plan::List {
            at,
            cookie,
            verf,
            max,
        } => list_fits(at, *cookie, verf, *max),
        Plan::TestLock {
            fh,
            kind,
            span,
            owner,
        } => test_lock_fits(fh, *kind, *span, owner),
        Plan::Test { stateids } => test_fits(stateids),
        Plan::Renew => {}
        Plan::OpenAt {
            fh,
            mode,
            owner,
            claim,
        } => open_at_fits(fh, *mode, owner, claim),
        Plan::Downgrade { fh, stateid, mode } => downgrade_fits(fh, stateid, *mode),
        Plan::CloseState { fh, stateid } => close_fits(fh, stateid),
        Plan::LockBytes {
            fh,
            kind,
            span,
            reclaim,
            locker,
        } => lock_fits(fh, *kind, *span, *reclaim, locker),
        Plan::UnlockBytes { fh, span, stateid } => unlock_fits(fh, *span, stateid),
        Plan::ReturnDeleg { fh, stateid } => return_fits(fh, stateid),
        Plan::Free { stateid } => free_fits(stateid),
        Plan::Complete => complete_fits(),
        Plan::CreateFile {
            dir,
            name,
            guarded,
            owner,
        } => create_file_fits(dir, name, *guarded, owner),
        Plan::WriteBytes {
            fh,
            stateid,
            offset,
            bytes,
        } => write_fits(fh, stateid, *offset, bytes),
        Plan::Resize { fh, stateid, size } => resize_fits(fh, stateid, *size),
        Plan::MakeDir { dir, name } => make_dir_fits(dir, name),
        Plan::Remove { dir, name } => remove_fits(dir, name),
        Plan::Rename { from, old, to, new } => rename_fits(from, old, to, new),
    }
}

fn operations_fit(q: &Request)
    requires { IsSpellable q.now }
    ensures { AllFit (request_args q.now) }
{
    plan_fits(&q.plan);
    match &q.slot {
        None => {}
        Some(slot) => slot_fits(slot),
    }
}

/// Every request that is spellable fits in its spelling, by the types of its parts.
#[tactic(auto, unfolding(crate::specs::Requests::Fits), using(crate::proofs::Counts::request_count))]
pub fn request_fits(q: &Request)
    requires { IsSpellable q.now }
    ensures { Fits q.now }
{
    operations_fit(q);
    let _xid = q.xid;
    let _uid = q.uid;
    let _gid = q.gid;
    let _minor = q.minor;
}
