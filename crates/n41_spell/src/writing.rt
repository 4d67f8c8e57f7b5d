ghost use Rattle.std.specs.Prelude.{◌≡◌, ◌++◌, ◌<◌, ◌^◌, OnOk, length};
ghost use Rattle.n41_requests.specs.Plans.{args_of, behind, request_args};
ghost use Rattle.n41_requests.specs.Requests.{args_text, body_text, AllFit, Fits, IsSpellable, IsSpellablePlan};

use crate::directories::{
    write_lease_time, write_list, write_make_dir, write_remove, write_rename, write_stat,
    write_walk,
};
use crate::files::{write_bytes, write_read, write_resize};
use crate::locks::{write_lock, write_test_lock, write_unlock};
use crate::openings::{write_close, write_create_file, write_downgrade, write_open_at};
use crate::sessions::{
    write_bind, write_complete, write_create_session, write_destroy_client, write_destroy_session,
    write_exchange_id,
};
use crate::stateids::{write_free, write_return, write_test};
use n41_args::{Arg, write_arg};
use n41_types::{NoMemory, Plan, Request};
use n41_xdr::Writer;
use std::alloc::Global;

/// The operations of a plan, behind its SEQUENCE.
fn write_plan(alloc: Global, w: &mut Writer, plan: &Plan) -> Result<(), NoMemory>
    requires { AllFit (args_of plan.now) }
    ensures { OnOk result (w.new ≡ w.old ++ args_text (args_of plan.now)) }
{
    match plan {
        Plan::ExchangeId { verifier, owner } => write_exchange_id(w, verifier, owner),
        Plan::CreateSession { client, seq } => write_create_session(alloc, w, *client, *seq),
        Plan::Bind { sid } => write_bind(w, *sid),
        Plan::DestroySession { sid } => write_destroy_session(w, *sid),
        Plan::DestroyClient { client } => write_destroy_client(w, *client),
        Plan::Walk { from, names } => write_walk(alloc, w, from, names),
        Plan::Stat { at } => write_stat(alloc, w, at),
        Plan::LeaseTime => write_lease_time(alloc, w),
        Plan::Read {
            fh,
            stateid,
            offset,
            count,
        } => write_read(w, fh, stateid, *offset, *count),
        Plan::List {
            at,
            cookie,
            verf,
            max,
        } => write_list(alloc, w, at, *cookie, verf, *max),
        Plan::TestLock {
            fh,
            kind,
            span,
            owner,
        } => write_test_lock(w, fh, *kind, *span, owner),
        Plan::Test { stateids } => write_test(w, stateids),
        Plan::Renew => Ok(()),
        Plan::OpenAt {
            fh,
            mode,
            owner,
            claim,
        } => write_open_at(w, fh, *mode, owner, *claim),
        Plan::Downgrade { fh, stateid, mode } => write_downgrade(w, fh, stateid, *mode),
        Plan::CloseState { fh, stateid } => write_close(w, fh, stateid),
        Plan::LockBytes {
            fh,
            kind,
            span,
            reclaim,
            locker,
        } => write_lock(w, fh, *kind, *span, *reclaim, locker),
        Plan::UnlockBytes { fh, span, stateid } => write_unlock(w, fh, *span, stateid),
        Plan::ReturnDeleg { fh, stateid } => write_return(w, fh, stateid),
        Plan::Free { stateid } => write_free(w, stateid),
        Plan::Complete => write_complete(w),
        Plan::CreateFile {
            dir,
            name,
            guarded,
            owner,
        } => write_create_file(alloc, w, dir, name, *guarded, owner),
        Plan::WriteBytes {
            fh,
            stateid,
            offset,
            bytes,
        } => write_bytes(w, fh, stateid, *offset, bytes),
        Plan::Resize { fh, stateid, size } => write_resize(w, fh, stateid, *size),
        Plan::MakeDir { dir, name } => write_make_dir(alloc, w, dir, name),
        Plan::Remove { dir, name } => write_remove(alloc, w, dir, name),
        Plan::Rename { from, old, to, new } => write_rename(alloc, w, from, old, to, new),
    }
}

/// How many operations a plan has, behind its SEQUENCE.
#[tactic(auto, using(n41_requests::proofs::Counts::walk_count))]
fn count(plan: &Plan) -> u32
    requires { IsSpellablePlan plan.now }
    ensures { result ≡ length (args_of plan.now) }
{
    match plan {
        Plan::Renew => 0,
        Plan::ExchangeId { .. }
        | Plan::CreateSession { .. }
        | Plan::Bind { .. }
        | Plan::DestroySession { .. }
        | Plan::DestroyClient { .. }
        | Plan::Test { .. }
        | Plan::Free { .. }
        | Plan::Complete => 1,
        Plan::Stat { .. }
        | Plan::LeaseTime
        | Plan::Read { .. }
        | Plan::List { .. }
        | Plan::TestLock { .. }
        | Plan::Downgrade { .. }
        | Plan::CloseState { .. }
        | Plan::LockBytes { .. }
        | Plan::UnlockBytes { .. }
        | Plan::ReturnDeleg { .. }
        | Plan::WriteBytes { .. }
        | Plan::Resize { .. }
        | Plan::MakeDir { .. }
        | Plan::Remove { .. } => 2,
        Plan::OpenAt { .. } | Plan::CreateFile { .. } => 3,
        Plan::Rename { .. } => 4,
        Plan::Walk { names, .. } => names.len() as u32 + 2,
    }
}

/// How many operations a request has.
#[tactic(auto, using(n41_requests::proofs::Counts::plan_count))]
fn request_count(q: &Request) -> u32
    requires { IsSpellable q.now }
    ensures { result ≡ length (request_args q.now) }
{
    match q.slot {
        None => count(&q.plan),
        Some(_) => count(&q.plan) + 1,
    }
}

/// The operations of a request.
fn write_operations(alloc: Global, w: &mut Writer, q: &Request) -> Result<(), NoMemory>
    requires { AllFit (request_args q.now) }
    ensures { OnOk result (w.new ≡ w.old ++ args_text (request_args q.now)) }
{
    match q.slot {
        None => write_plan(alloc, w, &q.plan),
        Some(slot) => {
            write_arg(w, &Arg::Sequence(slot))?;
            write_plan(alloc, w, &q.plan)
        }
    }
}

/// The tag, the minor version and the operations.
#[tactic(auto, unfolding(n41_requests::specs::Requests::Fits))]
pub(crate) fn write_body(alloc: Global, w: &mut Writer, q: &Request) -> Result<(), NoMemory>
    requires spellable { IsSpellable q.now }
    requires fits { Fits q.now }
    ensures { OnOk result (w.new ≡ w.old ++ body_text q.now) }
{
    w.put_opaque(&[])?;
    w.put_u32(q.minor)?;
    w.put_u32(request_count(q))?;
    write_operations(alloc, w, q)
}
