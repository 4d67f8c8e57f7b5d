//! That the operations of each plan fit in their spellings, by the types of its parts.

ghost use Rattle.std.specs.Prelude.{◌≡◌, ◌<◌, ◌≤◌, ◌^◌, length};
ghost use Rattle.std.specs.List.{AllByRecursion};
ghost use Rattle.n41_attr.specs.Parts.{stateid};
ghost use Rattle.n41_requests.specs.Plans.{args_of};
ghost use Rattle.n41_requests.specs.Requests.{AllFit};

use crate::names::are_names;
use crate::parts::{
    claim_fits, fh_fits, locker_fits, name_fits, owner_fits, place_fits, session_fits, span_fits,
    stateid_fits, verifier_fits,
};
use n41_types::{
    Bytes, Claim, Fh, LockKind, Locker, Mode, Name, Owner, Path, Place, Plan, SessionId, Span,
    Stateid, Stateids, Verifier,
};

#[tactic(auto, unfolding(n41_args::specs::Args::told_arg, n41_session_args::specs::Sessions::exchange_id, n41_shared::specs::Sessions::impl_option, n41_attr::specs::Parts::owner_bytes, n41_attr::specs::Parts::always_zero))]
pub(crate) fn exchange_id_fits(verifier: &Verifier, owner: &Bytes)
    requires { length owner.now ≤ 1024 }
    ensures { AllFit (args_of (Plan.ExchangeId verifier.now owner.now)) }
{
    verifier_fits(verifier);
}

#[tactic(auto, unfolding(n41_args::specs::Args::told_arg, n41_session_args::specs::Sessions::create_session, n41_shared::specs::Sessions::channel, n41_session_args::specs::Security::securities, n41_session_args::specs::Security::callback_security))]
pub(crate) fn create_session_fits(client: u64, seq: u32)
    ensures { AllFit (args_of (Plan.CreateSession client seq)) }
{}

#[tactic(auto, unfolding(n41_args::specs::Args::told_arg, n41_session_args::specs::Sessions::bind))]
pub(crate) fn bind_fits(sid: &SessionId)
    ensures { AllFit (args_of (Plan.Bind sid.now)) }
{
    session_fits(sid);
}

#[tactic(auto, unfolding(n41_args::specs::Args::told_arg))]
pub(crate) fn destroy_session_fits(sid: &SessionId)
    ensures { AllFit (args_of (Plan.DestroySession sid.now)) }
{
    session_fits(sid);
}

#[tactic(auto, unfolding(n41_args::specs::Args::told_arg))]
pub(crate) fn destroy_client_fits(client: u64)
    ensures { AllFit (args_of (Plan.DestroyClient client)) }
{}

#[tactic(auto, using(crate::proofs::Lists::looked_up))]
pub(crate) fn walk_fits(from: &Place, names: &Path)
    ensures { AllFit (args_of (Plan.Walk from.now names.now)) }
{
    place_fits(from);
    are_names(names.as_slice());
}

#[tactic(auto, unfolding(n41_args::specs::Args::told_arg, n41_attr::specs::Parts::bitmap, n41_attr::specs::Bitmaps::bitmap))]
pub(crate) fn stat_fits(at: &Place)
    ensures { AllFit (args_of (Plan.Stat at.now)) }
{
    place_fits(at);
}

#[tactic(auto, unfolding(n41_args::specs::Args::told_arg, n41_attr::specs::Parts::bitmap, n41_attr::specs::Bitmaps::bitmap))]
pub(crate) fn lease_time_fits()
    ensures { AllFit (args_of Plan.LeaseTime) }
{}

#[tactic(auto, unfolding(n41_args::specs::Args::told_arg, n41_args::specs::Files::read_args))]
pub(crate) fn read_fits(fh: &Fh, stateid: &Stateid, offset: u64, count: u32)
    ensures { AllFit (args_of (Plan.Read fh.now stateid.now offset count)) }
{
    fh_fits(fh);
    stateid_fits(stateid);
}

#[tactic(auto, unfolding(n41_args::specs::Args::told_arg, n41_args::specs::Directories::read_dir, n41_attr::specs::Parts::bitmap, n41_attr::specs::Bitmaps::bitmap))]
pub(crate) fn list_fits(at: &Place, cookie: u64, verf: &Verifier, max: u32)
    ensures { AllFit (args_of (Plan.List at.now cookie verf.now max)) }
{
    place_fits(at);
    verifier_fits(verf);
}

#[tactic(auto, unfolding(n41_args::specs::Args::told_arg, n41_args::specs::Locks::lock_test, n41_shared::specs::Locks::lock_type))]
pub(crate) fn test_lock_fits(fh: &Fh, kind: LockKind, span: Span, owner: &Owner)
    ensures { AllFit (args_of (Plan.TestLock fh.now kind span owner.now)) }
{
    fh_fits(fh);
    span_fits(span);
    owner_fits(owner);
    match kind {
        LockKind::Read => {}
        LockKind::Write => {}
    }
}

fn all_fit(stateids: &[Stateid])
    ensures { AllByRecursion stateid.Fits stateids.now }
{
    for stateid in stateids {
        stateid_fits(stateid);
    }
}

#[tactic(auto, unfolding(n41_args::specs::Args::told_arg, n41_args::specs::Files::stateids))]
pub(crate) fn test_fits(stateids: &Stateids)
    requires { length stateids.now < 2 ^ 32 }
    ensures { AllFit (args_of (Plan.Test stateids.now)) }
{
    all_fit(stateids.as_slice());
}

#[tactic(auto, unfolding(n41_args::specs::Args::told_arg, n41_args::specs::Openings::told_open, n41_args::specs::Openings::told_how))]
pub(crate) fn open_at_fits(fh: &Fh, mode: Mode, owner: &Owner, claim: &Claim)
    ensures { AllFit (args_of (Plan.OpenAt fh.now mode owner.now claim.now)) }
{
    fh_fits(fh);
    owner_fits(owner);
    claim_fits(claim);
    match mode {
        Mode::Read => {}
        Mode::Write => {}
        Mode::Both => {}
    }
}

#[tactic(auto, unfolding(n41_args::specs::Args::told_arg, n41_args::specs::Openings::downgrade))]
pub(crate) fn downgrade_fits(fh: &Fh, stateid: &Stateid, mode: Mode)
    ensures { AllFit (args_of (Plan.Downgrade fh.now stateid.now mode)) }
{
    fh_fits(fh);
    stateid_fits(stateid);
    match mode {
        Mode::Read => {}
        Mode::Write => {}
        Mode::Both => {}
    }
}

#[tactic(auto, unfolding(n41_args::specs::Args::told_arg, n41_args::specs::Openings::close))]
pub(crate) fn close_fits(fh: &Fh, stateid: &Stateid)
    ensures { AllFit (args_of (Plan.CloseState fh.now stateid.now)) }
{
    fh_fits(fh);
    stateid_fits(stateid);
}

#[tactic(auto, unfolding(n41_args::specs::Args::told_arg, n41_args::specs::Locks::lock, n41_shared::specs::Locks::lock_type))]
pub(crate) fn lock_fits(fh: &Fh, kind: LockKind, span: Span, reclaim: bool, locker: &Locker)
    ensures { AllFit (args_of (Plan.LockBytes fh.now kind span reclaim locker.now)) }
{
    fh_fits(fh);
    span_fits(span);
    locker_fits(locker);
    match kind {
        LockKind::Read => {}
        LockKind::Write => {}
    }
}

#[tactic(auto, unfolding(n41_args::specs::Args::told_arg, n41_args::specs::Locks::unlock, n41_shared::specs::Locks::lock_type))]
pub(crate) fn unlock_fits(fh: &Fh, span: Span, stateid: &Stateid)
    ensures { AllFit (args_of (Plan.UnlockBytes fh.now span stateid.now)) }
{
    fh_fits(fh);
    span_fits(span);
    stateid_fits(stateid);
}

#[tactic(auto, unfolding(n41_args::specs::Args::told_arg))]
pub(crate) fn return_fits(fh: &Fh, stateid: &Stateid)
    ensures { AllFit (args_of (Plan.ReturnDeleg fh.now stateid.now)) }
{
    fh_fits(fh);
    stateid_fits(stateid);
}

#[tactic(auto, unfolding(n41_args::specs::Args::told_arg))]
pub(crate) fn free_fits(stateid: &Stateid)
    ensures { AllFit (args_of (Plan.Free stateid.now)) }
{
    stateid_fits(stateid);
}

#[tactic(auto, unfolding(n41_args::specs::Args::told_arg))]
pub(crate) fn complete_fits()
    ensures { AllFit (args_of Plan.Complete) }
{}

#[tactic(auto, unfolding(n41_args::specs::Args::told_arg, n41_args::specs::Openings::told_open, n41_args::specs::Openings::open_claim), using(crate::proofs::Set::created_fits))]
pub(crate) fn create_file_fits(dir: &Place, name: &Name, guarded: bool, owner: &Owner)
    ensures { AllFit (args_of (Plan.CreateFile dir.now name.now guarded owner.now)) }
{
    place_fits(dir);
    name_fits(name);
    owner_fits(owner);
}

#[tactic(auto, unfolding(n41_args::specs::Args::told_arg, n41_args::specs::Files::write_args, n41_attr::specs::Parts::content_bytes))]
pub(crate) fn write_fits(fh: &Fh, stateid: &Stateid, offset: u64, bytes: &Bytes)
    requires { length bytes.now < 2 ^ 32 }
    ensures { AllFit (args_of (Plan.WriteBytes fh.now stateid.now offset bytes.now)) }
{
    fh_fits(fh);
    stateid_fits(stateid);
}

#[tactic(auto, unfolding(n41_args::specs::Args::told_arg, n41_args::specs::Files::told_set_attr), using(crate::proofs::Set::size_fits))]
pub(crate) fn resize_fits(fh: &Fh, stateid: &Stateid, size: u64)
    ensures { AllFit (args_of (Plan.Resize fh.now stateid.now size)) }
{
    fh_fits(fh);
    stateid_fits(stateid);
}

#[tactic(auto, unfolding(n41_args::specs::Args::told_arg, n41_args::specs::Directories::told_create, n41_args::specs::Directories::directory_type), using(crate::proofs::Set::directory_mode_fits))]
pub(crate) fn make_dir_fits(dir: &Place, name: &Name)
    ensures { AllFit (args_of (Plan.MakeDir dir.now name.now)) }
{
    place_fits(dir);
    name_fits(name);
}

#[tactic(auto, unfolding(n41_args::specs::Args::told_arg))]
pub(crate) fn remove_fits(dir: &Place, name: &Name)
    ensures { AllFit (args_of (Plan.Remove dir.now name.now)) }
{
    place_fits(dir);
    name_fits(name);
}

#[tactic(auto, unfolding(n41_args::specs::Args::told_arg, n41_args::specs::Directories::rename))]
pub(crate) fn rename_fits(from: &Place, old: &Name, to: &Place, new: &Name)
    ensures { AllFit (args_of (Plan.Rename from.now old.now to.now new.now)) }
{
    place_fits(from);
    name_fits(old);
    place_fits(to);
    name_fits(new);
}
