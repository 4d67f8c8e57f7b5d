ghost use Rattle.std.specs.Prelude.{◌≡◌, ◌<◌, ◌≤◌, ◌^◌, length};
ghost use Rattle.n41_types.specs.Spans.{length_on_wire};
ghost use Rattle.n41_attr.specs.Parts.{fh, hyper, session, stateid, string, verifier};
ghost use Rattle.n41_args.specs.Args.{told_arg, written_arg};
ghost use Rattle.n41_args.specs.declared.arg.Arg.TheVariants.{Sequence};
ghost use Rattle.n41_args.specs.Owners.{state_owner};
ghost use Rattle.n41_args.specs.Openings.{open_claim};
ghost use Rattle.n41_args.specs.Locks.{locker};
ghost use Rattle.n41_requests.specs.Plans.{put, owner_of, claim_of, locker_of};

use n41_types::{
    Claim, Fh, Locker, Name, Owner, Place, SessionId, SlotUse, Span, Stateid, Verifier,
};

#[tactic(auto, unfolding(n41_attr::specs::Parts::fh))]
pub(crate) fn fh_fits(x: &Fh)
    ensures { fh.Fits x.now }
{
    let _bytes = x.as_slice();
}

#[tactic(auto, unfolding(n41_attr::specs::Parts::stateid))]
pub(crate) fn stateid_fits(x: &Stateid)
    ensures { stateid.Fits x.now }
{
    let _seqid = x.seqid;
    let _other = x.other;
}

#[tactic(auto, unfolding(n41_attr::specs::Parts::session))]
pub(crate) fn session_fits(x: &SessionId)
    ensures { session.Fits x.now }
{
    let _bytes = x.0;
}

#[tactic(auto, unfolding(n41_attr::specs::Parts::verifier))]
pub(crate) fn verifier_fits(x: &Verifier)
    ensures { verifier.Fits x.now }
{
    let _bytes = *x;
}

#[tactic(auto, unfolding(n41_attr::specs::Parts::string))]
pub(crate) fn name_fits(x: &Name)
    ensures { string.Fits x.now }
{
    let _bytes = x.as_slice();
}

#[tactic(auto, unfolding(n41_args::specs::Owners::state_owner, n41_attr::specs::Parts::owner_bytes))]
pub(crate) fn owner_fits(x: &Owner)
    ensures { state_owner.Fits (owner_of x.now) }
{
    let _bytes = x.as_slice();
}

pub(crate) fn span_fits(x: Span)
    ensures from { hyper.Fits x.from }
    ensures length { hyper.Fits (length_on_wire x.len) }
{
    let _from = x.from;
    let _length = x.wire_length();
}

#[tactic(auto, unfolding(n41_args::specs::Args::told_arg))]
pub(crate) fn place_fits(x: &Place)
    ensures { told_arg.Fits (written_arg (put x.now)) }
{
    match x {
        Place::Root => {}
        Place::At(fh) => fh_fits(fh),
    }
}

#[tactic(auto, unfolding(n41_args::specs::Openings::open_claim))]
pub(crate) fn claim_fits(x: &Claim)
    ensures { open_claim.Fits (claim_of x.now) }
{
    match x {
        Claim::Previous(kind) => {
            let _kind = *kind;
        }
        Claim::Fh => {}
        Claim::DelegCur(stateid) => stateid_fits(stateid),
    }
}

#[tactic(auto, unfolding(n41_args::specs::Locks::locker, n41_args::specs::Locks::new_locker, n41_args::specs::Locks::old_locker))]
pub(crate) fn locker_fits(x: &Locker)
    ensures { locker.Fits (locker_of x.now) }
{
    match x {
        Locker::New { opener, owner } => {
            stateid_fits(opener);
            owner_fits(owner);
        }
        Locker::Old(stateid) => stateid_fits(stateid),
    }
}

#[tactic(auto, unfolding(n41_args::specs::Args::told_arg, n41_session_args::specs::Sessions::sequence))]
pub(crate) fn slot_fits(x: &SlotUse)
    ensures { told_arg.Fits (written_arg (Sequence x.now)) }
{
    session_fits(&x.sid);
    let _turn = x.turn;
    let _slot = x.slot;
    let _highest = x.highest;
}
