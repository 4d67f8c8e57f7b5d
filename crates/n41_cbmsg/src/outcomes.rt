//! The results of the operations of callbacks.

ghost use Rattle.std.specs.Prelude.{◌≡◌, ◌++◌, OnOk};
ghost use Rattle.n41_xdr.specs.Format.{made, choose};
ghost use Rattle.n41_xdr.specs.declared.fault.XdrFault.TheVariants.{BadArm};
ghost use Rattle.n41_results.specs.declared.callbacks.CbRes.TheVariants as res;
ghost use Rattle.n41_cbmsg.specs.Outcomes.{status, failure, sequenced, sequence_outcome, outcome, outcome_rows};
ghost use Rattle.n41_cbmsg.specs.Reading.{GivesPart};

use n41_results::{CbRes, Sequenced, Unserved};
use n41_types::{NoMemory, SessionId, Status};
use n41_xdr::{Reader, Writer, XdrFault};

#[tactic(auto, unfolding(crate::specs::Outcomes::status))]
fn read_status(r: &mut Reader) -> Result<Status, XdrFault>
    ensures { GivesPart (λ x. x) result r.new (status.read r.old) }
{
    Ok(Status(r.u32()?))
}

/// A status that is never OK.
#[tactic(auto, unfolding(crate::specs::Outcomes::failure))]
fn read_failure(r: &mut Reader) -> Result<Status, XdrFault>
    ensures { GivesPart (λ x. x) result r.new (failure.read r.old) }
{
    match r.u32()? {
        0 => Err(XdrFault::BadArm(0)),
        number => Ok(Status(number)),
    }
}

#[tactic(auto, unfolding(crate::specs::Outcomes::sequenced))]
fn read_sequenced(r: &mut Reader) -> Result<Sequenced, XdrFault>
    ensures { GivesPart (λ x. x) result r.new (sequenced.read r.old) }
{
    let sid = SessionId(r.array()?);
    let turn = r.u32()?;
    let slot = r.u32()?;
    let highest = r.u32()?;
    let target = r.u32()?;
    Ok(Sequenced {
        sid,
        turn,
        slot,
        highest,
        target,
        flags: 0,
    })
}

#[tactic(auto, unfolding(crate::specs::Outcomes::sequence_outcome))]
fn read_sequence_outcome(r: &mut Reader) -> Result<Result<Sequenced, Status>, XdrFault>
    ensures { GivesPart (λ x. x) result r.new (sequence_outcome.read r.old) }
{
    match r.u32()? {
        0 => Ok(Ok(read_sequenced(r)?)),
        number => Ok(Err(Status(number))),
    }
}

fn read_unserved(r: &mut Reader, op: Unserved) -> Result<CbRes, XdrFault>
    ensures { GivesPart (λ x. x) result r.new (made (λ s. res.Unserved op s) failure r.old) }
{
    Ok(CbRes::Unserved {
        op,
        status: read_failure(r)?,
    })
}

/// What stands behind the number of a result.
fn read_behind_number(r: &mut Reader, number: u32) -> Result<CbRes, XdrFault>
    ensures { GivesPart (λ x. x) result r.new (choose (λ n. BadArm n) outcome_rows number r.old) }
{
    match number {
        3 => read_unserved(r, Unserved::GetAttr),
        4 => Ok(CbRes::Recall(read_status(r)?)),
        5 => read_unserved(r, Unserved::LayoutRecall),
        6 => read_unserved(r, Unserved::Notify),
        7 => read_unserved(r, Unserved::PushDeleg),
        8 => Ok(CbRes::RecallAny(read_status(r)?)),
        9 => read_unserved(r, Unserved::ObjectAvailable),
        10 => Ok(CbRes::RecallSlot(read_status(r)?)),
        11 => Ok(CbRes::Sequence(read_sequence_outcome(r)?)),
        12 => read_unserved(r, Unserved::WantsCancelled),
        13 => read_unserved(r, Unserved::NotifyLock),
        14 => read_unserved(r, Unserved::NotifyDevice),
        10044 => Ok(CbRes::Illegal(read_failure(r)?)),
        number => Err(XdrFault::BadArm(number)),
    }
}

/// A result: the number of its operation and its outcome.
#[tactic(auto, unfolding(crate::specs::Outcomes::outcome))]
pub(crate) fn read_outcome(r: &mut Reader) -> Result<CbRes, XdrFault>
    ensures { GivesPart (λ x. x) result r.new (outcome.read r.old) }
{
    let number = r.u32()?;
    read_behind_number(r, number)
}

#[tactic(auto, unfolding(crate::specs::Outcomes::status))]
fn write_status(w: &mut Writer, x: Status) -> Result<(), NoMemory>
    ensures { OnOk result (w.new ≡ w.old ++ status.spell x) }
{
    w.put_u32(x.0)
}

#[tactic(auto, unfolding(crate::specs::Outcomes::failure))]
fn write_failure(w: &mut Writer, x: Status) -> Result<(), NoMemory>
    requires { failure.Fits x }
    ensures { OnOk result (w.new ≡ w.old ++ failure.spell x) }
{
    w.put_u32(x.0)
}

#[tactic(auto, unfolding(crate::specs::Outcomes::sequenced))]
fn write_sequenced(w: &mut Writer, x: &Sequenced) -> Result<(), NoMemory>
    requires { sequenced.Fits x.now }
    ensures { OnOk result (w.new ≡ w.old ++ sequenced.spell x.now) }
{
    w.put_fixed(&x.sid.0)?;
    w.put_u32(x.turn)?;
    w.put_u32(x.slot)?;
    w.put_u32(x.highest)?;
    w.put_u32(x.target)
}

#[tactic(auto, unfolding(crate::specs::Outcomes::sequence_outcome))]
fn write_sequence_outcome(w: &mut Writer, x: &Result<Sequenced, Status>) -> Result<(), NoMemory>
    requires { sequence_outcome.Fits x.now }
    ensures { OnOk result (w.new ≡ w.old ++ sequence_outcome.spell x.now) }
{
    match x {
        Ok(sequenced) => {
            w.put_u32(0)?;
            write_sequenced(w, sequenced)
        }
        Err(status) => w.put_u32(status.0),
    }
}

/// A result: the number of its operation and its outcome.
#[tactic(auto, unfolding(crate::specs::Outcomes::outcome))]
pub(crate) fn write_outcome(w: &mut Writer, x: &CbRes) -> Result<(), NoMemory>
    requires { outcome.Fits x.now }
    ensures { OnOk result (w.new ≡ w.old ++ outcome.spell x.now) }
{
    w.put_u32(x.number())?;
    match x {
        CbRes::Recall(status) | CbRes::RecallAny(status) | CbRes::RecallSlot(status) => {
            write_status(w, *status)
        }
        CbRes::Sequence(outcome) => write_sequence_outcome(w, outcome),
        CbRes::Unserved { status, .. } | CbRes::Illegal(status) => write_failure(w, *status),
    }
}
