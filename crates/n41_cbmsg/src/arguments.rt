//! The operations of callbacks that are served, with their arguments.

ghost use Rattle.std.specs.Prelude.{◌≡◌, ◌++◌, OnOk};
ghost use Rattle.n41_xdr.specs.Format.{made, choose};
ghost use Rattle.n41_results.specs.declared.callbacks.CbArg.TheVariants.{Recall, RecallAny, RecallSlot, Sequence};
ghost use Rattle.n41_attr.specs.Operations.{Gives};
ghost use Rattle.n41_attr.specs.Parts.{bad_arm};
ghost use Rattle.n41_cbmsg.specs.Arguments.{recall, recall_any, sequence, argument, argument_rows, is_served};

use crate::referring::{read_referring_lists, write_referring_lists};
use n41_attr::OpFault;
use n41_attr::parts::{
    read_fh, read_session, read_set, read_stateid, write_fh, write_session, write_set,
    write_stateid,
};
use n41_results::{CbArg, CbRecall, CbRecallAny, CbSequence};
use n41_types::NoMemory;
use n41_xdr::{Reader, Writer, XdrFault};
use std::alloc::Global;

/// Whether this is the number of CB_RECALL, CB_RECALL_ANY, CB_RECALL_SLOT or CB_SEQUENCE.
pub(crate) fn is_served(number: u32) -> bool
    ensures { result ≡ is_served number }
{
    matches!(number, 4 | 8 | 10 | 11)
}

#[tactic(auto, unfolding(crate::specs::Arguments::recall))]
fn read_recall(alloc: Global, r: &mut Reader) -> Result<CbRecall, OpFault>
    ensures { Gives (λ x. x) result r.new (recall.read r.old) }
{
    let stateid = read_stateid(r)?;
    let truncate = r.boolean()?;
    let fh = read_fh(alloc, r)?;
    Ok(CbRecall {
        stateid,
        truncate,
        fh,
    })
}

#[tactic(auto, unfolding(crate::specs::Arguments::recall_any))]
fn read_recall_any(alloc: Global, r: &mut Reader) -> Result<CbRecallAny, OpFault>
    ensures { Gives (λ x. x) result r.new (recall_any.read r.old) }
{
    let keep = r.u32()?;
    let mask = read_set(alloc, r)?;
    Ok(CbRecallAny { keep, mask })
}

#[tactic(auto, unfolding(crate::specs::Arguments::sequence))]
fn read_sequence(alloc: Global, r: &mut Reader) -> Result<CbSequence, OpFault>
    ensures { Gives (λ x. x) result r.new (sequence.read r.old) }
{
    let sid = read_session(r)?;
    let turn = r.u32()?;
    let slot = r.u32()?;
    let highest = r.u32()?;
    let cache = r.boolean()?;
    let referring = read_referring_lists(alloc, r)?;
    Ok(CbSequence {
        sid,
        turn,
        slot,
        highest,
        cache,
        referring,
    })
}

/// The arguments behind a number.
pub(crate) fn read_arguments(alloc: Global, r: &mut Reader, number: u32) -> Result<CbArg, OpFault>
    ensures { Gives (λ x. x) result r.new (choose bad_arm argument_rows number r.old) }
{
    match number {
        4 => Ok(CbArg::Recall(read_recall(alloc, r)?)),
        8 => Ok(CbArg::RecallAny(read_recall_any(alloc, r)?)),
        10 => Ok(CbArg::RecallSlot(r.u32()?)),
        11 => Ok(CbArg::Sequence(read_sequence(alloc, r)?)),
        number => Err(OpFault::Xdr(XdrFault::BadArm(number))),
    }
}

#[tactic(auto, unfolding(crate::specs::Arguments::recall))]
fn write_recall(w: &mut Writer, x: &CbRecall) -> Result<(), NoMemory>
    ensures { OnOk result (w.new ≡ w.old ++ recall.spell x.now) }
{
    write_stateid(w, &x.stateid)?;
    w.put_bool(x.truncate)?;
    write_fh(w, &x.fh)
}

#[tactic(auto, unfolding(crate::specs::Arguments::recall_any))]
fn write_recall_any(w: &mut Writer, x: &CbRecallAny) -> Result<(), NoMemory>
    requires { recall_any.Fits x.now }
    ensures { OnOk result (w.new ≡ w.old ++ recall_any.spell x.now) }
{
    w.put_u32(x.keep)?;
    write_set(w, &x.mask)
}

#[tactic(auto, unfolding(crate::specs::Arguments::sequence))]
fn write_sequence(w: &mut Writer, x: &CbSequence) -> Result<(), NoMemory>
    requires { sequence.Fits x.now }
    ensures { OnOk result (w.new ≡ w.old ++ sequence.spell x.now) }
{
    write_session(w, &x.sid)?;
    w.put_u32(x.turn)?;
    w.put_u32(x.slot)?;
    w.put_u32(x.highest)?;
    w.put_bool(x.cache)?;
    write_referring_lists(w, &x.referring)
}

/// An operation: its number and its arguments.
#[tactic(auto, unfolding(crate::specs::Arguments::argument))]
pub(crate) fn write_argument(w: &mut Writer, x: &CbArg) -> Result<(), NoMemory>
    requires { argument.Fits x.now }
    ensures { OnOk result (w.new ≡ w.old ++ argument.spell x.now) }
{
    match x {
        CbArg::Recall(x) => {
            w.put_u32(4)?;
            write_recall(w, x)
        }
        CbArg::RecallAny(x) => {
            w.put_u32(8)?;
            write_recall_any(w, x)
        }
        CbArg::RecallSlot(target) => {
            w.put_u32(10)?;
            w.put_u32(*target)
        }
        CbArg::Sequence(x) => {
            w.put_u32(11)?;
            write_sequence(w, x)
        }
    }
}
