//! The arguments of a CB_COMPOUND, which have no fault but a tail.

ghost use Rattle.std.specs.Prelude.{◌≡◌, ◌++◌, [], Bool, Some, IfOk, OnOk};
ghost use Rattle.std.specs.List.{flat_map, AllByRecursion};
ghost use Rattle.n41_xdr.specs.Spelling as spelling;
ghost use Rattle.n41_cbmsg.specs.Arguments.{argument};
ghost use Rattle.n41_cbmsg.specs.Calls.{front, minor_and_count, ops_seen, none_read, arguments_at, is_compound, TailFits, written_behind};
ghost use Rattle.n41_cbmsg.specs.Reading.{GivesPart};
ghost use Rattle.n41_cbmsg.specs.Steps.{IsStep};

use crate::arguments::{is_served, read_arguments, write_argument};
use n41_attr::OpFault;
use n41_results::{CbArg, CbArgs, CbOps, Tail};
use n41_rpc::CallHead;
use n41_types::{NoMemory, Sequence};
use n41_xdr::{Reader, Writer, XdrFault};
use std::alloc::{AllocError, Global};

/// The minor version and the operations of a callback.
#[derive(Drop)]
pub struct Arguments {
    pub minor: u32,
    pub ops: CbOps,
}

/// What stands at the place of an operation.
#[derive(Drop)]
pub enum Step {
    Served(CbArg),
    /// An operation with this number, which is not served.
    Other(u32),
    Broken,
}

/// Whether a call is for CB_COMPOUND of the callback program, 0x40000000, in version 1 or 4.
fn is_compound(head: &CallHead) -> bool
    ensures { result ≡ is_compound head.now.prog head.now.vers head.now.procedure }
{
    head.prog == 0x4000_0000 && matches!(head.vers, 1 | 4) && head.procedure == 1
}

fn read_step(alloc: Global, r: &mut Reader) -> Result<Step, NoMemory>
    ensures { IfOk result (λ step. IsStep step r.old r.new) }
{
    match r.u32() {
        Err(_) => Ok(Step::Broken),
        Ok(number) => {
            if !is_served(number) {
                return Ok(Step::Other(number));
            }
            match read_arguments(alloc, r, number) {
                Ok(x) => Ok(Step::Served(x)),
                Err(OpFault::NoMemory) => Err(AllocError),
                Err(_) => Ok(Step::Broken),
            }
        }
    }
}

fn ops_of(alloc: Global, list: Vec<CbArg>, tail: Tail) -> Result<Option<CbOps>, NoMemory>
    ensures { IfOk result (λ seen. seen ≡ Some (record { list = list.items; tail = tail })) }
{
    Ok(Some(CbOps {
        list: Sequence::from_vec(alloc, list)?,
        tail,
    }))
}

/// So many operations; None is garbage. Room is taken for an operation only once it is there.
fn read_ops(alloc: Global, r: &mut Reader, count: u32) -> Result<Option<CbOps>, NoMemory>
    ensures { IfOk result (λ seen. seen ≡ ops_seen count r.old) }
{
    let mut list = Vec::new(alloc);
    for _ in 0..count {
        match read_step(alloc, r)? {
            Step::Served(x) => list.push(x)?,
            Step::Other(number) => return ops_of(alloc, list, Tail::Unknown(number)),
            Step::Broken => return Ok(None),
        }
    }
    if r.len() == 0 {
        ops_of(alloc, list, Tail::Whole)
    } else {
        Ok(None)
    }
}

/// The tag, the minor version, the callback_ident and the count of the operations.
#[tactic(auto, unfolding(crate::specs::Calls::front))]
fn read_front(r: &mut Reader) -> Result<(u32, u32), XdrFault>
    ensures { GivesPart (λ x. x) result r.new (minor_and_count r.old) }
{
    let _tag = r.opaque(65536)?;
    let minor = r.u32()?;
    let _ident = r.u32()?;
    let count = r.u32()?;
    Ok((minor, count))
}

fn none_read(alloc: Global, tail: Tail) -> Result<Arguments, NoMemory>
    ensures { IfOk result (λ a. a ≡ none_read tail) }
{
    Ok(Arguments {
        minor: 0,
        ops: CbOps {
            list: Sequence::from_vec(alloc, Vec::new(alloc))?,
            tail,
        },
    })
}

/// What stands behind the head of a call.
pub(crate) fn read_behind(
    alloc: Global,
    r: &mut Reader,
    head: &CallHead,
) -> Result<Arguments, NoMemory>
    ensures { IfOk result (λ a. a ≡ arguments_at (is_compound head.now.prog head.now.vers head.now.procedure) r.old) }
{
    if !is_compound(head) {
        return none_read(alloc, Tail::Unread);
    }
    match read_front(r) {
        Err(_) => none_read(alloc, Tail::Garbage),
        Ok((minor, count)) => match read_ops(alloc, r, count)? {
            Some(ops) => Ok(Arguments { minor, ops }),
            None => none_read(alloc, Tail::Garbage),
        },
    }
}

/// An empty tag, the minor version, callback_ident 0 and the count of the operations.
#[tactic(auto, unfolding(crate::specs::Calls::front))]
fn write_front(w: &mut Writer, minor: u32, count: u32) -> Result<(), NoMemory>
    ensures { OnOk result (w.new ≡ w.old ++ front.spell ([], (minor, (0, count)))) }
{
    w.put_opaque(&[])?;
    w.put_u32(minor)?;
    w.put_u32(0)?;
    w.put_u32(count)
}

fn write_list(w: &mut Writer, list: &CbArgs) -> Result<(), NoMemory>
    requires { AllByRecursion argument.Fits list.now }
    ensures { OnOk result (w.new ≡ w.old ++ flat_map argument.spell list.now) }
{
    let list = list.as_slice();
    for x in list {
        write_argument(w, x)?;
    }
    Ok(())
}

/// What stands behind the head.
pub(crate) fn write_behind(w: &mut Writer, minor: u32, ops: &CbOps) -> Result<(), NoMemory>
    requires { (is_cb : Bool) × TailFits ops.now.tail is_cb (record { minor = minor; ops = ops.now }) }
    ensures { OnOk result (w.new ≡ w.old ++ written_behind ops.now.tail minor ops.now.list) }
{
    match ops.tail {
        Tail::Whole => {
            write_front(w, minor, ops.list.len() as u32)?;
            write_list(w, &ops.list)
        }
        Tail::Unknown(number) => {
            write_front(w, minor, ops.list.len() as u32 + 1)?;
            write_list(w, &ops.list)?;
            w.put_u32(number)
        }
        Tail::Garbage | Tail::Unread => Ok(()),
    }
}
