//! The arguments of a COMPOUND, which have no fault but a tail.

ghost use Rattle.std.specs.Prelude.{◌≡◌, Some, IfOk};
ghost use Rattle.n41_seen.specs.Calls.{told_front, ops_seen, none_read, compound_at, is_compound, is_operation};
ghost use Rattle.n41_seen.specs.Steps.{IsStep, GivesPart};

use crate::calls::{Args, SeenTail};
use n41_args::{Arg, read_arg};
use n41_attr::OpFault;
use n41_rpc::CallHead;
use n41_types::{NoMemory, Sequence};
use n41_xdr::{Reader, XdrFault};
use std::alloc::{AllocError, Global};

/// Operations, and what comes behind them.
#[derive(Drop)]
pub struct Operations {
    pub list: Args,
    pub tail: SeenTail,
}

/// The minor version and the operations of a call.
#[derive(Drop)]
pub struct Compound {
    pub minor: u32,
    pub ops: Operations,
}

/// What stands at the place of an operation.
#[derive(Drop)]
pub enum Step {
    Known(Arg),
    /// No operation, which ends them with this tail.
    Last(SeenTail),
    /// Not even a number.
    Broken,
}

/// Whether a call is for COMPOUND of the program of NFS, 100003, in version 4.
fn is_compound(head: &CallHead) -> bool
    ensures { result ≡ is_compound head.now.prog head.now.vers head.now.procedure }
{
    head.prog == 100_003 && head.vers == 4 && head.procedure == 1
}

/// Whether an operation has this number: those that `n41_args` reads (RFC 8881, nfs_opnum4).
#[tactic(auto, unfolding(crate::specs::Calls::is_operation))]
fn is_operation(number: u32) -> bool
    ensures { result ≡ is_operation number }
{
    matches!(
        number,
        4 | 5
            | 6
            | 8
            | 9
            | 10
            | 12
            | 13
            | 14
            | 15
            | 18
            | 21
            | 22
            | 24
            | 25
            | 26
            | 28
            | 29
            | 32
            | 34
            | 38
            | 41
            | 42
            | 43
            | 44
            | 45
            | 53
            | 55
            | 57
            | 58
            | 10044
    )
}

fn read_step(alloc: Global, r: &mut Reader) -> Result<Step, NoMemory>
    ensures { IfOk result (λ step. IsStep step r.old r.new) }
{
    let mut ahead = Reader::new(r.rest());
    match ahead.u32() {
        Err(_) => Ok(Step::Broken),
        Ok(number) => {
            if !is_operation(number) {
                return Ok(Step::Last(SeenTail::Unknown(number)));
            }
            match read_arg(alloc, r) {
                Ok(x) => Ok(Step::Known(x)),
                Err(OpFault::NoMemory) => Err(AllocError),
                Err(_) => Ok(Step::Last(SeenTail::BadArgs(number))),
            }
        }
    }
}

fn ops_of(alloc: Global, list: Vec<Arg>, tail: SeenTail) -> Result<Option<Operations>, NoMemory>
    ensures { IfOk result (λ seen. seen ≡ Some (record { list = list.items; tail = tail })) }
{
    Ok(Some(Operations {
        list: Sequence::from_vec(alloc, list)?,
        tail,
    }))
}

/// So many operations; None is garbage. Room is taken for an operation only once it is there.
fn read_ops(alloc: Global, r: &mut Reader, count: u32) -> Result<Option<Operations>, NoMemory>
    ensures { IfOk result (λ seen. seen ≡ ops_seen count r.old) }
{
    let mut list = Vec::new(alloc);
    for _ in 0..count {
        match read_step(alloc, r)? {
            Step::Known(x) => list.push(x)?,
            Step::Last(tail) => return ops_of(alloc, list, tail),
            Step::Broken => return Ok(None),
        }
    }
    if r.len() == 0 {
        ops_of(alloc, list, SeenTail::Whole)
    } else {
        Ok(None)
    }
}

/// The tag, the minor version and the count of the operations; the tag is not kept.
#[tactic(auto, unfolding(crate::specs::Calls::front))]
fn read_front(r: &mut Reader) -> Result<(u32, u32), XdrFault>
    ensures { GivesPart (λ x. x) result r.new (told_front r.old) }
{
    let _tag = r.opaque(65536)?;
    let minor = r.u32()?;
    let count = r.u32()?;
    Ok((minor, count))
}

fn none_read(alloc: Global, tail: SeenTail) -> Result<Compound, NoMemory>
    ensures { IfOk result (λ c. c ≡ none_read tail) }
{
    Ok(Compound {
        minor: 0,
        ops: Operations {
            list: Sequence::from_vec(alloc, Vec::new(alloc))?,
            tail,
        },
    })
}

/// What stands behind the head of a call.
pub(crate) fn read_behind(
    alloc: Global,
    r: &mut Reader,
    head: &CallHead,
) -> Result<Compound, NoMemory>
    ensures { IfOk result (λ c. c ≡ compound_at (is_compound head.now.prog head.now.vers head.now.procedure) r.old) }
{
    if !is_compound(head) {
        return none_read(alloc, SeenTail::Unread);
    }
    match read_front(r) {
        Err(_) => none_read(alloc, SeenTail::Garbage),
        Ok((minor, count)) => match read_ops(alloc, r, count)? {
            Some(ops) => Ok(Compound { minor, ops }),
            None => none_read(alloc, SeenTail::Garbage),
        },
    }
}
