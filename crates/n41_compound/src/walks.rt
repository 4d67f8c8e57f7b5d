//! Walks: a LOOKUP for each name, and GETFH.

ghost use Rattle.std.specs.Prelude.{◌≡◌, Some, IfOk};
ghost use Rattle.n41_compound.specs.Parts.{place_in};
ghost use Rattle.n41_compound.specs.Walks.{walk_at, walked, IsStep};

use crate::parts::{name_of, place_in};
use n41_args::Arg;
use n41_types::{Name, NoMemory, Path, Plan, Sequence};
use std::alloc::Global;

/// What one operation of a walk says.
#[derive(Drop)]
pub enum Step {
    /// A name is looked up.
    Name(Name),
    /// The walk ends.
    End,
    /// It is none of a walk.
    Other,
}

fn step_of(alloc: Global, arg: &Arg) -> Result<Step, NoMemory>
    ensures { IfOk result (λ step. IsStep step arg.now) }
{
    match arg {
        Arg::GetFh => Ok(Step::End),
        Arg::Lookup(name) => match name_of(alloc, name)? {
            Some(name) => Ok(Step::Name(name)),
            None => Ok(Step::Other),
        },
        _ => Ok(Step::Other),
    }
}

fn path_of(alloc: Global, names: Vec<Name>) -> Result<Option<Path>, NoMemory>
    ensures { IfOk result (λ path. path ≡ Some names.items) }
{
    Ok(Some(Sequence::from_vec(alloc, names)?))
}

/// The names that are looked up.
fn walked(alloc: Global, args: &[Arg]) -> Result<Option<Path>, NoMemory>
    ensures { IfOk result (λ names. names ≡ walked args.now) }
{
    let mut names = Vec::new(alloc);
    for (place, arg) in args.iter().enumerate() {
        match step_of(alloc, arg)? {
            Step::Name(name) => names.push(name)?,
            Step::End if place + 1 == args.len() => return path_of(alloc, names),
            _ => return Ok(None),
        }
    }
    Ok(None)
}

/// A walk by the operations behind PUTROOTFH or PUTFH.
pub(crate) fn walk_of(alloc: Global, put: &Arg, args: &[Arg]) -> Result<Option<Plan>, NoMemory>
    ensures { IfOk result (λ plan. plan ≡ walk_at (walked args.now) (place_in put.now)) }
{
    let Some(names) = walked(alloc, args)? else {
        return Ok(None);
    };
    match place_in(put)? {
        Some(from) => Ok(Some(Plan::Walk { from, names })),
        None => Ok(None),
    }
}
