//! The next plan of a command that walks.

ghost use Rattle.std.specs.Prelude.{◌≡◌, ℕ, Some, IfOk, take, is_some, option_copied};
ghost use Rattle.n41_calls.specs.Calls.{goal, last_of, list, make_dir, next_plan, remove, rename, walk_most, walk_or};
ghost use Rattle.n41_due.specs.Order.{has_next};

use n41_model::{Listed, Way};
use n41_results::SessionMade;
use n41_said::{ahead, last_of, list_size, walk_most};
use n41_types::{Command, Name, NoMemory, Path, Place, Plan, Sequence};
use n41_view::Seat;
use std::alloc::Global;

/// What is asked for at the end of a walk that makes a directory.
fn make_dir(at: &Place, name: Option<&Name>) -> Result<Option<Plan>, NoMemory>
    ensures { IfOk result (λ o. o ≡ make_dir at.now (option_copied name.entry)) }
{
    Ok(match name {
        None => None,
        Some(name) => Some(Plan::MakeDir {
            dir: at.clone()?,
            name: name.clone()?,
        }),
    })
}

fn remove(at: &Place, name: Option<&Name>) -> Result<Option<Plan>, NoMemory>
    ensures { IfOk result (λ o. o ≡ remove at.now (option_copied name.entry)) }
{
    Ok(match name {
        None => None,
        Some(name) => Some(Plan::Remove {
            dir: at.clone()?,
            name: name.clone()?,
        }),
    })
}

fn rename(
    from: &Option<Place>,
    old: Option<&Name>,
    to: &Place,
    new: Option<&Name>,
) -> Result<Option<Plan>, NoMemory>
    ensures { IfOk result (λ o. o ≡ rename from.now (option_copied old.entry) to.now (option_copied new.entry)) }
{
    Ok(match (from, old, new) {
        (Some(from), Some(old), Some(new)) => Some(Plan::Rename {
            from: from.clone()?,
            old: old.clone()?,
            to: to.clone()?,
            new: new.clone()?,
        }),
        _ => None,
    })
}

/// A listing goes on where it has come to.
fn list(size: u32, at: &Place, listed: &Option<Listed>) -> Result<Option<Plan>, NoMemory>
    ensures { IfOk result (λ o. o ≡ list size at.now listed.now) }
{
    Ok(match listed {
        None => None,
        Some(listed) => Some(Plan::List {
            at: at.clone()?,
            cookie: listed.cookie,
            verf: listed.verifier,
            max: size,
        }),
    })
}

/// What a command asks for at the end of its walk; so many bytes are asked of a directory at once.
fn goal(size: u32, command: &Command, way: &Way) -> Result<Option<Plan>, NoMemory>
    ensures { IfOk result (λ o. o ≡ goal size command.now way.now) }
{
    match command {
        Command::Stat { .. } => Ok(Some(Plan::Stat {
            at: way.at.clone()?,
        })),
        Command::List { .. } => list(size, &way.at, &way.listed),
        Command::MakeDir { path } => make_dir(&way.at, last_of(path.as_slice())),
        Command::Remove { path } => remove(&way.at, last_of(path.as_slice())),
        Command::Rename { from, to } => rename(
            &way.old,
            last_of(from.as_slice()),
            &way.at,
            last_of(to.as_slice()),
        ),
        _ => Ok(None),
    }
}

/// The first names of these, at most so many.
fn first_names(alloc: Global, most: usize, names: &[Name]) -> Result<Path, NoMemory>
    ensures { IfOk result (λ path. path ≡ take most names.now) }
{
    let first = &names[..most.min(names.len())];
    Sequence::from_vec(alloc, first.to_vec(alloc)?)
}

/// The next plan of a command that has come so far, as this session's sizes allow.
#[tactic(auto, using(crate::proofs::Begins::walk_next))]
pub fn next_plan(
    alloc: Global,
    session: Option<SessionMade>,
    command: &Option<Command>,
    way: &Way,
) -> Result<Option<Plan>, NoMemory>
    ensures { IfOk result (λ o. o ≡ next_plan session command.now way.now) }
{
    let Some(command) = command else {
        return Ok(None);
    };
    match ahead(command, way) {
        [] => goal(list_size(session), command, way),
        names => Ok(Some(Plan::Walk {
            from: way.at.clone()?,
            names: first_names(alloc, walk_most(session) as usize, names)?,
        })),
    }
}

/// Whether a path has a last name.
fn has_last(path: &[Name]) -> bool
    ensures { result ≡ is_some (last_of path.now) }
{
    last_of(path).is_some()
}

/// Whether a command that has come so far asks for anything at the end of its walk.
#[tactic(auto, using(crate::proofs::Begins::has_listed, crate::proofs::Begins::has_made, crate::proofs::Begins::has_removed, crate::proofs::Begins::has_renamed))]
fn has_goal(command: &Command, way: &Way) -> bool
    ensures { (size : ℕ) → is_some (goal size command.now way.now) ≡ result }
{
    match command {
        Command::Stat { .. } => true,
        Command::List { .. } => way.listed.is_some(),
        Command::MakeDir { path } => has_last(path.as_slice()),
        Command::Remove { path } => has_last(path.as_slice()),
        Command::Rename { from, to } => {
            way.old.is_some() && has_last(from.as_slice()) && has_last(to.as_slice())
        }
        _ => false,
    }
}

/// Whether the command has a next plan.
pub fn has_next(seat: &Seat) -> bool
    ensures { result ≡ has_next seat.now }
{
    match &seat.command {
        None => false,
        Some(command) => match ahead(command, &seat.way) {
            [] => has_goal(command, &seat.way),
            _ => true,
        },
    }
}
