ghost use Rattle.std.specs.Prelude.{◌≡◌, Some, take, option_copied};
ghost use Rattle.n41_types.specs.declared.plans.Plan.TheVariants as plans;
ghost use Rattle.n41_calls.specs.Calls.{make_dir, remove, rename, list, goal, next_plan, is_plan};

use n41_model::{Listed, Way};
use n41_results::SessionMade;
use n41_said::{ahead, last_of, list_size, walk_most};
use n41_types::{Command, Name, Place, Plan};

/// Whether this is the plan of a walk from here over as many of these names as go into one request.
fn is_walk(most: u64, at: &Place, names: &[Name], plan: &Plan) -> bool
    ensures { result ≡ is_plan (Some (plans.Walk at.now (take most names.now))) plan.now }
{
    match plan {
        Plan::Walk {
            from,
            names: walked,
        } => {
            let next = &names[..names.len().min(most as usize)];
            *at == *from && next == walked.as_slice()
        }
        _ => false,
    }
}

fn is_stat(at: &Place, plan: &Plan) -> bool
    ensures { result ≡ is_plan (Some (plans.Stat at.now)) plan.now }
{
    match plan {
        Plan::Stat { at: place } => *at == *place,
        _ => false,
    }
}

fn is_make_dir(at: &Place, last: Option<&Name>, plan: &Plan) -> bool
    ensures { result ≡ is_plan (make_dir at.now (option_copied last.entry)) plan.now }
{
    match (last, plan) {
        (Some(last), Plan::MakeDir { dir, name }) => *at == *dir && *last == *name,
        _ => false,
    }
}

fn is_remove(at: &Place, last: Option<&Name>, plan: &Plan) -> bool
    ensures { result ≡ is_plan (remove at.now (option_copied last.entry)) plan.now }
{
    match (last, plan) {
        (Some(last), Plan::Remove { dir, name }) => *at == *dir && *last == *name,
        _ => false,
    }
}

fn is_rename(
    from: Option<&Place>,
    old: Option<&Name>,
    to: &Place,
    new: Option<&Name>,
    plan: &Plan,
) -> bool
    ensures { result ≡ is_plan (rename (option_copied from.entry) (option_copied old.entry) to.now (option_copied new.entry)) plan.now }
{
    let (Some(from), Some(old), Some(new)) = (from, old, new) else {
        return false;
    };
    match plan {
        Plan::Rename {
            from: source,
            old: before,
            to: target,
            new: after,
        } => *from == *source && *old == *before && *to == *target && *new == *after,
        _ => false,
    }
}

/// Whether this is the plan of a listing that goes on, by so many bytes at once.
fn is_list(size: u32, at: &Place, listed: Option<&Listed>, plan: &Plan) -> bool
    ensures { result ≡ is_plan (list size at.now (option_copied listed.entry)) plan.now }
{
    match (listed, plan) {
        (
            Some(listed),
            Plan::List {
                at: place,
                cookie,
                verf,
                max,
            },
        ) => {
            *at == *place && listed.cookie == *cookie && listed.verifier == *verf && size == *max
        }
        _ => false,
    }
}

/// Whether this is the plan of what the command asks for at the end of its walk; so many bytes are asked of a directory at once.
fn is_goal(size: u32, command: &Command, way: &Way, plan: &Plan) -> bool
    ensures { result ≡ is_plan (goal size command.now way.now) plan.now }
{
    match command {
        Command::Stat { .. } => is_stat(&way.at, plan),
        Command::List { .. } => is_list(size, &way.at, way.listed.as_ref(), plan),
        Command::MakeDir { path } => is_make_dir(&way.at, last_of(path.as_slice()), plan),
        Command::Remove { path } => is_remove(&way.at, last_of(path.as_slice()), plan),
        Command::Rename { from, to } => is_rename(
            way.old.as_ref(),
            last_of(from.as_slice()),
            &way.at,
            last_of(to.as_slice()),
            plan,
        ),
        _ => false,
    }
}

/// Whether a request with this plan is the next of a command that has come so far.
pub(crate) fn is_next(
    session: Option<SessionMade>,
    command: &Command,
    way: &Way,
    plan: &Plan,
) -> bool
    ensures { result ≡ is_plan (next_plan session (Some command.now) way.now) plan.now }
{
    match ahead(command, way) {
        [] => is_goal(list_size(session), command, way, plan),
        names => is_walk(walk_most(session), &way.at, names, plan),
    }
}
