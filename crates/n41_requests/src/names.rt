//! That every name in a plan is a name, by the types of its parts.

ghost use Rattle.std.specs.List.{AllByRecursion};
ghost use Rattle.n41_types.specs.Names.{IsName};
ghost use Rattle.n41_requests.specs.Requests.{HasNames};

use n41_types::{Name, Plan, Request};

pub(crate) fn is_name(name: &Name)
    ensures { IsName name.now }
{
    let _bytes = name.as_slice();
}

pub(crate) fn are_names(names: &[Name])
    ensures { AllByRecursion IsName names.now }
{
    for name in names {
        is_name(name);
    }
}

fn plan_has_names(plan: &Plan)
    ensures { HasNames plan.now }
{
    match plan {
        Plan::Walk { names, .. } => are_names(names.as_slice()),
        Plan::CreateFile { name, .. } | Plan::MakeDir { name, .. } | Plan::Remove { name, .. } => {
            is_name(name)
        }
        Plan::Rename { old, new, .. } => {
            is_name(old);
            is_name(new);
        }
        _ => {}
    }
}

/// Every name in a request's plan is a name, by the types of its parts.
pub fn request_has_names(q: &Request)
    ensures { HasNames q.now.plan }
{
    plan_has_names(&q.plan);
}
