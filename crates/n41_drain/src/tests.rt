use crate::{Drain, Waiting};
use n41_types::Plan;
use std::alloc::Global;

fn post(drain: &mut Drain, caller: u32) -> bool {
    drain
        .post(Waiting {
            caller,
            number: 1,
            plan: Plan::Renew,
        })
        .is_ok()
}

/// Whose call leaves next.
fn next_caller(drain: &mut Drain) -> Option<u32> {
    let waiting = drain.next_ready()?;
    let caller = waiting.caller;
    drop(waiting);
    Some(caller)
}

/// A shut gate behind which these callers wait.
fn shut(alloc: Global, callers: u32) -> Drain {
    let mut drain = Drain::new(alloc);
    for caller in 0..callers {
        if !post(&mut drain, caller) {
            return drain;
        }
    }
    drain
}

#[test]
fn calls_leave_in_the_order_in_which_they_came(rt: HostRuntime) {
    let mut drain = shut(rt.alloc(), 3);
    drain.lift();
    for want in [Some(0), Some(1), Some(2), None] {
        assert_eq!(rt; next_caller(&mut drain), want);
    }
}

#[test]
fn none_leaves_while_the_gate_is_shut(rt: HostRuntime) {
    let mut drain = shut(rt.alloc(), 2);
    assert_eq!(rt; next_caller(&mut drain), None);
    drain.lift();
    assert_eq!(rt; next_caller(&mut drain), Some(0));
    drain.shut();
    assert_eq!(rt; next_caller(&mut drain), None);
}
