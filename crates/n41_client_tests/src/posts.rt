// Commands that are given to a core.
ghost use Rattle.std.specs.Prelude.{◌≡◌, [], IfOk};

use n41_core::{Core, PostFault};
use n41_model::Setup;
use n41_types::{Bytes, Command, NoMemory, Sequence};
use std::alloc::Global;
use std::test::Fail;

fn root(alloc: Global) -> Result<Command, NoMemory>
    ensures { IfOk result (λ k. k ≡ Command.Stat []) }
{
    Ok(Command::Stat {
        path: Sequence::from_vec(alloc, Vec::new(alloc))?,
    })
}

fn two_callers(alloc: Global) -> Result<Core, NoMemory> {
    let owner = Bytes::from_vec(Vec::new(alloc))?;
    Core::new(
        alloc,
        Setup {
            callers: 2,
            uid: 0,
            gid: 0,
            owner,
            verifier: [1; 8],
        },
    )
}

/// The number of a look at the root that a caller begins.
fn post_root(alloc: Global, core: &mut Core, caller: u32) -> Result<u64, PostFault> {
    match root(alloc) {
        Ok(command) => Ok(core.post(caller, command)?.number),
        Err(_) => Err(PostFault::NoMemory),
    }
}

#[test]
fn a_caller_has_one_command_at_a_time(rt: HostRuntime) -> Result<(), Fail> {
    let alloc = rt.alloc();
    let mut core = two_callers(alloc)?;
    for (caller, posted) in [
        (0, Ok(1)),
        (0, Err(PostFault::Busy(1))),
        (5, Err(PostFault::NoCaller)),
        (2, Err(PostFault::NoCaller)),
        (1, Ok(1)),
        (1, Err(PostFault::Busy(1))),
    ] {
        assert_eq!(rt; post_root(alloc, &mut core, caller), posted);
    }
    core.finish()?;
    assert_eq!(rt; post_root(alloc, &mut core, 0), Err(PostFault::Busy(1)));
    let mut core = two_callers(alloc)?;
    core.finish()?;
    assert_eq!(rt; post_root(alloc, &mut core, 0), Err(PostFault::Quitting));
    Ok(())
}
