//! Stateids by themselves, and delegations.

ghost use Rattle.std.specs.Prelude.{◌≡◌, ◌++◌, OnOk};
ghost use Rattle.n41_requests.specs.Plans.{args_of};
ghost use Rattle.n41_requests.specs.Requests.{args_text, AllFit};

use crate::places::write_put_fh;
use n41_args::{Arg, write_arg};
use n41_types::{Fh, NoMemory, Plan, Stateid, Stateids};
use n41_xdr::Writer;

pub(crate) fn write_test(w: &mut Writer, stateids: &Stateids) -> Result<(), NoMemory>
    requires { AllFit (args_of (Plan.Test stateids.now)) }
    ensures { OnOk result (w.new ≡ w.old ++ args_text (args_of (Plan.Test stateids.now))) }
{
    write_arg(w, &Arg::TestStateid(stateids.clone()?))
}

pub(crate) fn write_free(w: &mut Writer, stateid: &Stateid) -> Result<(), NoMemory>
    requires { AllFit (args_of (Plan.Free stateid.now)) }
    ensures { OnOk result (w.new ≡ w.old ++ args_text (args_of (Plan.Free stateid.now))) }
{
    write_arg(w, &Arg::FreeStateid(*stateid))
}

pub(crate) fn write_return(w: &mut Writer, fh: &Fh, stateid: &Stateid) -> Result<(), NoMemory>
    requires { AllFit (args_of (Plan.ReturnDeleg fh.now stateid.now)) }
    ensures { OnOk result (w.new ≡ w.old ++ args_text (args_of (Plan.ReturnDeleg fh.now stateid.now))) }
{
    write_put_fh(w, fh)?;
    write_arg(w, &Arg::DelegReturn(*stateid))
}
