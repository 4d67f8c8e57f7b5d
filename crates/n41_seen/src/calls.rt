//! What is seen of a call.

ghost use Rattle.std.specs.Prelude.{◌≡◌};

use n41_args::Arg;
use n41_rpc::Cred;
use n41_types::Sequence;
use std::alloc::AllocError;

/// A list of operations with their arguments.
pub type Args = Sequence<Arg>;

/// What comes behind the operations of a call that were read.
#[derive(Clone, Copy, Debug, PartialEq, Eq)]
pub enum SeenTail {
    /// Nothing.
    Whole,
    /// An operation with this number, which there is not, and what follows it.
    Unknown(u32),
    /// An operation with this number, behind which its arguments cannot be read.
    BadArgs(u32),
    /// The arguments have no form of a COMPOUND.
    Garbage,
    /// The call is no COMPOUND, and its arguments are not read.
    Unread,
}

/// A call as a server sees it (RFC 5531, call_body; RFC 8881, COMPOUND4args).
///
/// Where the tail is Garbage or Unread the list is empty and the minor version 0.
#[derive(Drop)]
pub struct CallSeen {
    pub xid: u32,
    pub prog: u32,
    pub vers: u32,
    pub procedure: u32,
    pub cred: Cred,
    /// The minor version.
    pub minor: u32,
    /// The operations up to the tail.
    pub list: Args,
    pub tail: SeenTail,
}

impl Clone for CallSeen {
    ghost is_clone = { λ x y. y ≡ x };

    fn clone(&self) -> Result<CallSeen, AllocError> {
        Ok(CallSeen {
            xid: self.xid,
            prog: self.prog,
            vers: self.vers,
            procedure: self.procedure,
            cred: Cred {
                flavor: self.cred.flavor,
                body: self.cred.body.clone()?,
            },
            minor: self.minor,
            list: self.list.clone()?,
            tail: self.tail,
        })
    }
}
