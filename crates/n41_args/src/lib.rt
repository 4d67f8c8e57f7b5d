//! The arguments of the operations of a compound (RFC 8881, section 18), read and written.
#![tactic(auto)]

mod arg;
mod directories;
mod files;
mod laws;
mod locks;
mod openings;
mod owners;
mod reading;
mod writing;

pub use arg::Arg;
pub use directories::{CreateArgs, ReadDirArgs, RenameArgs};
pub use files::{CommitArgs, ReadArgs, SetAttrArgs, WriteArgs};
pub use laws::{arguments_are_lawful, what_is_written_is_read};
pub use locks::{LockArgs, LockTestArgs, LockerArgs, UnlockArgs};
pub use n41_session_args::{
    BindArgs, CreateSessionArgs, ExchangeIdArgs, Securities, Security, SystemAuth,
};
pub use openings::{CloseArgs, DowngradeArgs, OpenArgs, OpenClaim, OpenHow};
pub use owners::StateOwner;
pub use reading::read_arg;
pub use writing::write_arg;
