//! The heads of remote calls and of their replies (RFC 5531), read and written.
#![tactic(auto)]

mod calls;
mod credentials;
mod fault;
mod heads;
mod laws;
mod replies;

pub use credentials::write_system_body;
pub use fault::RpcFault;
pub use heads::{CallHead, Cred, Head, HeadBody, ReplyHead, read_head, write_call, write_reply};
pub use laws::{heads_are_lawful, what_is_written_is_read};

#[cfg(test)]
mod tests;
