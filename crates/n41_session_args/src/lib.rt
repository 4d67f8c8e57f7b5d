//! What the operations of client ids and sessions take (RFC 8881, sections 18.34 to 18.36 and 18.46), read and written.
#![tactic(auto)]

mod laws;
mod security;
pub mod sessions;

pub use laws::arguments_are_lawful;
pub use security::{Securities, Security, SystemAuth};
pub use sessions::{BindArgs, CreateSessionArgs, ExchangeIdArgs};
