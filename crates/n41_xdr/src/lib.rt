//! XDR (RFC 4506): the basic types read from bytes and written to bytes, and in `specs` the formats that are made of them.
#![tactic(auto)]

mod fault;
mod fill;
mod laws;
mod reader;
mod writer;

pub use fault::XdrFault;
pub use laws::{no_spelling_begins_another, what_is_written_is_read};
pub use reader::Reader;
pub use writer::Writer;

#[cfg(test)]
mod tests;
