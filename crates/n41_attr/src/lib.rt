//! Bitmaps and the attributes of files (RFC 8881, bitmap4 and fattr4), read and written.
#![tactic(auto)]

mod answers;
mod attributes;
mod bitmaps;
mod fault;
mod laws;
pub mod parts;
mod values;

pub use answers::asked;
pub use attributes::{read_attrs, write_attrs};
pub use bitmaps::{read_bitmap, write_bitmap};
pub use fault::{AttrFault, BitmapFault, OpFault};
pub use laws::{attributes_are_lawful, what_is_written_is_read};

#[cfg(test)]
mod tests;
