use crate::sequence::Sequence;

/// A set of attribute numbers: number n is bit n mod 32 of word n div 32 (RFC 8881, bitmap4).
pub type Bitmap = Sequence<u32>;

/// The attributes of a file that the client knows; None where one is not told (RFC 8881, section 5).
#[derive(Clone, Copy, Debug, PartialEq, Eq)]
pub struct Attrs {
    /// 1 for a file, 2 for a directory.
    pub kind: Option<u32>,
    pub change: Option<u64>,
    /// In bytes.
    pub size: Option<u64>,
    /// In seconds.
    pub lease: Option<u32>,
    pub fileid: Option<u64>,
    pub mode: Option<u32>,
}
