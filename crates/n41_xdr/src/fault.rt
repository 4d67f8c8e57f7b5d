use thiserror::Error;

/// Why bytes are no XDR of what is read (RFC 4506).
#[derive(Debug, Clone, Copy, PartialEq, Eq, Error)]
pub enum XdrFault {
    /// An item of `need` bytes, its fill among them, begins where only `have` bytes are left.
    #[error("{need} bytes are needed and {have} are left")]
    Short { need: u64, have: u64 },
    /// A bool is neither 0 nor 1 (section 4.4).
    #[error("{0} is no bool")]
    BadBool(u32),
    /// A byte of the fill is not zero (section 3).
    #[error("the fill is not zero")]
    BadPad,
    /// Variable opaque data, or an array, is longer than its bound (sections 4.10 and 4.13).
    #[error("a length of {len} is above {max}")]
    TooLong { len: u32, max: u32 },
    /// A discriminant has no arm (section 4.15). No call of this crate answers it: the unions of the crates above do.
    #[error("no arm has the discriminant {0}")]
    BadArm(u32),
    /// This many bytes are left behind a whole message.
    #[error("{0} bytes are left over")]
    Left(usize),
}
