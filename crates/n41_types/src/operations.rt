ghost use Rattle.std.specs.Prelude.{◌≡◌};
ghost use Rattle.n41_types.specs.Operations.{number};

/// The operations of a compound, each with its number (RFC 8881, nfs_opnum4).
#[derive(Clone, Copy, Debug, PartialEq, Eq)]
pub enum Operation {
    Close = 4,
    Commit = 5,
    Create = 6,
    DelegReturn = 8,
    GetAttr = 9,
    GetFh = 10,
    Lock = 12,
    LockTest = 13,
    Unlock = 14,
    Lookup = 15,
    Open = 18,
    OpenDowngrade = 21,
    PutFh = 22,
    PutRootFh = 24,
    Read = 25,
    ReadDir = 26,
    Remove = 28,
    Rename = 29,
    SaveFh = 32,
    SetAttr = 34,
    Write = 38,
    Bind = 41,
    ExchangeId = 42,
    CreateSession = 43,
    DestroySession = 44,
    FreeStateid = 45,
    Sequence = 53,
    TestStateid = 55,
    DestroyClient = 57,
    ReclaimComplete = 58,
    Illegal = 10044,
}

impl Operation {
    /// Its number on the wire.
    pub fn number(self) -> u32
        ensures { result ≡ number self }
    {
        self as u32
    }
}
