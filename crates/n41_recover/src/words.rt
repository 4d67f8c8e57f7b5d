/// Which of the plans without a slot.
#[derive(Clone, Copy)]
pub enum Kind {
    ExchangeId,
    CreateSession,
    Bind,
    DestroySession,
    DestroyClient,
    /// None of them: a plan with a slot.
    Other,
}

/// A request without a slot that is out.
#[derive(Clone, Copy)]
pub struct Lone {
    pub xid: u32,
    pub kind: Kind,
}
