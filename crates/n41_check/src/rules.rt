/// A rule of journals, in the order in which they are named.
#[derive(Clone, Copy, Debug, PartialEq, Eq)]
pub enum Rule {
    /// At most one request is out on each slot.
    Slots,
    /// A repeated turn has the same request.
    Retries,
    /// A slot's new turn is one more.
    Turns,
    /// Unknown and Unreachable have their cause.
    Causes,
    /// Each command is answered once, in its caller's order.
    Answers,
}
