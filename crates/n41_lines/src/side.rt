/// Which side of a connection wrote a stream.
#[derive(Clone, Copy, Debug, PartialEq, Eq)]
pub enum Side {
    /// Calls, and replies to callbacks.
    Client,
    /// Replies to calls, and callbacks.
    Server,
}
