use n41_types::{Bytes, Command, Names, Sequence};

/// A command of a script. Callers are numbered from 0 in the order in which they appear.
#[derive(Drop)]
pub struct ScriptLine {
    pub caller: u32,
    pub command: Command,
}

/// The commands of a script, in its order.
pub type Lines = Sequence<ScriptLine>;

/// What a script says.
#[derive(Drop)]
pub struct Script {
    pub uid: u32,
    pub gid: u32,
    /// The owner of the client id.
    pub owner: Bytes,
    /// The names of the callers, each at its number.
    pub callers: Names,
    pub lines: Lines,
}
