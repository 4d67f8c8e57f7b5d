/// A command: its caller, and its number among that caller's commands.
#[derive(Clone, Copy, Debug, PartialEq, Eq)]
pub struct CommandName {
    pub caller: u32,
    pub number: u64,
}
