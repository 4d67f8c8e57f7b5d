/// Why a probe did not print what the server answers.
#[derive(Clone, Copy, Debug, PartialEq, Eq)]
pub enum ProbeFault {
    /// There was no connection, or it brought no record.
    Unreachable,
    /// The first record is no such reply.
    Breach,
    /// The sink failed.
    WriteFault,
    NoMemory,
}
