/// Why a stream was not dumped.
#[derive(Clone, Copy, Debug, PartialEq, Eq)]
pub enum DumpFault {
    /// The stream has more than 16 MiB.
    Limit,
    /// The source failed.
    ReadFault,
    /// The sink failed.
    WriteFault,
    NoMemory,
}
