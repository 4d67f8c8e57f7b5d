use n41_words::LineKind;

/// Why a journal was not read, checked and told of as it should.
#[derive(Clone, Copy, Debug, PartialEq, Eq)]
pub enum ReplayFault {
    /// The line with this number, from 1, is the first that is refused, for this. A text of more than 16 MiB has line 0.
    Script(u64, LineKind),
    /// The source failed.
    ReadFault,
    /// The sink failed.
    WriteFault,
    NoMemory,
}
