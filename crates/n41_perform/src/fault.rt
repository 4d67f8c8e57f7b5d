use n41_script::LineKind;

/// Why a script was not read, run and printed as it should.
#[derive(Clone, Copy, Debug, PartialEq, Eq)]
pub enum PerformFault {
    /// The line with this number, from 1, is the first that is refused, for this. A source that is too long has line 0.
    Script(u64, LineKind),
    /// The source failed.
    ReadFault,
    /// The sink failed.
    WriteFault,
    /// So many rounds in a row had no reply.
    Unreachable(u64),
    /// The event at this place of the journal, from 1, is the first reply that breaks the rules.
    Breach(u64),
    NoMemory,
}
