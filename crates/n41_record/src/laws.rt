//! Laws of record marking, as contracts of functions that do nothing.
ghost use Rattle.n41_record.specs.Laws.{RecordsAreOne, FaultsAreOne, NeverBoth, ReadsOn, ReadsOnToFault, FaultStays};

/// A stream is read in one way: its records, its rest, and the limit that it passes, if any.
pub fn streams_have_one_reading()
    ensures records { RecordsAreOne }
    ensures faults { FaultsAreOne }
    ensures never_both { NeverBoth }
{}

/// How a stream is cut into pieces changes nothing.
pub fn cutting_changes_nothing()
    ensures records { ReadsOn }
    ensures fault { ReadsOnToFault }
    ensures stays { FaultStays }
{}
