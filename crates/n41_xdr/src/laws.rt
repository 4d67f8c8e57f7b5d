ghost use Rattle.std.specs.Prelude.{ℕ};
ghost use Rattle.n41_xdr.specs.Format.{word, hyper, flag, fixed, opaque};
ghost use Rattle.n41_xdr.specs.Lawful.{IsLawful, BeginsNoOther};

/// A law of the readers and the writers, both ways: what a reader takes is the spelling of its value, and a value's spelling
/// is read as that value, whatever follows it.
pub fn what_is_written_is_read()
    ensures words { IsLawful word }
    ensures hypers { IsLawful hyper }
    ensures flags { IsLawful flag }
    ensures fixed_data { (n : ℕ) → IsLawful (fixed n) }
    ensures variable_data { (max : ℕ) → IsLawful (opaque max) }
{}

/// A law of the writers: where two spellings of one type begin the same bytes, they are of one value, and the same bytes
/// follow them.
pub fn no_spelling_begins_another()
    ensures words { BeginsNoOther word }
    ensures hypers { BeginsNoOther hyper }
    ensures flags { BeginsNoOther flag }
    ensures fixed_data { (n : ℕ) → BeginsNoOther (fixed n) }
    ensures variable_data { (max : ℕ) → BeginsNoOther (opaque max) }
{}
