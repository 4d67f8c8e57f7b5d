ghost use Rattle.std.specs.Prelude.{◌≡◌, ◌++◌, ℕ, List, Ok};
ghost use Rattle.n41_xdr.specs.Format.{made};
ghost use Rattle.n41_xdr.specs.Lawful.{IsLawful, BeginsNoOther};
ghost use Rattle.n41_results.specs.declared.results.Res.{Res};
ghost use Rattle.n41_ops.specs.Results.{told_res, res_of, written_res};

/// A law: results are read just where they are spelled, and no spelling of a result begins another.
pub fn results_are_lawful()
    ensures results { IsLawful told_res }
    ensures one_spelling { BeginsNoOther told_res }
{}

/// A law: all of a result is written, and a result that is written is read again, whatever follows it.
pub fn what_is_written_is_read()
    ensures whole { (x : Res) → res_of (written_res x) ≡ x }
    ensures read { (x : Res) (rest : List ℕ) → told_res.Fits (written_res x) → made res_of told_res (told_res.spell (written_res x) ++ rest) ≡ Ok (x, rest) }
{}
