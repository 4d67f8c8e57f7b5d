ghost use Rattle.std.specs.Prelude.{◌≡◌, ◌++◌, ℕ, List, Ok};
ghost use Rattle.n41_xdr.specs.Format.{made};
ghost use Rattle.n41_xdr.specs.Lawful.{IsLawful, BeginsNoOther};
ghost use Rattle.n41_args.specs.declared.arg.Arg.{Arg};
ghost use Rattle.n41_args.specs.Args.{told_arg, arg_of, written_arg};
ghost use Rattle.n41_args.specs.Fits.{ArgFits};

/// A law: operations are read just where they are spelled, and no spelling of an operation begins another.
pub fn arguments_are_lawful()
    ensures operations { IsLawful told_arg }
    ensures one_spelling { BeginsNoOther told_arg }
{}

/// A law: all of an operation is written, and an operation that is written is read again, whatever follows it.
pub fn what_is_written_is_read()
    ensures fits { (a : Arg) → ArgFits a → told_arg.Fits (written_arg a) }
    ensures whole { (a : Arg) → arg_of (written_arg a) ≡ a }
    ensures read { (a : Arg) (rest : List ℕ) → told_arg.Fits (written_arg a) → made arg_of told_arg (told_arg.spell (written_arg a) ++ rest) ≡ Ok (a, rest) }
{}
