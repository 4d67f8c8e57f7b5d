ghost use Rattle.std.specs.Prelude.{◌≡◌, ◌++◌, ◌<◌, ◌^◌, ℕ, List, Ok};
ghost use Rattle.n41_xdr.specs.Format.{made};
ghost use Rattle.n41_xdr.specs.Lawful.{IsLawful, BeginsNoOther};
ghost use Rattle.n41_rpc.specs.declared.heads.CallHead.{CallHead};
ghost use Rattle.n41_rpc.specs.declared.heads.ReplyHead.{ReplyHead};
ghost use Rattle.n41_rpc.specs.declared.heads.Head.TheVariants.{Call, Reply};
ghost use Rattle.n41_rpc.specs.Heads.{head, head_of, system, written_call, written_reply, CallFits, IsBody};

/// A law: heads are read just where they are spelled, and no spelling of a head begins another.
pub fn heads_are_lawful()
    ensures heads { IsLawful head }
    ensures one_spelling { BeginsNoOther head }
    ensures system_bodies { IsLawful system }
{}

/// A law: a head that is written is read again, whatever follows it.
pub fn what_is_written_is_read()
    ensures calls { (h : CallHead) (rest : List ℕ) → CallFits h → made head_of head (head.spell (written_call h) ++ rest) ≡ Ok (Call h, rest) }
    ensures replies { (h : ReplyHead) (rest : List ℕ) → h.xid < 2 ^ 32 → IsBody h.body → made head_of head (head.spell (written_reply h) ++ rest) ≡ Ok (Reply h, rest) }
{}
