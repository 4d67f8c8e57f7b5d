ghost use Rattle.std.specs.Prelude.{◌≡◌, ◌++◌, ◌↔◌, [], List, ℕ, length, map, IsOk, Ok, Err};
ghost use Rattle.n41_xdr.specs.Lawful.{IsBytes};
ghost use Rattle.n41_rpc.specs.declared.fault.RpcFault.TheVariants.{BadKind};
ghost use Rattle.n41_rpc.specs.declared.heads.Cred.{Cred};
ghost use Rattle.n41_rpc.specs.Heads.{Verdict, call, reply, head};
ghost use Rattle.n41_args.specs.declared.arg.Arg.{Arg};
ghost use Rattle.n41_args.specs.Args.{ToldArg, arg_of, written_arg};
ghost use Rattle.n41_replies.specs.declared.fault.MsgFault.TheVariants.{Rpc};
ghost use Rattle.n41_seen.specs.declared.calls.CallSeen.{CallSeen};
ghost use Rattle.n41_seen.specs.declared.calls.SeenTail.TheVariants.{Whole};
ghost use Rattle.n41_seen.specs.Calls.{call_at, call_text, whole_call, TextFits, SpellsCall};

/// A law: calls are read just where they are spelled.
pub fn calls_are_read_where_spelled()
    ensures { (c : CallSeen) (bytes : List ℕ) → IsBytes bytes → (call_at bytes ≡ Ok c) ↔ SpellsCall c bytes }
{}

/// A law: bytes spell one call at most.
pub fn calls_have_one_value()
    ensures { (c d : CallSeen) (bytes : List ℕ) → IsBytes bytes → SpellsCall c bytes → SpellsCall d bytes → c ≡ d }
{}

/// A law: behind the head of a call there is nothing that is refused, and behind that of a reply all is.
pub fn only_bad_heads_are_refused()
    ensures calls { (xid prog vers procedure : ℕ) (c v : Cred) (rest : List ℕ) → head.Fits (xid, call prog vers procedure c v) → IsOk (call_at (head.spell (xid, call prog vers procedure c v) ++ rest)) }
    ensures replies { (xid : ℕ) (v : Verdict) (rest : List ℕ) → head.Fits (xid, reply v) → call_at (head.spell (xid, reply v) ++ rest) ≡ Err (Rpc (BadKind 1)) }
{}

/// A law: no spelling of a whole call begins another.
pub fn no_whole_call_begins_another()
    ensures { (c d : CallSeen) (a b more : List ℕ) → SpellsCall c a → SpellsCall d b → b ≡ a ++ more → c.tail ≡ Whole → d.tail ≡ Whole → (c ≡ d) × (more ≡ []) }
{}

/// A law: a call of COMPOUND, with any credential, verifier and tag, is read as its minor version and its operations.
pub fn whole_calls_are_read()
    ensures told { (xid : ℕ) (c v : Cred) (tag : List ℕ) (minor : ℕ) (told : List ToldArg) → TextFits xid c v tag minor told → call_at (call_text xid c v tag minor (length told) told) ≡ Ok (whole_call xid c minor (map arg_of told)) }
    ensures written { (xid : ℕ) (c v : Cred) (tag : List ℕ) (minor : ℕ) (list : List Arg) → TextFits xid c v tag minor (map written_arg list) → call_at (call_text xid c v tag minor (length list) (map written_arg list)) ≡ Ok (whole_call xid c minor list) }
    ensures spelled { (xid : ℕ) (c v : Cred) (tag : List ℕ) (minor : ℕ) (told : List ToldArg) → TextFits xid c v tag minor told → SpellsCall (whole_call xid c minor (map arg_of told)) (call_text xid c v tag minor (length told) told) }
{}
