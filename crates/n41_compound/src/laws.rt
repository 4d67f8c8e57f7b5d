ghost use Rattle.std.specs.Prelude.{◌≡◌, Ok};
ghost use Rattle.n41_types.specs.declared.plans.Request.{Request};
ghost use Rattle.n41_requests.specs.Requests.{spelled, Fits, IsSpellable};
ghost use Rattle.n41_seen.specs.declared.calls.CallSeen.{CallSeen};
ghost use Rattle.n41_seen.specs.Calls.{call_at};
ghost use Rattle.n41_compound.specs.Calls.{seen_of, IsLawful, IsSpelledBy};

/// A law: what is spelled of a request is read as the call that it is seen as.
pub fn what_is_spelled_is_seen()
    ensures { (q : Request) → IsSpellable q → Fits q → call_at (spelled q) ≡ Ok (seen_of q) }
{}

/// A law: a call is of one request at most.
pub fn calls_are_of_one_request()
    ensures { (c : CallSeen) (q r : Request) → IsLawful q → IsLawful r → IsSpelledBy c q → IsSpelledBy c r → q ≡ r }
{}
