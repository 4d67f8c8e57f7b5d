ghost use Rattle.n41_xdr.specs.Lawful.{IsLawful};
ghost use Rattle.n41_session_args.specs.Sessions.{exchange_id, create_session, bind, sequence};

/// A law: what the operations take is read just where it is spelled.
pub fn arguments_are_lawful()
    ensures exchange_id { IsLawful exchange_id }
    ensures create_session { IsLawful create_session }
    ensures bind { IsLawful bind }
    ensures sequence { IsLawful sequence }
{}
