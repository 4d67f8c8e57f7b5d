// A law of what an inlet keeps.
ghost use Rattle.std.specs.declared.option.Option.{Option};
ghost use Rattle.n41_record.specs.Gathered.{Gathered};
ghost use Rattle.n41_link.specs.Heard.{GivesFirst};
ghost use Rattle.n41_results.specs.declared.replies.Reply.{Reply};
ghost use Rattle.n41_replies.specs.declared.fault.MsgFault.{MsgFault};
ghost use Rattle.n41_wire.specs.Logs.{IsRead, StandFirst};
ghost use Rattle.std.specs.Prelude.{List};

/// A law: what was read begins with the records of the replies that were handed out, also behind a fault.
pub fn replies_stand_first()
    ensures { (g : Gathered) (fault : Option MsgFault) (replies : List Reply) → GivesFirst g → IsRead fault g.given replies → StandFirst g.fed replies }
{}
