ghost use Rattle.n41_view.specs.Laws.{ViewSteps, DueFromView, EndFromView, CausesFromView, AwaitedFromView, OldFromView, MayFromView};

/// A law of the tables that a journal fills: each event of a client that keeps its rules moves them by its step, which looks at the
/// tables and the event alone.
pub fn the_view_steps()
    ensures { ViewSteps }
{}

/// A law: what is due by the tables is what is due by the journal, item by item.
pub fn the_view_tells_what_is_due()
    ensures { DueFromView }
{}

/// A law: the run has ended by the tables where it has by the journal.
pub fn the_view_tells_the_end()
    ensures { EndFromView }
{}

/// A law: an answer to a caller has its cause in the tables where it has it in the journal.
pub fn the_view_tells_causes()
    ensures { CausesFromView }
{}

/// A law: the request with an xid that waits for its reply is in the tables the one that it is in the journal.
pub fn the_view_tells_what_is_awaited()
    ensures { AwaitedFromView }
{}

/// A law: a request is old by the tables where it is by the journal.
pub fn the_view_tells_what_is_old()
    ensures { OldFromView }
{}

/// A law: an event may follow by the tables where it may by the journal.
pub fn the_view_tells_what_may_follow()
    ensures { MayFromView }
{}
