// Connections in memory, which were prepared.
ghost use Rattle.std.specs.Prelude.{◌≡◌, ◌<◌, ◌∷◌, [], length, All, IfOk, OnErr};
ghost use Rattle.n41_link.specs.Counts.{Counts, is_failed};
ghost use Rattle.n41_link.specs.Links.{IsUnread, IsUnwritten};

use crate::flows::{SureInflow, SureOutflow};
use n41_link::{Dialer, Failed, Inflow, Listener, Outflow};

/// Hands out these connections, in order. It fails where none is left.
#[derive(Drop)]
pub struct Prepared<I: Inflow, O: Outflow> {
    links: Vec<(I, O)>,
    faults: u64,
    ghost unread: { All (λ link. IsUnread (I.got link.0) (I.faults link.0) (I.quiets link.0) (I.ends link.0)) links.items },
    ghost unwritten: { All (λ link. IsUnwritten (O.put link.1) (O.faults link.1)) links.items },
}

pub type SureDialer = Prepared<SureInflow, SureOutflow>;

pub type SureListener = Prepared<SureInflow, SureOutflow>;

fn take_first<I: Inflow, O: Outflow>(links: &mut Vec<(I, O)>) -> (I, O)
    requires some { 0 < length links.old.items }
    requires unread { All (λ link. IsUnread (I.got link.0) (I.faults link.0) (I.quiets link.0) (I.ends link.0)) links.old.items }
    requires unwritten { All (λ link. IsUnwritten (O.put link.1) (O.faults link.1)) links.old.items }
    ensures first { links.old.items ≡ result ∷ links.new.items }
    ensures first_unread { IsUnread (I.got result.0) (I.faults result.0) (I.quiets result.0) (I.ends result.0) }
    ensures first_unwritten { IsUnwritten (O.put result.1) (O.faults result.1) }
    ensures unread { All (λ link. IsUnread (I.got link.0) (I.faults link.0) (I.quiets link.0) (I.ends link.0)) links.new.items }
    ensures unwritten { All (λ link. IsUnwritten (O.put link.1) (O.faults link.1)) links.new.items }
{
    links.remove(0)
}

impl<I: Inflow, O: Outflow> Prepared<I, O> {
    ghost use Rattle.n41_mem.specs.Held.{prepared_links, prepared_faults};

    pub fn new(links: Vec<(I, O)>) -> Prepared<I, O>
        requires unread { All (λ link. IsUnread (I.got link.0) (I.faults link.0) (I.quiets link.0) (I.ends link.0)) links.items }
        requires unwritten { All (λ link. IsUnwritten (O.put link.1) (O.faults link.1)) links.items }
        ensures links { prepared_links result ≡ links.items }
        ensures faults { prepared_faults result ≡ 0 }
    {
        Prepared { links, faults: 0 }
    }

    /// The next connection.
    pub fn next(&mut self) -> Result<(I, O), Failed>
        ensures first { IfOk result (λ link. prepared_links self.old ≡ link ∷ prepared_links self.new) }
        ensures none { OnErr result ((prepared_links self.old ≡ []) × (prepared_links self.new ≡ [])) }
        ensures cause { Counts (prepared_faults self.old) (prepared_faults self.new) (is_failed result) }
        ensures unread { IfOk result (λ link. IsUnread (I.got link.0) (I.faults link.0) (I.quiets link.0) (I.ends link.0)) }
        ensures unwritten { IfOk result (λ link. IsUnwritten (O.put link.1) (O.faults link.1)) }
    {
        if self.links.is_empty() {
            self.faults = self.faults.saturating_add(1);
            return Err(Failed);
        }
        Ok(take_first(&mut self.links))
    }
}

impl<I: Inflow + Send, O: Outflow + Send> Dialer for Prepared<I, O> {
    type I = I;

    type O = O;

    ghost faults = { λ d. d.faults };

    fn dial(&mut self, _addr: &str) -> Result<(I, O), Failed> {
        self.next()
    }
}

impl<I: Inflow, O: Outflow> Listener for Prepared<I, O> {
    type I = I;

    type O = O;

    ghost faults = { λ d. d.faults };

    fn accept(&mut self, _addr: &str) -> Result<(I, O), Failed> {
        self.next()
    }
}
