// A form in memory whose calls of these numbers, from 1, fail.
ghost use Rattle.std.specs.Prelude.{◌≡◌, ◌+◌, ◌-◌, ◌^◌, ◌==◌, min, All, IfOk, IsErr, IsTrue, List, ℕ, Some, []};
ghost use Rattle.std.specs.List.{list_any};
ghost use Rattle.n41_link.specs.Counts.{Counts, is_failed};
ghost use Rattle.n41_link.specs.Flow.{FitsIn, GivesOut, TakesIn, TakesPrefix, BringsAtMost, Brings, ReadsAhead, is_quiet, is_end};
ghost use Rattle.n41_link.specs.Links.{IsUnread, IsUnwritten};

use crate::flows::{SureInflow, SureOutflow};
use crate::prepared::Prepared;
use crate::streams::{SureSink, SureSource};
use n41_link::{Came, Dialer, Failed, Inflow, Listener, Outflow, Sink, Source};
use n41_types::{Bytes, NoMemory};
use std::alloc::Global;

/// Counts its calls, fails at those of its list, from 1, and hands on all others. A call that fails so moves nothing.
#[derive(Drop)]
pub struct Failing<T> {
    inner: T,
    plan: Plan,
}

/// The calls that are to fail.
#[derive(Drop)]
struct Plan {
    calls: u64,
    fails: Vec<u64>,
    faults: u64,
}

pub type MemSource = Failing<SureSource>;

pub type MemSink = Failing<SureSink>;

pub type MemInflow = Failing<SureInflow>;

pub type MemOutflow = Failing<SureOutflow>;

pub type MemDialer = Failing<Prepared<MemInflow, MemOutflow>>;

pub type MemListener = Failing<Prepared<MemInflow, MemOutflow>>;

fn has(numbers: &[u64], number: u64) -> bool
    ensures { result ≡ list_any (λ n. n == number) numbers.now }
{
    numbers.iter().any(|n| *n == number)
}

impl Plan {
    fn new(alloc: Global, fails: &[u64]) -> Result<Plan, NoMemory>
        ensures { IfOk result (λ p. (p.fails.items ≡ fails.now) × (p.calls ≡ 0) × (p.faults ≡ 0)) }
    {
        Ok(Plan {
            calls: 0,
            fails: Vec::from_slice(alloc, fails)?,
            faults: 0,
        })
    }

    // Counts a call, and fails where it is one of those.
    fn begin(&mut self) -> Result<(), Failed>
        ensures calls { self.new.calls ≡ min (self.old.calls + 1) (2 ^ 64 - 1) }
        ensures fails { self.new.fails.items ≡ self.old.fails.items }
        ensures planned { is_failed result ≡ list_any (λ n. n == self.new.calls) self.new.fails.items }
        ensures cause { Counts self.old.faults self.new.faults (is_failed result) }
    {
        self.calls = self.calls.saturating_add(1);
        if has(&self.fails, self.calls) {
            self.faults = self.faults.saturating_add(1);
            return Err(Failed);
        }
        Ok(())
    }
}

impl<T> Failing<T> {
    ghost use Rattle.n41_mem.specs.Plans.{failing_inner};

    /// The form that it hands on to.
    pub fn inner(&self) -> &T
        ensures { result.now ≡ failing_inner self.now }
    {
        &self.inner
    }
}

impl Failing<SureSource> {
    ghost use Rattle.n41_mem.specs.Plans.{IsPlanned};

    pub fn new(alloc: Global, bytes: &[u8], fails: &[u64]) -> Result<MemSource, NoMemory>
        ensures left { IfOk result (λ s. ⟦<MemSource as Source>⟧.left s ≡ Some bytes.now) }
        ensures faults { IfOk result (λ s. ⟦<MemSource as Source>⟧.faults s ≡ 0) }
        ensures plan { IfOk result (λ f. IsPlanned f fails.now) }
    {
        Ok(Failing {
            inner: SureSource::new(alloc, bytes)?,
            plan: Plan::new(alloc, fails)?,
        })
    }
}

impl Failing<SureSink> {
    ghost use Rattle.n41_mem.specs.Plans.{IsPlanned};

    pub fn new(alloc: Global, fails: &[u64]) -> Result<MemSink, NoMemory>
        ensures taken { IfOk result (λ s. ⟦<MemSink as Sink>⟧.taken s ≡ Some []) }
        ensures faults { IfOk result (λ s. ⟦<MemSink as Sink>⟧.faults s ≡ 0) }
        ensures plan { IfOk result (λ f. IsPlanned f fails.now) }
    {
        Ok(Failing {
            inner: SureSink::new(alloc),
            plan: Plan::new(alloc, fails)?,
        })
    }
}

impl Failing<SureInflow> {
    ghost use Rattle.n41_mem.specs.Plans.{IsPlanned};

    pub fn new(alloc: Global, pieces: &[Bytes], fails: &[u64]) -> Result<MemInflow, NoMemory>
        ensures ahead { IfOk result (λ f. ⟦<MemInflow as Inflow>⟧.ahead f ≡ Some pieces.now) }
        ensures got { IfOk result (λ f. ⟦<MemInflow as Inflow>⟧.got f ≡ Some []) }
        ensures unread { IfOk result (λ f. IsUnread (⟦<MemInflow as Inflow>⟧.got f) (⟦<MemInflow as Inflow>⟧.faults f) (⟦<MemInflow as Inflow>⟧.quiets f) (⟦<MemInflow as Inflow>⟧.ends f)) }
        ensures plan { IfOk result (λ f. IsPlanned f fails.now) }
    {
        Ok(Failing {
            inner: SureInflow::new(alloc, pieces)?,
            plan: Plan::new(alloc, fails)?,
        })
    }
}

impl Failing<SureOutflow> {
    ghost use Rattle.n41_mem.specs.Plans.{IsPlanned};

    pub fn new(alloc: Global, fails: &[u64]) -> Result<MemOutflow, NoMemory>
        ensures put { IfOk result (λ f. ⟦<MemOutflow as Outflow>⟧.put f ≡ Some []) }
        ensures unwritten { IfOk result (λ f. IsUnwritten (⟦<MemOutflow as Outflow>⟧.put f) (⟦<MemOutflow as Outflow>⟧.faults f)) }
        ensures plan { IfOk result (λ f. IsPlanned f fails.now) }
    {
        Ok(Failing {
            inner: SureOutflow::new(alloc),
            plan: Plan::new(alloc, fails)?,
        })
    }
}

impl Failing<Prepared<MemInflow, MemOutflow>> {
    ghost use Rattle.n41_mem.specs.Plans.{IsPlanned, failing_inner};
    ghost use Rattle.n41_mem.specs.Held.{prepared_links};

    pub fn new(
        alloc: Global,
        links: Vec<(MemInflow, MemOutflow)>,
        fails: &[u64],
    ) -> Result<MemDialer, NoMemory>
        requires unread { All (λ link. IsUnread (⟦<MemInflow as Inflow>⟧.got link.0) (⟦<MemInflow as Inflow>⟧.faults link.0) (⟦<MemInflow as Inflow>⟧.quiets link.0) (⟦<MemInflow as Inflow>⟧.ends link.0)) links.items }
        requires unwritten { All (λ link. IsUnwritten (⟦<MemOutflow as Outflow>⟧.put link.1) (⟦<MemOutflow as Outflow>⟧.faults link.1)) links.items }
        ensures links { IfOk result (λ d. prepared_links (failing_inner d) ≡ links.items) }
        ensures faults { IfOk result (λ d. ⟦<MemDialer as Dialer>⟧.faults d ≡ 0) }
        ensures plan { IfOk result (λ d. IsPlanned d fails.now) }
    {
        Ok(Failing {
            inner: Prepared::new(links),
            plan: Plan::new(alloc, fails)?,
        })
    }
}

impl<T: Source> Source for Failing<T> {
    ghost use Rattle.n41_mem.specs.Plans.{Follows, failing_inner, failing_faults};

    ghost left = { λ f. T.left f.inner };

    ghost faults = { λ f. f.plan.faults + T.faults f.inner };

    fn read(&mut self, buf: &mut [u8]) -> Result<usize, Failed>
        ensures bound { FitsIn result buf.new }
        ensures bytes { GivesOut (T.left (failing_inner self.old)) (T.left (failing_inner self.new)) result buf.new }
        ensures cause { Counts (failing_faults self.old + T.faults (failing_inner self.old)) (failing_faults self.new + T.faults (failing_inner self.new)) (is_failed result) }
        ensures plan { Follows self.old self.new (is_failed result) }
    {
        self.plan.begin()?;
        self.inner.read(buf)
    }
}

impl<T: Sink> Sink for Failing<T> {
    ghost use Rattle.n41_mem.specs.Plans.{Follows, failing_inner, failing_faults};

    ghost taken = { λ f. T.taken f.inner };

    ghost faults = { λ f. f.plan.faults + T.faults f.inner };

    fn write(&mut self, piece: &[u8]) -> Result<usize, Failed>
        ensures bound { TakesPrefix result piece.now }
        ensures bytes { TakesIn (T.taken (failing_inner self.old)) (T.taken (failing_inner self.new)) result piece.now }
        ensures cause { Counts (failing_faults self.old + T.faults (failing_inner self.old)) (failing_faults self.new + T.faults (failing_inner self.new)) (is_failed result) }
        ensures plan { Follows self.old self.new (is_failed result) }
    {
        self.plan.begin()?;
        self.inner.write(piece)
    }
}

impl<T: Inflow> Inflow for Failing<T> {
    ghost use Rattle.n41_mem.specs.Plans.{Follows, failing_inner, failing_faults};

    ghost got = { λ f. T.got f.inner };

    ghost ahead = { λ f. T.ahead f.inner };

    ghost faults = { λ f. f.plan.faults + T.faults f.inner };

    ghost quiets = { λ f. T.quiets f.inner };

    ghost ends = { λ f. T.ends f.inner };

    fn read(&mut self, buf: &mut [u8]) -> Result<Came, Failed>
        ensures bound { BringsAtMost result buf.new }
        ensures bytes { Brings (T.got (failing_inner self.old)) (T.got (failing_inner self.new)) result buf.new }
        ensures ahead { ReadsAhead (T.ahead (failing_inner self.old)) (T.ahead (failing_inner self.new)) result buf.new }
        ensures cause { Counts (failing_faults self.old + T.faults (failing_inner self.old)) (failing_faults self.new + T.faults (failing_inner self.new)) (is_failed result) }
        ensures quiet { Counts (T.quiets (failing_inner self.old)) (T.quiets (failing_inner self.new)) (is_quiet result) }
        ensures ended { Counts (T.ends (failing_inner self.old)) (T.ends (failing_inner self.new)) (is_end result) }
        ensures plan { Follows self.old self.new (is_failed result) }
    {
        self.plan.begin()?;
        self.inner.read(buf)
    }
}

impl<T: Outflow> Outflow for Failing<T> {
    ghost use Rattle.n41_mem.specs.Plans.{Follows, failing_inner, failing_faults};

    ghost put = { λ f. T.put f.inner };

    ghost faults = { λ f. f.plan.faults + T.faults f.inner };

    fn write(&mut self, piece: &[u8]) -> Result<usize, Failed>
        ensures bound { TakesPrefix result piece.now }
        ensures bytes { TakesIn (T.put (failing_inner self.old)) (T.put (failing_inner self.new)) result piece.now }
        ensures cause { Counts (failing_faults self.old + T.faults (failing_inner self.old)) (failing_faults self.new + T.faults (failing_inner self.new)) (is_failed result) }
        ensures plan { Follows self.old self.new (is_failed result) }
    {
        self.plan.begin()?;
        self.inner.write(piece)
    }
}

impl<T: Dialer> Dialer for Failing<T> {
    ghost use Rattle.n41_mem.specs.Plans.{Follows, failing_inner, failing_faults};

    type I = T::I;

    type O = T::O;

    ghost faults = { λ f. f.plan.faults + T.faults f.inner };

    fn dial(&mut self, addr: &str) -> Result<(T::I, T::O), Failed>
        ensures cause { Counts (failing_faults self.old + T.faults (failing_inner self.old)) (failing_faults self.new + T.faults (failing_inner self.new)) (is_failed result) }
        ensures unread { IfOk result (λ link. IsUnread (T.I.got link.0) (T.I.faults link.0) (T.I.quiets link.0) (T.I.ends link.0)) }
        ensures unwritten { IfOk result (λ link. IsUnwritten (T.O.put link.1) (T.O.faults link.1)) }
        ensures plan { Follows self.old self.new (is_failed result) }
    {
        self.plan.begin()?;
        self.inner.dial(addr)
    }
}

impl<T: Listener> Listener for Failing<T> {
    ghost use Rattle.n41_mem.specs.Plans.{Follows, failing_inner, failing_faults};

    type I = T::I;

    type O = T::O;

    ghost faults = { λ f. f.plan.faults + T.faults f.inner };

    fn accept(&mut self, addr: &str) -> Result<(T::I, T::O), Failed>
        ensures cause { Counts (failing_faults self.old + T.faults (failing_inner self.old)) (failing_faults self.new + T.faults (failing_inner self.new)) (is_failed result) }
        ensures unread { IfOk result (λ link. IsUnread (T.I.got link.0) (T.I.faults link.0) (T.I.quiets link.0) (T.I.ends link.0)) }
        ensures unwritten { IfOk result (λ link. IsUnwritten (T.O.put link.1) (T.O.faults link.1)) }
        ensures plan { Follows self.old self.new (is_failed result) }
    {
        self.plan.begin()?;
        self.inner.accept(addr)
    }
}
