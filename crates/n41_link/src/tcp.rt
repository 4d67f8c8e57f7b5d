// TCP connections. They tell no bytes.
ghost use Rattle.std.specs.Prelude.{◌≡◌, None, IfSome};

use crate::connection::{Came, Dialer, Inflow, Listener, Outflow};
use crate::stream::Failed;
use std::io::{ErrorKind, Read, Write};
use std::net::{Net, TcpListener, TcpStream};
use std::thread;
use std::time::{Clock as SystemClock, Duration};

/// What a TCP connection brings. A read waits for a second at most, and then it was quiet.
#[derive(Drop)]
pub struct TcpInflow {
    stream: TcpStream,
    faults: u64,
    quiets: u64,
    ends: u64,
}

impl Inflow for TcpInflow {
    ghost got = { λ _. None };

    ghost ahead = { λ _. None };

    ghost faults = { λ f. f.faults };

    ghost quiets = { λ f. f.quiets };

    ghost ends = { λ f. f.ends };

    fn read(&mut self, buf: &mut [u8]) -> Result<Came, Failed> {
        match self.stream.read(buf) {
            Ok(n) if n > 0 || buf.is_empty() => Ok(Came::Bytes(n)),
            Ok(_) => {
                self.ends = self.ends.saturating_add(1);
                Ok(Came::End)
            }
            Err(e) if matches!(e.kind(), ErrorKind::WouldBlock | ErrorKind::TimedOut) => {
                self.quiets = self.quiets.saturating_add(1);
                Ok(Came::Quiet)
            }
            Err(_) => {
                self.faults = self.faults.saturating_add(1);
                Err(Failed)
            }
        }
    }
}

/// What a TCP connection takes.
#[derive(Drop)]
pub struct TcpOutflow {
    stream: TcpStream,
    faults: u64,
}

impl Outflow for TcpOutflow {
    ghost put = { λ _. None };

    ghost faults = { λ f. f.faults };

    fn write(&mut self, piece: &[u8]) -> Result<usize, Failed> {
        match self.stream.write(piece) {
            Ok(n) if n > 0 || piece.is_empty() => Ok(n),
            _ => {
                self.faults = self.faults.saturating_add(1);
                Err(Failed)
            }
        }
    }
}

// The two directions of a stream. What is written goes out at once, and a read waits for a second at most.
fn directions_of(stream: TcpStream) -> Option<(TcpInflow, TcpOutflow)>
    ensures read { IfSome result (λ link. (link.0.faults ≡ 0) × (link.0.quiets ≡ 0) × (link.0.ends ≡ 0)) }
    ensures write { IfSome result (λ link. link.1.faults ≡ 0) }
{
    stream.set_nodelay(true).ok()?;
    stream.set_read_timeout(Some(Duration::from_secs(1))).ok()?;
    let second = stream.try_clone().ok()?;
    let inflow = TcpInflow {
        stream,
        faults: 0,
        quiets: 0,
        ends: 0,
    };
    let outflow = TcpOutflow {
        stream: second,
        faults: 0,
    };
    Some((inflow, outflow))
}

/// Dials by TCP. It waits for a second before a dial that follows a failed one.
#[derive(Drop)]
pub struct TcpDialer<R> {
    rt: R,
    failed: bool,
    faults: u64,
}

impl<R: Net<Stream = TcpStream> + SystemClock> TcpDialer<R> {
    pub fn new(rt: R) -> TcpDialer<R>
        ensures { ⟦<TcpDialer<R> as Dialer>⟧.faults result ≡ 0 }
    {
        TcpDialer {
            rt,
            failed: false,
            faults: 0,
        }
    }
}

impl<R: Net<Stream = TcpStream> + SystemClock> Dialer for TcpDialer<R> {
    type I = TcpInflow;

    type O = TcpOutflow;

    ghost faults = { λ d. d.faults };

    fn dial(&mut self, addr: &str) -> Result<(TcpInflow, TcpOutflow), Failed> {
        if self.failed {
            thread::sleep(&self.rt, Duration::from_secs(1));
        }
        let dialed = TcpStream::connect(&self.rt, addr).ok();
        match dialed.and_then(directions_of) {
            Some(link) => {
                self.failed = false;
                Ok(link)
            }
            None => {
                self.failed = true;
                self.faults = self.faults.saturating_add(1);
                Err(Failed)
            }
        }
    }
}

/// Takes TCP connections, at the address for which it was asked first.
#[derive(Drop)]
pub struct TcpHouse<R> {
    rt: R,
    listener: Option<TcpListener>,
    faults: u64,
}

impl<R: Net<Listener = TcpListener, Stream = TcpStream>> TcpHouse<R> {
    pub fn new(rt: R) -> TcpHouse<R>
        ensures { ⟦<TcpHouse<R> as Listener>⟧.faults result ≡ 0 }
    {
        TcpHouse {
            rt,
            listener: None,
            faults: 0,
        }
    }
}

// The next connection of a listener, which is made where there is none.
fn accepted<R: Net<Listener = TcpListener, Stream = TcpStream>>(
    rt: &R,
    kept: &mut Option<TcpListener>,
    addr: &str,
) -> Option<(TcpInflow, TcpOutflow)>
    ensures read { IfSome result (λ link. (link.0.faults ≡ 0) × (link.0.quiets ≡ 0) × (link.0.ends ≡ 0)) }
    ensures write { IfSome result (λ link. link.1.faults ≡ 0) }
{
    let listener = match kept.take() {
        Some(listener) => listener,
        None => TcpListener::bind(rt, addr).ok()?,
    };
    let taken = listener.accept();
    *kept = Some(listener);
    let (stream, _) = taken.ok()?;
    directions_of(stream)
}

impl<R: Net<Listener = TcpListener, Stream = TcpStream>> Listener for TcpHouse<R> {
    type I = TcpInflow;

    type O = TcpOutflow;

    ghost faults = { λ d. d.faults };

    fn accept(&mut self, addr: &str) -> Result<(TcpInflow, TcpOutflow), Failed> {
        match accepted(&self.rt, &mut self.listener, addr) {
            Some(link) => Ok(link),
            None => {
                self.faults = self.faults.saturating_add(1);
                Err(Failed)
            }
        }
    }
}

#[cfg(test)]
mod tests;
