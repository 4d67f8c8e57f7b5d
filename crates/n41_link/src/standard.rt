// Standard input and output, or any reader and writer of the library. They tell no bytes.
ghost use Rattle.std.specs.Prelude.{◌≡◌, None};

use crate::stream::{Failed, Sink, Source};
use std::io::{Read, Write};

/// A reader of the library, as standard input.
#[derive(Drop)]
pub struct Input<R> {
    inner: R,
    faults: u64,
}

impl<R: Read> Input<R> {
    pub fn new(inner: R) -> Input<R>
        ensures { ⟦<Input<R> as Source>⟧.faults result ≡ 0 }
    {
        Input { inner, faults: 0 }
    }
}

impl<R: Read> Source for Input<R> {
    ghost left = { λ _. None };

    ghost faults = { λ s. s.faults };

    fn read(&mut self, buf: &mut [u8]) -> Result<usize, Failed> {
        match self.inner.read(buf) {
            Ok(n) => Ok(n),
            Err(_) => {
                self.faults = self.faults.saturating_add(1);
                Err(Failed)
            }
        }
    }
}

/// A writer of the library, as standard output.
#[derive(Drop)]
pub struct Output<W> {
    inner: W,
    faults: u64,
}

impl<W: Write> Output<W> {
    pub fn new(inner: W) -> Output<W>
        ensures { ⟦<Output<W> as Sink>⟧.faults result ≡ 0 }
    {
        Output { inner, faults: 0 }
    }
}

impl<W: Write> Sink for Output<W> {
    ghost taken = { λ _. None };

    ghost faults = { λ s. s.faults };

    fn write(&mut self, piece: &[u8]) -> Result<usize, Failed> {
        match self.inner.write(piece) {
            Ok(n) if n > 0 || piece.is_empty() => Ok(n),
            _ => {
                self.faults = self.faults.saturating_add(1);
                Err(Failed)
            }
        }
    }
}
