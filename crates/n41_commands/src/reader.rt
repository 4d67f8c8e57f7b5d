// The words of a line, read from left to right.
ghost use Rattle.std.specs.Prelude.{◌≡◌, IfOk, MatchResult};
ghost use Rattle.n41_types.specs.Spans.{IsLength};
ghost use Rattle.n41_words.specs.Lines.{words};
ghost use Rattle.n41_commands.specs.Commands.{label, mode_of, kind_of, offset, count, seconds, extent, payload};
ghost use Rattle.n41_commands.specs.Paths.{path, target};
ghost use Rattle.n41_commands.specs.Cursors.{Took, Lacks, Reads, Spans, Ends};

use crate::callers::label;
use crate::ends::end_fault;
use crate::forms::{count, length, lock_kind, mode_of, offset, payload, seconds};
use crate::paths::{path, target};
use n41_types::{Bytes, Label, LockKind, Mode, Path, Span};
use n41_words::{LineFault, LineKind, has_control, missing, next_word};
use std::alloc::Global;
use std::marker::Model;

/// The words that are left of a line.
#[derive(Drop)]
pub(crate) struct Reader<'a> {
    rest: &'a [u8],
    /// Whether the line has more bytes than a line may have, behind these.
    long: bool,
}

impl<'a> Model for Reader<'a> {
    ghost use Rattle.n41_words.specs.Lines.{words};
    ghost use Rattle.n41_commands.specs.Cursors.{Left};

    ghost Value = { Left };

    ghost view = { λ r. record { long = r.long; words = words r.rest.now } };
}

impl<'a> Reader<'a> {
    pub(crate) fn new(long: bool, rest: &'a [u8]) -> Reader<'a>
        ensures { result ≡ record { long = long; words = words rest.now } }
    {
        Reader { rest, long }
    }

    /// The next word.
    fn word(&mut self) -> Result<&'a [u8], LineFault>
        ensures { MatchResult result (λ word. Took word.now self.old self.new) (λ fault. Lacks fault self.old) }
    {
        let Some((word, rest)) = next_word(self.rest) else {
            return Err(LineFault::Kind(missing(self.long, LineKind::Words)));
        };
        if has_control(word) {
            return Err(LineFault::Kind(LineKind::Byte));
        }
        self.rest = rest;
        Ok(word)
    }

    pub(crate) fn label(&mut self, alloc: Global) -> Result<Label, LineFault>
        ensures { Reads result self.old self.new label }
    {
        let word = self.word()?;
        label(alloc, word)
    }

    pub(crate) fn path(&mut self, alloc: Global) -> Result<Path, LineFault>
        ensures { Reads result self.old self.new path }
    {
        let word = self.word()?;
        path(alloc, word)
    }

    pub(crate) fn target(&mut self, alloc: Global) -> Result<Path, LineFault>
        ensures { Reads result self.old self.new target }
    {
        let word = self.word()?;
        target(alloc, word)
    }

    pub(crate) fn payload(&mut self, alloc: Global) -> Result<Bytes, LineFault>
        ensures { Reads result self.old self.new payload }
    {
        let word = self.word()?;
        payload(alloc, word)
    }

    pub(crate) fn mode(&mut self) -> Result<Mode, LineFault>
        ensures { Reads result self.old self.new mode_of }
    {
        let word = self.word()?;
        mode_of(word)
    }

    pub(crate) fn lock_kind(&mut self) -> Result<LockKind, LineFault>
        ensures { Reads result self.old self.new kind_of }
    {
        let word = self.word()?;
        lock_kind(word)
    }

    pub(crate) fn offset(&mut self) -> Result<u64, LineFault>
        ensures { Reads result self.old self.new offset }
    {
        let word = self.word()?;
        offset(word)
    }

    pub(crate) fn count(&mut self) -> Result<u32, LineFault>
        ensures { Reads result self.old self.new count }
    {
        let word = self.word()?;
        count(word)
    }

    pub(crate) fn seconds(&mut self) -> Result<u32, LineFault>
        ensures { Reads result self.old self.new seconds }
    {
        let word = self.word()?;
        seconds(word)
    }

    fn length(&mut self) -> Result<Option<u64>, LineFault>
        ensures reads { Reads result self.old self.new extent }
        ensures within { IfOk result (λ len. IsLength len) }
    {
        let word = self.word()?;
        length(word)
    }

    /// An offset and a length.
    pub(crate) fn span(&mut self) -> Result<Span, LineFault>
        ensures { Spans result self.old self.new }
    {
        let from = self.offset()?;
        let len = self.length()?;
        Ok(Span { from, len })
    }

    /// Whether the words end here.
    pub(crate) fn end(&self) -> Result<(), LineFault>
        ensures { Ends result self.now }
    {
        match end_fault(self.long, self.rest) {
            Some(kind) => Err(LineFault::Kind(kind)),
            None => Ok(()),
        }
    }
}
