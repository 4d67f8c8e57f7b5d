// The words of a line, read from left to right.
ghost use Rattle.std.specs.Prelude.{◌≡◌, ℕ};
ghost use Rattle.n41_words.specs.Lines.{words};
ghost use Rattle.n41_words.specs.Numbers.{number};
ghost use Rattle.n41_words.specs.Faults.{Gives};
ghost use Rattle.n41_journal_words.specs.Reading.{word_at, form_at, fixed, end_at, alone, last_at, Reads};
ghost use Rattle.n41_journal_words.specs.Answers.{number32, number64, more_at};

use n41_words::{LineFault, LineKind, has_control, is_word, next_word, number};
use std::marker::Model;

/// The words that are left of a line. Its value is the list of them.
#[derive(Drop)]
pub struct Words<'a> {
    rest: &'a [u8],
}

impl<'a> Model for Words<'a> {
    ghost use Rattle.std.specs.Prelude.{List, ℕ};
    ghost use Rattle.n41_words.specs.Lines.{words};

    ghost Value = { List (List ℕ) };

    ghost view = { λ w. words w.rest.now };
}

impl<'a> Words<'a> {
    /// The words of a line.
    pub fn new(line: &'a [u8]) -> Words<'a>
        ensures { result ≡ words line.now }
    {
        Words { rest: line }
    }

    /// The text of the words that are left.
    pub fn rest(&self) -> &'a [u8]
        ensures { words result.now ≡ self.now }
    {
        self.rest
    }

    /// The next word.
    pub fn word(&mut self) -> Result<&'a [u8], LineFault>
        ensures { Reads (λ word. word.now) result self.new (word_at self.old) }
    {
        let Some((word, rest)) = next_word(self.rest) else {
            return Err(LineFault::Kind(LineKind::Words));
        };
        if has_control(word) {
            return Err(LineFault::Kind(LineKind::Byte));
        }
        self.rest = rest;
        Ok(word)
    }

    /// A number of at most 64 bits, in decimal.
    pub fn number64(&mut self) -> Result<u64, LineFault>
        ensures { Reads (λ n. n) result self.new (form_at number64 self.old) }
    {
        let word = self.word()?;
        Ok(number(word, u64::MAX)?)
    }

    /// A number of at most 32 bits, in decimal.
    pub fn number32(&mut self) -> Result<u32, LineFault>
        ensures { Reads (λ n. n) result self.new (form_at number32 self.old) }
    {
        let word = self.word()?;
        Ok(number(word, u64::from(u32::MAX))? as u32)
    }

    /// A word that says nothing else.
    pub fn fixed(&mut self, text: &[u8]) -> Result<(), LineFault>
        ensures { Reads (λ u. u) result self.new (form_at (fixed text.now) self.old) }
    {
        let word = self.word()?;
        if is_word(word, text) {
            Ok(())
        } else {
            Err(LineFault::Kind(LineKind::Command))
        }
    }

    /// Whether the next word says that there are more names than are told. Then it is taken.
    pub(crate) fn more(&mut self) -> bool
        ensures told { result ≡ (more_at self.old).0 }
        ensures left { self.new ≡ (more_at self.old).1 }
    {
        match next_word(self.rest) {
            Some((word, rest)) if is_word(word, b"more") => {
                self.rest = rest;
                true
            }
            _ => false,
        }
    }

    /// Whether the words end here.
    pub fn end(&self) -> Result<(), LineFault>
        ensures { Gives result (end_at self.now) }
    {
        match next_word(self.rest) {
            Some((word, _)) => Err(LineFault::Kind(if has_control(word) {
                LineKind::Byte
            } else {
                LineKind::Words
            })),
            None => Ok(()),
        }
    }

    /// This value, where the words end here.
    pub fn end_with<T: Drop>(&self, value: T) -> Result<T, LineFault>
        ensures { Gives result (alone value self.now) }
    {
        self.end()?;
        Ok(value)
    }

    /// The number of at most 64 bits that is the last word.
    pub fn last_number64(&mut self) -> Result<u64, LineFault>
        ensures { Gives result (last_at number64 self.old) }
    {
        let number = self.number64()?;
        self.end_with(number)
    }

    /// The number of at most 32 bits that is the last word.
    pub fn last_number32(&mut self) -> Result<u32, LineFault>
        ensures { Gives result (last_at number32 self.old) }
    {
        let number = self.number32()?;
        self.end_with(number)
    }
}
