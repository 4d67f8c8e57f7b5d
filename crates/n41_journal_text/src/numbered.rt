// A word and the numbers behind it. Each call adds them at the end of a text.
ghost use Rattle.std.specs.Prelude.{◌≡◌, ◌++◌, codes, OnOk};
ghost use Rattle.std.specs.Fmt.{decimal};
ghost use Rattle.n41_written.specs.Written.{◌·◌};

use n41_report::{put, put_decimal};
use n41_types::NoMemory;
use std::alloc::Global;

/// Adds a word and a number.
pub(crate) fn put_numbered(
    alloc: Global,
    out: &mut Vec<u8>,
    word: &str,
    number: u64,
) -> Result<(), NoMemory>
    ensures { OnOk result (out.new.items ≡ out.old.items ++ (word.now · decimal number)) }
{
    put(out, word)?;
    put(out, " ")?;
    put_decimal(alloc, out, number)
}

/// Adds a word and two numbers, and the space behind them.
pub(crate) fn put_pair(
    alloc: Global,
    out: &mut Vec<u8>,
    word: &str,
    first: u64,
    second: u64,
) -> Result<(), NoMemory>
    ensures { OnOk result (out.new.items ≡ out.old.items ++ (word.now · (decimal first · (decimal second ++ codes " ")))) }
{
    put_numbered(alloc, out, word, first)?;
    put(out, " ")?;
    put_decimal(alloc, out, second)?;
    put(out, " ")
}
