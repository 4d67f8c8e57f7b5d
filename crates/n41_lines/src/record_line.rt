// The line of a record.
ghost use Rattle.std.specs.Prelude.{◌≡◌, ◌++◌, IfOk, OnOk, string_bytes};
ghost use Rattle.n41_lines.specs.Lines.{message, line};

use crate::client::put_of_client;
use crate::server::put_of_server;
use crate::side::Side;
use n41_types::NoMemory;
use std::alloc::Global;

fn put_message(alloc: Global, text: &mut String, side: Side, bytes: &[u8]) -> Result<(), NoMemory>
    ensures { OnOk result (string_bytes text.new ≡ string_bytes text.old ++ message side bytes.now) }
{
    match side {
        Side::Client => put_of_client(alloc, text, bytes),
        Side::Server => put_of_server(alloc, text, bytes),
    }
}

/// The line of a record, with its end: the record's number, and what message this side wrote (own). A record that is no message of this side, or whose
/// arguments have no form, is `bad` and its bytes in hexadecimal.
#[tactic(auto, unfolding(crate::specs::Lines::line))]
pub fn line(alloc: Global, side: Side, number: u64, bytes: &[u8]) -> Result<String, NoMemory>
    ensures { IfOk result (λ text. string_bytes text ≡ line side number bytes.now) }
{
    let mut text = format!(in alloc; "{number} ")?;
    put_message(alloc, &mut text, side, bytes)?;
    text.push('\n')?;
    Ok(text)
}
