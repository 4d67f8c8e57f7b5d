// The line that a probe prints.
ghost use Rattle.std.specs.Prelude.{◌≡◌, IfOk, string_bytes};
ghost use Rattle.n41_probe.specs.Probes.{line, hex_or_dash, confirmed};

use n41_results::Identity;
use n41_types::{Bytes, NoMemory};
use std::alloc::Global;

fn hex_or_dash_of(alloc: Global, bytes: &Bytes) -> Result<String, NoMemory>
    ensures { IfOk result (λ text. string_bytes text ≡ hex_or_dash bytes.now) }
{
    match bytes.as_slice() {
        [] => String::from_str(alloc, "-"),
        some => hex::encode(alloc, some),
    }
}

/// Whether the client id was confirmed before, by the flags.
fn yes_or_no(flags: u32) -> &'static str
    ensures { result.now ≡ confirmed flags }
{
    if flags >= 1 << 31 { "yes" } else { "no" }
}

/// The line of an identity, with its end.
#[tactic(auto, unfolding(crate::specs::Probes::line))]
pub(crate) fn line_of(alloc: Global, identity: &Identity) -> Result<String, NoMemory>
    ensures { IfOk result (λ text. string_bytes text ≡ line identity.now) }
{
    let client = identity.client;
    let sequence = identity.sequence;
    let confirmed = yes_or_no(identity.flags);
    let server = hex_or_dash_of(alloc, &identity.major)?;
    let scope = hex_or_dash_of(alloc, &identity.scope)?;
    let text = format!(in alloc;
        "client {client}, sequence {sequence}, confirmed {confirmed}, server {server}, scope {scope}\n"
    )?;
    Ok(text)
}
