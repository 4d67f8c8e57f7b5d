// One EXCHANGE_ID over one connection.
ghost use Rattle.std.specs.Prelude.{◌≡◌, ◌<◌, ◌++◌, ◌∷◌, true, [], ℕ, List, IsTrue, take, None, Err, ◌⊎◌, IfOk, IfSome, IfNone, OnOk, IsErrOf, IsSomeAnd, string_bytes};
ghost use Rattle.std.specs.Io.KnownBytes.{append_known};
ghost use Rattle.n41_record.specs.Fragments.{fragment};
ghost use Rattle.n41_record.specs.Streams.{BeginsWith};
ghost use Rattle.n41_link.specs.Counts.{Rose};
ghost use Rattle.n41_link.specs.Ends.{ear_log, ear_given, ear_inflow, ear_fault, ear_still, mouth_log, mouth_outflow, mouth_fault};
ghost use Rattle.n41_link.specs.Flow.{KnownAs};
ghost use Rattle.n41_link.specs.Moments.{StandsAt};
ghost use Rattle.n41_results.specs.declared.sessions.Identity.{Identity};
ghost use Rattle.n41_probe.specs.Probes.{request, line, is_silent, IsReply, HearsNone, BeginsToAsk, IsProbed, IsPartlyProbed, IsCut};

use crate::call::call_of;
use crate::line::line_of;
use crate::reply::{identity_of, read};
use crate::{ProbeFault, Talk};
use n41_link::{Clock, Dialer, Ear, EarFault, EarGot, Inflow, Mouth, Outflow, SayFault, Sink};
use n41_streams::put_all;
use n41_types::Bytes;
use std::alloc::Global;

/// The turns without a byte after which a peer is given up. One is a second over TCP.
const PATIENCE: u64 = 60;

/// Says the request.
fn ask<O: Outflow>(alloc: Global, moment: u64, mouth: &mut Mouth<O>) -> Result<(), ProbeFault>
    requires log { mouth_log mouth.old ≡ [] }
    requires fault { mouth_fault mouth.old ≡ None }
    ensures said { OnOk result (mouth_log mouth.new ≡ fragment true (request moment)) }
    ensures begun { BeginsToAsk moment (mouth_log mouth.new) }
    ensures cut { IsErrOf result ProbeFault.Unreachable → 0 < O.faults (mouth_outflow mouth.new) }
    ensures wrong { IsErrOf result ProbeFault.Breach → ⊥ }
    ensures write { IsErrOf result ProbeFault.WriteFault → ⊥ }
{
    let Ok(call) = call_of(alloc, moment) else {
        return Err(ProbeFault::NoMemory);
    };
    match mouth.say(call.as_slice()) {
        Ok(()) => Ok(()),
        Err(SayFault::Failed) => Err(ProbeFault::Unreachable),
        Err(SayFault::NoMemory) => Err(ProbeFault::NoMemory),
    }
}

/// The first record that comes.
fn first_record<I: Inflow>(ear: &mut Ear<I>) -> Result<Bytes, ProbeFault>
    requires given { ear_given ear.old ≡ [] }
    requires fault { ear_fault ear.old ≡ None }
    ensures ok { IfOk result (λ body. (rest : List ℕ) × BeginsWith (ear_log ear.new) (body ∷ []) rest) }
    ensures cut { IsErrOf result ProbeFault.Unreachable → (ear_given ear.new ≡ []) × IsCut (I.faults (ear_inflow ear.new)) (I.ends (ear_inflow ear.new)) (ear_log ear.new) (ear_still ear.new) }
    ensures wrong { IsErrOf result ProbeFault.Breach → ⊥ }
    ensures write { IsErrOf result ProbeFault.WriteFault → ⊥ }
{
    while ear.still() < PATIENCE {
        match ear.whole() {
            Ok(EarGot::Whole(body)) => return Ok(body),
            Ok(EarGot::Quiet) => {}
            Ok(EarGot::End) => return Err(ProbeFault::Unreachable),
            Err(EarFault::NoMemory) => return Err(ProbeFault::NoMemory),
            Err(EarFault::Failed) => return Err(ProbeFault::Unreachable),
            Err(EarFault::Gather(_)) => return Err(ProbeFault::Unreachable),
        }
    }
    Err(ProbeFault::Unreachable)
}

/// The line of the reply that the bytes are.
fn text_of(alloc: Global, body: &[u8]) -> Result<String, ProbeFault>
    ensures ok { IfOk result (λ text. (x : Identity) × IsReply x body.now × (string_bytes text ≡ line x)) }
    ensures wrong { IsErrOf result ProbeFault.Breach → (x : Identity) → IsReply x body.now → ⊥ }
    ensures write { IsErrOf result ProbeFault.WriteFault → ⊥ }
    ensures cut { IsErrOf result ProbeFault.Unreachable → ⊥ }
{
    let reply = read(alloc, body)?;
    let Some(identity) = identity_of(&reply) else {
        return Err(ProbeFault::Breach);
    };
    match line_of(alloc, identity) {
        Ok(text) => Ok(text),
        Err(_) => Err(ProbeFault::NoMemory),
    }
}

/// Reads a reply and prints its line.
fn print_reply<K: Sink>(alloc: Global, sink: &mut K, body: &[u8]) -> Result<(), ProbeFault>
    ensures printed { OnOk result ((x : Identity) × IsReply x body.now × (K.taken sink.new ≡ append_known (K.taken sink.old) (line x))) }
    ensures wrong { IsErrOf result ProbeFault.Breach → (x : Identity) → IsReply x body.now → ⊥ }
    ensures write { IsErrOf result ProbeFault.WriteFault → Rose (K.faults sink.old) (K.faults sink.new) }
    ensures part { IsErrOf result ProbeFault.WriteFault → (x : Identity) × IsReply x body.now × ((n : ℕ) × (K.taken sink.new ≡ append_known (K.taken sink.old) (take n (line x)))) }
    ensures silent { IsTrue (is_silent result) → K.taken sink.new ≡ K.taken sink.old }
    ensures cut { IsErrOf result ProbeFault.Unreachable → ⊥ }
{
    let text = text_of(alloc, body)?;
    match put_all(sink, text.as_bytes()) {
        Ok(()) => Ok(()),
        Err(_) => Err(ProbeFault::WriteFault),
    }
}

/// Says the request, hears one record and prints its line.
fn exchange<K: Sink, I: Inflow, O: Outflow>(
    alloc: Global,
    moment: u64,
    sink: &mut K,
    ear: &mut Ear<I>,
    mouth: &mut Mouth<O>,
) -> Result<(), ProbeFault>
    requires given { ear_given ear.old ≡ [] }
    requires ear_fault { ear_fault ear.old ≡ None }
    requires log { mouth_log mouth.old ≡ [] }
    requires mouth_fault { mouth_fault mouth.old ≡ None }
    ensures done { OnOk result (IsProbed moment (K.taken sink.old) (K.taken sink.new) (ear_log ear.new) (mouth_log mouth.new)) }
    ensures asks { BeginsToAsk moment (mouth_log mouth.new) }
    ensures cut { IsErrOf result ProbeFault.Unreachable → (ear_given ear.new ≡ []) × ((0 < O.faults (mouth_outflow mouth.new)) ⊎ IsCut (I.faults (ear_inflow ear.new)) (I.ends (ear_inflow ear.new)) (ear_log ear.new) (ear_still ear.new)) }
    ensures asked { IsErrOf result ProbeFault.Breach → mouth_log mouth.new ≡ fragment true (request moment) }
    ensures wrong { IsErrOf result ProbeFault.Breach → HearsNone (ear_log ear.new) }
    ensures write { IsErrOf result ProbeFault.WriteFault → Rose (K.faults sink.old) (K.faults sink.new) }
    ensures part { IsErrOf result ProbeFault.WriteFault → IsPartlyProbed moment (K.taken sink.old) (K.taken sink.new) (ear_log ear.new) (mouth_log mouth.new) }
    ensures silent { IsTrue (is_silent result) → K.taken sink.new ≡ K.taken sink.old }
{
    ask(alloc, moment, mouth)?;
    let body = first_record(ear)?;
    print_reply(alloc, sink, body.as_slice())
}

/// Asks the server at an address for a client id by one EXCHANGE_ID over one connection, and prints what it answers.
///
/// It is Ok where the reply was printed. Beside that it answers the two ends of the connection, where there was one.
pub fn probe<K: Sink, D: Dialer, C: Clock>(
    alloc: Global,
    addr: &str,
    sink: &mut K,
    dialer: &mut D,
    clock: &mut C,
) -> (Result<(), ProbeFault>, Option<Talk<D::I, D::O>>)
    // What was written is the one request, with the moment that the clock gave.
    ensures gave { IsTrue (C.given clock.new (C.last clock.new)) }
    ensures stands { StandsAt (C.ahead clock.old) (C.last clock.old) (C.last clock.new) }
    ensures asks { IfSome result.1 (λ talk. BeginsToAsk (C.last clock.new) (mouth_log talk.mouth)) }
    ensures told { IfSome result.1 (λ talk. KnownAs (D.I.got (ear_inflow talk.ear)) (ear_log talk.ear) × KnownAs (D.O.put (mouth_outflow talk.mouth)) (mouth_log talk.mouth)) }

    ensures done { OnOk result.0 (IsSomeAnd result.1 (λ talk. IsProbed (C.last clock.new) (K.taken sink.old) (K.taken sink.new) (ear_log talk.ear) (mouth_log talk.mouth))) }
    ensures write { IsErrOf result.0 ProbeFault.WriteFault → Rose (K.faults sink.old) (K.faults sink.new) }
    ensures part { IsErrOf result.0 ProbeFault.WriteFault → IsSomeAnd result.1 (λ talk. IsPartlyProbed (C.last clock.new) (K.taken sink.old) (K.taken sink.new) (ear_log talk.ear) (mouth_log talk.mouth)) }

    // Unreachable: there is no connection, or one that brought no record.
    ensures linked { IfNone result.1 (IsErrOf result.0 ProbeFault.Unreachable) }
    ensures unreachable { IfNone result.1 (Rose (D.faults dialer.old) (D.faults dialer.new)) }
    ensures cut { IsErrOf result.0 ProbeFault.Unreachable → IfSome result.1 (λ talk. (ear_given talk.ear ≡ []) × ((0 < D.O.faults (mouth_outflow talk.mouth)) ⊎ IsCut (D.I.faults (ear_inflow talk.ear)) (D.I.ends (ear_inflow talk.ear)) (ear_log talk.ear) (ear_still talk.ear))) }

    // Breach: the request was written, and the first record is no such reply.
    ensures asked { IsErrOf result.0 ProbeFault.Breach → IsSomeAnd result.1 (λ talk. mouth_log talk.mouth ≡ fragment true (request (C.last clock.new))) }
    ensures wrong { IsErrOf result.0 ProbeFault.Breach → IsSomeAnd result.1 (λ talk. HearsNone (ear_log talk.ear)) }

    ensures silent { IsTrue (is_silent result.0) → K.taken sink.new ≡ K.taken sink.old }
{
    let moment = clock.now();
    let Ok((inflow, outflow)) = dialer.dial(addr) else {
        return (Err(ProbeFault::Unreachable), None);
    };
    let mut talk = Talk {
        ear: Ear::new(alloc, inflow),
        mouth: Mouth::new(alloc, outflow),
    };
    let outcome = exchange(alloc, moment, sink, &mut talk.ear, &mut talk.mouth);
    (outcome, Some(talk))
}
