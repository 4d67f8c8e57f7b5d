//! The head of a call and its slot.

ghost use Rattle.std.specs.Prelude.{◌≡◌, ◌<◌, ◌^◌, ℕ, Some, IfSome};
ghost use Rattle.n41_xdr.specs.Format.{made};
ghost use Rattle.n41_xdr.specs.Lawful.{IsBytes};
ghost use Rattle.n41_seen.specs.Steps.{GivesPart};
ghost use Rattle.n41_compound.specs.Heads.{behind_slot, ids, ids_in, is_machine, is_whole, slot_in, told_ids, IsCallBy};

use n41_args::Arg;
use n41_seen::{CallSeen, SeenTail};
use n41_types::SlotUse;
use n41_xdr::{Reader, XdrFault};

/// The body of AUTH_SYS up to how many further gids there are (RFC 5531, appendix A).
#[derive(Clone, Copy)]
pub struct Ids {
    stamp: u32,
    /// Whether the machine name is that of this client.
    is_ours: bool,
    uid: u32,
    gid: u32,
    count: u32,
}

/// Whether this is the machine name `n41`.
fn is_machine(name: &[u8]) -> bool
    ensures { result ≡ is_machine name.now }
{
    match name {
        [first, second, third] => *first == b'n' && *second == b'4' && *third == b'1',
        _ => false,
    }
}

#[tactic(auto, unfolding(crate::specs::Heads::ids))]
fn read_ids(r: &mut Reader) -> Result<Ids, XdrFault>
    ensures { GivesPart (λ x. x) result r.new (made told_ids ids r.old) }
{
    let stamp = r.u32()?;
    let machine = r.opaque(255)?;
    let uid = r.u32()?;
    let gid = r.u32()?;
    let count = r.u32()?;
    Ok(Ids {
        stamp,
        is_ours: is_machine(machine),
        uid,
        gid,
        count,
    })
}

/// The uid and the gid of the body of AUTH_SYS, where this client writes it so.
fn ids_in(body: &[u8]) -> Option<(u32, u32)>
    ensures ids { result ≡ ids_in (made told_ids ids body.now) }
    ensures bytes { IsBytes body.now }
{
    let mut r = Reader::new(body);
    match read_ids(&mut r) {
        Ok(told) => {
            if told.stamp == 0 && told.is_ours && told.count == 0 && r.len() == 0 {
                Some((told.uid, told.gid))
            } else {
                None
            }
        }
        Err(_) => None,
    }
}

/// Whether all but the ids is that of a whole COMPOUND of this client.
fn is_whole(call: &CallSeen) -> bool
    ensures { result ≡ is_whole call.now }
{
    call.prog == 100_003
        && call.vers == 4
        && call.procedure == 1
        && call.cred.flavor == 1
        && matches!(call.tail, SeenTail::Whole)
}

/// The uid and the gid that a whole COMPOUND of this client is by.
pub(crate) fn caller_of(call: &CallSeen) -> Option<(u32, u32)>
    ensures found { IfSome result (λ who. IsCallBy call.now who.0 who.1) }
    ensures only { (uid gid : ℕ) → uid < 2 ^ 32 → gid < 2 ^ 32 → IsCallBy call.now uid gid → result ≡ Some (uid, gid) }
{
    if !is_whole(call) {
        return None;
    }
    ids_in(call.cred.body.as_slice())
}

/// The slot that the operations take.
pub(crate) fn slot_in(args: &[Arg]) -> Option<SlotUse>
    ensures { result ≡ slot_in args.now }
{
    match args {
        [Arg::Sequence(slot), ..] => Some(*slot),
        _ => None,
    }
}

/// The operations behind their slot.
pub(crate) fn behind_slot(args: &[Arg]) -> &[Arg]
    ensures { result.now ≡ behind_slot args.now }
{
    match args {
        [Arg::Sequence(_), rest @ ..] => rest,
        _ => args,
    }
}
