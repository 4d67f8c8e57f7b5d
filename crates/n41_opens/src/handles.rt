ghost use Rattle.std.specs.Prelude.{◌≡◌, ◌<◌, ◌^◌, length, IfOk, OnOk, OnErr};
ghost use Rattle.std.specs.Ordering.{nat_cmp};
ghost use Rattle.std.specs.Map.{keys_of};
ghost use Rattle.std.specs.List.Sorted.{IsStrictlySortedBy};
ghost use Rattle.n41_opens.specs.Opens.{open_of, seated, all_seated, is_marked, moved, all_moved, has_key};

use crate::{RecordId, RecordKey};
use n41_types::{Mode, NoMemory};
use std::alloc::AllocError;
use std::collections::BTreeMap;

/// What a handle has: its record, how it is open, and whether its close began.
#[derive(Debug, Drop)]
pub struct Open {
    pub id: RecordId,
    pub mode: Mode,
    pub closing: bool,
}

impl Clone for Open {
    ghost is_clone = { λ x y. y ≡ x };

    fn clone(&self) -> Result<Open, AllocError> {
        let mode = self.mode;
        let closing = self.closing;
        Ok(Open {
            id: self.id.clone()?,
            mode,
            closing,
        })
    }
}

/// The handles by their numbers.
pub(crate) type Handles = BTreeMap<u64, Open>;

/// Whether the close of a handle began.
pub(crate) fn is_marked(handles: &Handles, handle: u64) -> bool
    ensures { result ≡ is_marked (open_of handles.now.entries handle) }
{
    let Some(held) = handles.get(&handle) else {
        return false;
    };
    held.closing
}

/// A handle has a record in a mode; what it had before.
pub(crate) fn seat(
    handles: &mut Handles,
    handle: u64,
    id: RecordId,
    mode: Mode,
) -> Result<Option<Open>, NoMemory>
    ensures old { IfOk result (λ o. o ≡ open_of handles.old.entries handle) }
    ensures ok { OnOk result (handles.new.entries ≡ seated handles.old.entries handle id mode) }
    ensures err { OnErr result (handles.new.entries ≡ handles.old.entries) }
    ensures ordered { IsStrictlySortedBy nat_cmp (keys_of handles.old.entries) }
    ensures few { length handles.old.entries < 2 ^ 63 }
{
    let count = handles.len();
    prove!(count < usize::MAX);
    let closing = is_marked(handles, handle);
    let held = Open { id, mode, closing };
    match handles.insert(handle, held) {
        Ok(old) => Ok(old),
        Err(_failed) => Err(AllocError),
    }
}

/// The same handles.
fn copy(handles: &Handles) -> Result<Handles, NoMemory>
    ensures { IfOk result (λ g. g.entries ≡ handles.now.entries) }
{
    handles.clone()
}

/// These handles have a record, each in its mode.
fn seat_all(handles: &mut Handles, id: &RecordId, list: &[(u64, Mode)]) -> Result<(), NoMemory>
    ensures { OnOk result (handles.new.entries ≡ all_seated handles.old.entries id.now list.now) }
{
    for pair in list {
        let own = id.clone()?;
        drop(seat(handles, pair.0, own, pair.1)?);
    }
    Ok(())
}

/// The handles once these have a record, each in its mode.
pub(crate) fn all_seated(
    handles: &Handles,
    id: &RecordId,
    list: &[(u64, Mode)],
) -> Result<Handles, NoMemory>
    ensures { IfOk result (λ g. g.entries ≡ all_seated handles.now.entries id.now list.now) }
{
    let mut next = copy(handles)?;
    seat_all(&mut next, id, list)?;
    Ok(next)
}

/// A handle of the record's key has this record.
fn move_to(held: &mut Open, id: &RecordId)
    ensures { held.new ≡ moved id.now held.old }
{
    if id.key == held.id.key {
        held.id.other = id.other;
    }
}

/// All handles of the record's key have this record.
fn move_all(handles: &mut Handles, id: &RecordId)
    ensures { handles.new.entries ≡ all_moved id.now handles.old.entries }
{
    handles.retain(|_number, held| {
        move_to(held, id);
        true
    });
}

/// The handles once all those of the record's key have this record.
pub(crate) fn all_moved(handles: &Handles, id: &RecordId) -> Result<Handles, NoMemory>
    ensures { IfOk result (λ g. g.entries ≡ all_moved id.now handles.now.entries) }
{
    let mut next = copy(handles)?;
    move_all(&mut next, id);
    Ok(next)
}

/// Whether a handle has a record under the key.
pub(crate) fn has_key(handles: &Handles, key: &RecordKey) -> bool
    ensures { result ≡ has_key handles.now.entries key.now }
{
    for (_number, held) in handles {
        if *key == held.id.key {
            return true;
        }
    }
    false
}
