//! The owners of opens and of locks (RFC 8881, section 3.3.10).

ghost use Rattle.std.specs.Prelude.{◌≡◌, ◌++◌, OnOk};
ghost use Rattle.n41_attr.specs.Operations.{Gives};
ghost use Rattle.n41_args.specs.Owners.{state_owner};

use n41_attr::OpFault;
use n41_types::{Bytes, NoMemory, Owner};
use n41_xdr::{Reader, Writer};
use std::alloc::{AllocError, Global};

/// An owner and the client id beside it (RFC 8881, state_owner4).
#[derive(Drop, PartialEq, Eq)]
pub struct StateOwner {
    pub client: u64,
    pub owner: Owner,
}

impl Clone for StateOwner {
    ghost is_clone = { λ x y. y ≡ x };

    fn clone(&self) -> Result<StateOwner, AllocError> {
        Ok(StateOwner {
            client: self.client,
            owner: self.owner.clone()?,
        })
    }
}

#[tactic(auto, unfolding(crate::specs::Owners::state_owner, n41_attr::specs::Parts::owner_bytes))]
pub(crate) fn read_owner(alloc: Global, r: &mut Reader) -> Result<StateOwner, OpFault>
    ensures { Gives (λ x. x) result r.new (state_owner.read r.old) }
{
    let client = r.u64()?;
    let bytes = r.opaque(1024)?;
    let owner = Owner::new(Bytes::copy_from_slice(alloc, bytes)?);
    Ok(StateOwner { client, owner })
}

#[tactic(auto, unfolding(crate::specs::Owners::state_owner, n41_attr::specs::Parts::owner_bytes))]
pub(crate) fn write_owner(w: &mut Writer, x: &StateOwner) -> Result<(), NoMemory>
    ensures { OnOk result (w.new ≡ w.old ++ state_owner.spell x.now) }
{
    w.put_u64(x.client)?;
    w.put_opaque(x.owner.as_slice())
}
