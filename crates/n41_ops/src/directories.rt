//! What READDIR answers (RFC 8881, section 18.23).

ghost use Rattle.std.specs.Prelude.{◌≡◌, ◌++◌, OnOk};
ghost use Rattle.n41_xdr.specs.Format.{optional, made};
ghost use Rattle.n41_attr.specs.declared.fault.OpFault.TheVariants.{Xdr};
ghost use Rattle.n41_attr.specs.Operations.{Gives};
ghost use Rattle.n41_attr.specs.Parts.{outcome};
ghost use Rattle.n41_ops.specs.Files.{entry, entries, listing, told_listing, written_listing};
ghost use Rattle.n41_ops.specs.Results.{ReadDir, answer_as, as_kept};

use n41_attr::OpFault;
use n41_attr::parts::{
    read_fattr, read_string, read_verifier, write_fattr, write_string, write_verifier,
};
use n41_results::{Entries, Entry, Listing, Res};
use n41_types::{NoMemory, Sequence, Status};
use n41_xdr::{Reader, Writer, XdrFault};
use std::alloc::Global;

#[tactic(auto, unfolding(crate::specs::Files::entry))]
fn read_entry(alloc: Global, r: &mut Reader) -> Result<Entry, OpFault>
    ensures { Gives (λ x. x) result r.new (entry.read r.old) }
{
    let cookie = r.u64()?;
    let name = read_string(alloc, r)?;
    let attrs = read_fattr(alloc, r)?;
    Ok(Entry {
        cookie,
        name,
        attrs,
    })
}

#[tactic(auto, unfolding(crate::specs::Files::entry))]
fn write_entry(w: &mut Writer, x: &Entry) -> Result<(), NoMemory>
    requires { entry.Fits x.now }
    ensures { OnOk result (w.new ≡ w.old ++ entry.spell x.now) }
{
    w.put_u64(x.cookie)?;
    write_string(w, &x.name)?;
    write_fattr(w, &x.attrs)
}

/// An entry behind a true, or nothing behind a false.
fn read_next_entry(alloc: Global, r: &mut Reader) -> Result<Option<Entry>, OpFault>
    ensures { Gives (λ x. x) result r.new ((optional Xdr entry).read r.old) }
{
    if r.boolean()? {
        Ok(Some(read_entry(alloc, r)?))
    } else {
        Ok(None)
    }
}

/// The entries up to the end of their list. Room is taken for an entry only once it is there.
#[tactic(auto, unfolding(crate::specs::Files::entries))]
fn read_entries(alloc: Global, r: &mut Reader) -> Result<Entries, OpFault>
    ensures { Gives (λ x. x) result r.new (entries.read r.old) }
{
    let mut list = Vec::new(alloc);
    // Each takes bytes, so there are no more of them than bytes.
    for _ in 0..r.len() + 1 {
        match read_next_entry(alloc, r)? {
            None => return Ok(Sequence::from_vec(alloc, list)?),
            Some(next) => list.push(next)?,
        }
    }
    Err(OpFault::Xdr(XdrFault::Short { need: 4, have: 0 }))
}

#[tactic(auto, unfolding(crate::specs::Files::entries))]
fn write_entries(w: &mut Writer, x: &Entries) -> Result<(), NoMemory>
    requires { entries.Fits x.now }
    ensures { OnOk result (w.new ≡ w.old ++ entries.spell x.now) }
{
    for next in x.as_slice() {
        w.put_bool(true)?;
        write_entry(w, next)?;
    }
    w.put_bool(false)
}

#[tactic(auto, unfolding(crate::specs::Files::listing))]
fn read_listing(alloc: Global, r: &mut Reader) -> Result<Listing, OpFault>
    ensures { Gives (λ x. x) result r.new (listing.read r.old) }
{
    let verifier = read_verifier(r)?;
    let entries = read_entries(alloc, r)?;
    let eof = r.boolean()?;
    Ok(Listing {
        verifier,
        entries,
        eof,
    })
}

#[tactic(auto, unfolding(crate::specs::Files::listing))]
fn write_listing(w: &mut Writer, x: &Listing) -> Result<(), NoMemory>
    requires { listing.Fits x.now }
    ensures { OnOk result (w.new ≡ w.old ++ listing.spell x.now) }
{
    write_verifier(w, &x.verifier)?;
    write_entries(w, &x.entries)?;
    w.put_bool(x.eof)
}

pub(crate) fn read_read_dir(alloc: Global, r: &mut Reader) -> Result<Res, OpFault>
    ensures { Gives (λ x. x) result r.new (as_kept (made (λ x. ReadDir x) (outcome told_listing) r.old)) }
{
    match r.u32()? {
        0 => Ok(Res::ReadDir(Ok(read_listing(alloc, r)?))),
        number => Ok(Res::ReadDir(Err(Status(number)))),
    }
}

pub(crate) fn write_read_dir(w: &mut Writer, x: &Result<Listing, Status>) -> Result<(), NoMemory>
    requires { (outcome told_listing).Fits (answer_as written_listing x.now) }
    ensures { OnOk result (w.new ≡ w.old ++ (outcome told_listing).spell (answer_as written_listing x.now)) }
{
    match x {
        Ok(listing) => {
            w.put_u32(0)?;
            write_listing(w, listing)
        }
        Err(status) => w.put_u32(status.0),
    }
}
