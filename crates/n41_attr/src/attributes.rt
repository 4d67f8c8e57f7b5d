ghost use Rattle.std.specs.Prelude.{◌≡◌, ◌<◌, ◌≤◌, ◌^◌, ◌++◌, List, length};
ghost use Rattle.n41_xdr.specs.Format.{made};
ghost use Rattle.n41_xdr.specs.Spelling as spelling;
ghost use Rattle.n41_attr.specs.Bitmaps.{bitmap};
ghost use Rattle.n41_attr.specs.Attributes.{told, behind, attrs_of, unknown_fault, bit_if, first_word, mask_of, written, values_text};
ghost use Rattle.n41_attr.specs.Reading.{ReadsAttrs, GivesAttrs, Writes};

use crate::bitmaps::{least_unknown, read_words};
use crate::fault::AttrFault;
use crate::values::{read_whole, values_len, write_values};
use n41_types::{Attrs, NoMemory};
use n41_xdr::{Reader, Writer, XdrFault};
use std::alloc::Global;

/// The fault for an attribute that is not known.
fn unknown_fault(mask: &[u32], number: u64) -> AttrFault
    requires { length mask.now < 2 ^ 32 }
    ensures { result ≡ unknown_fault mask.now number }
{
    if number < 1 << 32 {
        AttrFault::Unknown(number as u32)
    } else {
        AttrFault::Xdr(XdrFault::TooLong {
            len: mask.len() as u32,
            max: 1 << 27,
        })
    }
}

/// What stands behind a bitmap.
#[tactic(auto, unfolding(crate::specs::Attributes::behind))]
fn read_behind(r: &mut Reader, mask: &[u32]) -> Result<Attrs, AttrFault>
    requires { length mask.now < 2 ^ 32 }
    ensures { GivesAttrs (λ a. a) result r.new (made attrs_of (behind mask.now) r.old) }
{
    match least_unknown(mask) {
        Some(number) => Err(unknown_fault(mask, number)),
        None => {
            let body = r.opaque(u32::MAX)?;
            read_whole(body, mask)
        }
    }
}

#[tactic(auto, unfolding(crate::specs::Attributes::told))]
fn read_told(alloc: Global, r: &mut Reader) -> Result<Attrs, AttrFault>
    ensures { GivesAttrs (λ a. a) result r.new (made attrs_of told r.old) }
{
    let mask = read_words(alloc, r)?;
    read_behind(r, mask.as_slice())
}

/// Reads the attributes of a file (RFC 8881, fattr4). A fault leaves the reader as it was.
pub fn read_attrs(alloc: Global, r: &mut Reader) -> Result<Attrs, AttrFault>
    ensures { ReadsAttrs (λ a. a) result r.old r.new (made attrs_of told r.old) }
{
    let start = r.rest();
    let read = read_told(alloc, r);
    if read.is_err() {
        *r = Reader::new(start);
    }
    read
}

fn word_bit(value: Option<u32>, bit: u32) -> u32
    ensures bound { result ≤ bit }
    ensures bit { result ≡ bit_if value bit }
{
    if value.is_some() { bit } else { 0 }
}

fn hyper_bit(value: Option<u64>, bit: u32) -> u32
    ensures bound { result ≤ bit }
    ensures bit { result ≡ bit_if value bit }
{
    if value.is_some() { bit } else { 0 }
}

/// The first word of a bitmap that has the attributes.
fn first_word(a: &Attrs) -> u32
    ensures { result ≡ first_word a.now }
{
    let identity = word_bit(a.lease, 1 << 10) + hyper_bit(a.fileid, 1 << 20);
    word_bit(a.kind, 1 << 1)
        + (hyper_bit(a.change, 1 << 3) + (hyper_bit(a.size, 1 << 4) + identity))
}

/// The fewest words of a bitmap that has the attributes.
#[tactic(auto, unfolding(crate::specs::Bitmaps::bitmap))]
fn write_mask(w: &mut Writer, a: &Attrs) -> Result<(), NoMemory>
    ensures { Writes result w.old w.new (bitmap.spell (mask_of a.now)) }
{
    let first = first_word(a);
    if a.mode.is_some() {
        w.put_u32(2)?;
        w.put_u32(first)?;
        w.put_u32(2)
    } else if first != 0 {
        w.put_u32(1)?;
        w.put_u32(first)
    } else {
        w.put_u32(0)
    }
}

/// Writes the attributes of a file (RFC 8881, fattr4), with the fewest words of a bitmap.
#[tactic(auto, unfolding(crate::specs::Attributes::told, crate::specs::Attributes::behind))]
pub fn write_attrs(w: &mut Writer, a: &Attrs) -> Result<(), NoMemory>
    ensures { Writes result w.old w.new (told.spell (written a.now)) }
{
    write_mask(w, a)?;
    w.put_u32(values_len(a))?;
    write_values(w, a)?;
    Ok(())
}
