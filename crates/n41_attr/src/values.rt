ghost use Rattle.std.specs.Prelude.{◌≡◌, ◌≤◌, ◌%◌, length};
ghost use Rattle.n41_xdr.specs.Format.{word, hyper};
ghost use Rattle.n41_attr.specs.Attributes.{when, when_text, values, first_text, last_text, values_text, whole};
ghost use Rattle.n41_attr.specs.Reading.{Gives, Writes};

use crate::bitmaps::has;
use crate::fault::AttrFault;
use n41_types::{Attrs, NoMemory};
use n41_xdr::{Reader, Writer, XdrFault};

fn read_word_when(r: &mut Reader, is_there: bool) -> Result<Option<u32>, XdrFault>
    ensures { Gives result r.new ((when is_there word).read r.old) }
{
    if is_there {
        Ok(Some(r.u32()?))
    } else {
        Ok(None)
    }
}

fn read_hyper_when(r: &mut Reader, is_there: bool) -> Result<Option<u64>, XdrFault>
    ensures { Gives result r.new ((when is_there hyper).read r.old) }
{
    if is_there {
        Ok(Some(r.u64()?))
    } else {
        Ok(None)
    }
}

#[tactic(auto, unfolding(crate::specs::Attributes::values))]
fn read_values(r: &mut Reader, mask: &[u32]) -> Result<Attrs, XdrFault>
    ensures { Gives result r.new ((values mask.now).read r.old) }
{
    let kind = read_word_when(r, has(mask, 1))?;
    let change = read_hyper_when(r, has(mask, 3))?;
    let size = read_hyper_when(r, has(mask, 4))?;
    let lease = read_word_when(r, has(mask, 10))?;
    let fileid = read_hyper_when(r, has(mask, 20))?;
    let mode = read_word_when(r, has(mask, 33))?;
    Ok(Attrs {
        kind,
        change,
        size,
        lease,
        fileid,
        mode,
    })
}

/// The values of a bitmap, which are all that the bytes have.
pub(crate) fn read_whole(bytes: &[u8], mask: &[u32]) -> Result<Attrs, AttrFault>
    ensures { result ≡ whole ((values mask.now).read bytes.now) }
{
    let mut r = Reader::new(bytes);
    match read_values(&mut r, mask) {
        Ok(attrs) => {
            if r.len() == 0 {
                Ok(attrs)
            } else {
                Err(AttrFault::Length)
            }
        }
        Err(_) => Err(AttrFault::Length),
    }
}

fn write_word_if(w: &mut Writer, value: Option<u32>) -> Result<(), NoMemory>
    ensures { Writes result w.old w.new (when_text word.spell value) }
{
    match value {
        Some(number) => w.put_u32(number),
        None => Ok(()),
    }
}

fn write_hyper_if(w: &mut Writer, value: Option<u64>) -> Result<(), NoMemory>
    ensures { Writes result w.old w.new (when_text hyper.spell value) }
{
    match value {
        Some(number) => w.put_u64(number),
        None => Ok(()),
    }
}

fn write_first(w: &mut Writer, a: &Attrs) -> Result<(), NoMemory>
    ensures { Writes result w.old w.new (first_text a.now) }
{
    write_word_if(w, a.kind)?;
    write_hyper_if(w, a.change)?;
    write_hyper_if(w, a.size)?;
    Ok(())
}

fn write_last(w: &mut Writer, a: &Attrs) -> Result<(), NoMemory>
    ensures { Writes result w.old w.new (last_text a.now) }
{
    write_word_if(w, a.lease)?;
    write_hyper_if(w, a.fileid)?;
    write_word_if(w, a.mode)?;
    Ok(())
}

/// The values that are there, in the order of their numbers.
pub(crate) fn write_values(w: &mut Writer, a: &Attrs) -> Result<(), NoMemory>
    ensures { Writes result w.old w.new (values_text a.now) }
{
    write_first(w, a)?;
    write_last(w, a)?;
    Ok(())
}

#[tactic(auto, unfolding(n41_xdr::specs::Spelling::word))]
fn word_len(value: Option<u32>) -> u32
    ensures len { result ≡ length (when_text word.spell value) }
    ensures words { result % 4 ≡ 0 }
    ensures bound { result ≤ 4 }
{
    if value.is_some() { 4 } else { 0 }
}

#[tactic(auto, unfolding(n41_xdr::specs::Spelling::hyper))]
fn hyper_len(value: Option<u64>) -> u32
    ensures len { result ≡ length (when_text hyper.spell value) }
    ensures words { result % 4 ≡ 0 }
    ensures bound { result ≤ 8 }
{
    if value.is_some() { 8 } else { 0 }
}

/// How many bytes the values take.
pub(crate) fn values_len(a: &Attrs) -> u32
    ensures len { result ≡ length (values_text a.now) }
    ensures words { result % 4 ≡ 0 }
    ensures bound { result ≤ 36 }
{
    word_len(a.kind)
        + hyper_len(a.change)
        + hyper_len(a.size)
        + word_len(a.lease)
        + hyper_len(a.fileid)
        + word_len(a.mode)
}
